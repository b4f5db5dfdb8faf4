ghost use Rattle.std.specs.Prelude.{◌≡◌, ◌<◌, All, length, map, IfOk, OnOk};
ghost use Rattle.std.specs.Ordering.{nat_cmp};
ghost use Rattle.pgr_outside.specs.Lists.{IsStrictlyRising};
ghost use Rattle.pgr_walks.specs.LinksOf.{LinksOf};
ghost use Rattle.pgr_reach.specs.Equicost.{listed};
ghost use Rattle.pgr_reach.specs.Within.{AreWithin};
ghost use Rattle.pgr_answer.specs.DrivingDistance.{AreShown, IsDrivingDistance};
ghost use Rattle.pgr_answer.specs.Gathering.{AreNumbersOf};

use crate::edge_network::network_of;
use crate::network::Network;
use crate::pairs::numbers_of;
use crate::reach_rows::rows_of_reaches;
use crate::tables::Tables;
use pgr_numbers::{Names, costs_and_hops_are_kept, numbers_rise_with_ids, walks_correspond};
use pgr_outside::{Listed, NoMemory};
use pgr_reach::{Reach, equicost, within};
use pgr_rows::Rows;
use pgr_walks::Graph;
use pgr_words::Command;
use std::alloc::Global;

/// The vertices within the distance of the starts of a command.
///
/// `NoMemory` may come at any call.
pub(crate) fn driving_distance_rows(
    alloc: Global,
    command: &Command,
    tables: &Tables,
) -> Result<Rows, NoMemory>
    ensures { IfOk result (IsDrivingDistance command.now tables.now) }
{
    let network = network_of(alloc, &tables.edges, command.directed)?;
    let starts = command.starts.as_slice();
    let roots = roots_of(alloc, &network.names, starts)?;
    let roots = roots.as_slice();
    let mut reaches = reaches_of(alloc, &network, roots, command.distance)?;
    leave_shown(alloc, command.equicost, &mut reaches)?;
    walks_correspond();
    costs_and_hops_are_kept();
    numbers_rise_with_ids();
    let shown = reaches.as_slice();
    let rows = rows_of_reaches(alloc, &network.names, shown)?;
    Ok(Rows::Reaches(Listed::from_vec(rows)))
}

/// The numbers of the starts that are names, each once and rising.
pub(crate) fn roots_of(alloc: Global, names: &Names, starts: &[i64]) -> Result<Vec<u32>, NoMemory>
    ensures exactly { IfOk result (λ roots. AreNumbersOf names.now starts.now roots.items) }
    ensures rise { IfOk result (λ roots. IsStrictlyRising nat_cmp roots.items) }
{
    let mut roots = numbers_of(alloc, names, starts)?;
    roots.sort_unstable();
    roots.dedup();
    Ok(roots)
}

/// Each root with the vertices within the distance of it.
fn reaches_of<G: Graph>(
    alloc: Global,
    network: &Network<G>,
    roots: &[u32],
    distance: u64,
) -> Result<Vec<Reach>, NoMemory>
    requires roots { All (λ root. root < length network.now.names) roots.now }
    ensures roots { IfOk result (λ reaches. map (λ reach. reach.root) reaches.items ≡ roots.now) }
    ensures within { IfOk result (λ reaches. All
        (λ reach. AreWithin nat_cmp (LinksOf G.Graph network.now.graph) reach.root distance reach.rows.items) reaches.items) }
{
    let mut reaches = Vec::new(alloc);
    for root in roots {
        let reach = within(alloc, &network.graph, *root, distance)?;
        reaches.push(reach)?;
    }
    Ok(reaches)
}

/// Leaves each vertex under its closest root alone, where that is asked for.
fn leave_shown(alloc: Global, closest_alone: bool, reaches: &mut Vec<Reach>) -> Result<(), NoMemory>
    ensures { OnOk result (AreShown nat_cmp closest_alone (map listed reaches.old.items) (map listed reaches.new.items)) }
{
    if closest_alone {
        return equicost(alloc, reaches);
    }
    Ok(())
}
