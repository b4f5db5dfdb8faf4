ghost use Rattle.std.specs.Prelude.{◌≡◌, ◌≢◌, ◌<◌, length, map, All, IfOk};
ghost use Rattle.std.specs.Ordering.{nat_cmp};
ghost use Rattle.pgr_outside.specs.Lists.{IsStrictlyRising};
ghost use Rattle.pgr_walks.specs.Graph.{Fits};
ghost use Rattle.pgr_walks.specs.LinksOf.{LinksOf};
ghost use Rattle.pgr_ksp.specs.Routes.{AreFirstK};
ghost use Rattle.pgr_answer.specs.Gathering.{pair_cmp};
ghost use Rattle.pgr_answer.specs.Finding.{found_cmp, IsPairAmong, AreRoutesOf};
ghost use Rattle.pgr_answer.specs.Ksp.{IsKsp};

use crate::edge_network::network_of;
use crate::found::Found;
use crate::ksp_rows::rows_of_lists;
use crate::network::Network;
use crate::pair::Pair;
use crate::pairs::asked_pairs;
use crate::tables::Tables;
use pgr_ksp::{Paths, given_routes_are_first};
use pgr_numbers::{numbers_rise_with_ids, route_order_is_kept};
use pgr_outside::{Listed, NoMemory};
use pgr_route::Route;
use pgr_rows::Rows;
use pgr_walks::Graph;
use pgr_words::Command;
use std::alloc::Global;

/// The first K routes between the asked pairs of a command that can be answered.
///
/// `NoMemory` may come at any call.
pub(crate) fn ksp_table_rows(
    alloc: Global,
    command: &Command,
    tables: &Tables,
) -> Result<Rows, NoMemory>
    ensures { IfOk result (IsKsp command.now tables.now) }
{
    let network = network_of(alloc, &tables.edges, command.directed)?;
    let starts = command.starts.as_slice();
    let ends = command.ends.as_slice();
    let pairs = asked_pairs(alloc, &network.names, starts, ends, &tables.combinations)?;
    let pairs = pairs.as_slice();
    let found = lists_for(alloc, &network, pairs, command.k)?;
    let found = found.as_slice();
    numbers_rise_with_ids();
    route_order_is_kept();
    let rows = rows_of_lists(alloc, &network.names, found)?;
    Ok(Rows::Ksp(Listed::from_vec(rows)))
}

/// The first K routes of each pair, by rising start and then by rising end.
fn lists_for<G: Graph>(
    alloc: Global,
    network: &Network<G>,
    pairs: &[Pair],
    k: u32,
) -> Result<Vec<Found<Listed<Route>>>, NoMemory>
    requires among { All (IsPairAmong (length network.now.names)) pairs.now }
    requires rise { IsStrictlyRising pair_cmp pairs.now }
    ensures found { IfOk result (λ found. AreRoutesOf (LinksOf G.Graph network.now.graph) k pairs.now found.items) }
    ensures rise { IfOk result (λ found. IsStrictlyRising found_cmp found.items) }
{
    let mut found = Vec::new(alloc);
    for pair in pairs {
        let kept = first_routes(alloc, &network.graph, pair.start, pair.end, k)?;
        found.push(Found {
            start: pair.start,
            end: pair.end,
            kept,
        })?;
    }
    found.sort_unstable_by_key(|found| (found.start, found.end));
    Ok(found)
}

/// The first K loopless routes between two vertices.
fn first_routes<G: Graph>(
    alloc: Global,
    graph: &G,
    start: u32,
    end: u32,
    k: u32,
) -> Result<Listed<Route>, NoMemory>
    requires fits { Fits (LinksOf G.Graph graph.now) }
    requires start { start < G.count graph.now }
    requires end { end < G.count graph.now }
    requires differ { start ≢ end }
    ensures { IfOk result (AreFirstK nat_cmp (LinksOf G.Graph graph.now) start end k) }
{
    let mut paths = Paths::start(alloc, graph, start, end)?;
    let mut routes = Vec::new(alloc);
    for turn in 0..k {
        let Some(route) = paths.next()? else {
            given_routes_are_first(&paths);
            return Ok(Listed::from_vec(routes));
        };
        routes.push(route)?;
    }
    given_routes_are_first(&paths);
    Ok(Listed::from_vec(routes))
}
