ghost use Rattle.std.specs.Prelude.{IfOk};
ghost use Rattle.pgr_graph.specs.Links.{IsLinkOfTable};
ghost use Rattle.pgr_answer.specs.CostTables.{IsCostTable};
ghost use Rattle.pgr_answer.specs.Pairs.{IsAsked};

use crate::cost_rows::rows_of_costs;
use crate::edge_network::network_of;
use crate::found::found_for;
use crate::kept::LeastCost;
use crate::pairs::asked_pairs;
use pgr_numbers::numbers_rise_with_ids;
use pgr_outside::{Listed, NoMemory};
use pgr_rows::Rows;
use pgr_table::{EdgeTable, PairTable};
use std::alloc::Global;

/// The costs between the pairs of starts and ends and the combinations that can be answered and have a walk.
///
/// They go over the links of a table, in the directed graph or the undirected one. `NoMemory` may come at any call.
pub(crate) fn costs_between(
    alloc: Global,
    edges: &EdgeTable,
    directed: bool,
    starts: &[i64],
    ends: &[i64],
    combinations: &PairTable,
) -> Result<Rows, NoMemory>
    ensures { IfOk result (IsCostTable (IsLinkOfTable edges.now directed) (IsAsked starts.now ends.now combinations.now)) }
{
    let network = network_of(alloc, edges, directed)?;
    let pairs = asked_pairs(alloc, &network.names, starts, ends, combinations)?;
    let pairs = pairs.as_slice();
    let found = found_for::<_, LeastCost>(alloc, &network, pairs)?;
    let found = found.as_slice();
    numbers_rise_with_ids();
    let rows = rows_of_costs(alloc, &network.names, found)?;
    Ok(Rows::Costs(Listed::from_vec(rows)))
}
