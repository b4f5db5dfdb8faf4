ghost use Rattle.std.specs.Prelude.{IfOk};
ghost use Rattle.pgr_answer.specs.Dijkstra.{IsDijkstra};

use crate::edge_network::network_of;
use crate::found::found_for;
use crate::pairs::asked_pairs;
use crate::path_rows::rows_of_routes;
use crate::tables::Tables;
use pgr_numbers::numbers_rise_with_ids;
use pgr_outside::{Listed, NoMemory};
use pgr_route::Route;
use pgr_rows::Rows;
use pgr_words::Command;
use std::alloc::Global;

/// The paths between the asked pairs of a command that can be answered and have a walk.
///
/// `NoMemory` may come at any call.
pub(crate) fn dijkstra_rows(
    alloc: Global,
    command: &Command,
    tables: &Tables,
) -> Result<Rows, NoMemory>
    ensures { IfOk result (IsDijkstra command.now tables.now) }
{
    let network = network_of(alloc, &tables.edges, command.directed)?;
    let starts = command.starts.as_slice();
    let ends = command.ends.as_slice();
    let pairs = asked_pairs(alloc, &network.names, starts, ends, &tables.combinations)?;
    let pairs = pairs.as_slice();
    let found = found_for::<_, Route>(alloc, &network, pairs)?;
    let found = found.as_slice();
    numbers_rise_with_ids();
    let rows = rows_of_routes(alloc, &network.names, found)?;
    Ok(Rows::Paths(Listed::from_vec(rows)))
}
