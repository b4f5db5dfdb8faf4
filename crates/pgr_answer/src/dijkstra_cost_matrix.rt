ghost use Rattle.std.specs.Prelude.{IfOk};
ghost use Rattle.pgr_answer.specs.DijkstraCostMatrix.{IsDijkstraCostMatrix};

use crate::costs::costs_between;
use crate::tables::Tables;
use pgr_outside::NoMemory;
use pgr_rows::Rows;
use pgr_table::PairTable;
use pgr_words::Command;
use std::alloc::Global;

/// The costs between all pairs of different vertices of a command's matrix that are in the graph and have a walk.
///
/// `NoMemory` may come at any call.
pub(crate) fn dijkstra_cost_matrix_rows(
    alloc: Global,
    command: &Command,
    tables: &Tables,
) -> Result<Rows, NoMemory>
    ensures { IfOk result (IsDijkstraCostMatrix command.now tables.now) }
{
    let vids = command.vids.as_slice();
    let none = PairTable::empty(alloc);
    costs_between(alloc, &tables.edges, command.directed, vids, vids, &none)
}
