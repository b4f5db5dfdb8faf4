ghost use Rattle.std.specs.Prelude.{IfOk};
ghost use Rattle.pgr_answer.specs.DijkstraCost.{IsDijkstraCost};

use crate::costs::costs_between;
use crate::tables::Tables;
use pgr_outside::NoMemory;
use pgr_rows::Rows;
use pgr_words::Command;
use std::alloc::Global;

/// The costs between the asked pairs of a command that can be answered and have a walk.
///
/// `NoMemory` may come at any call.
pub(crate) fn dijkstra_cost_rows(
    alloc: Global,
    command: &Command,
    tables: &Tables,
) -> Result<Rows, NoMemory>
    ensures { IfOk result (IsDijkstraCost command.now tables.now) }
{
    costs_between(
        alloc,
        &tables.edges,
        command.directed,
        command.starts.as_slice(),
        command.ends.as_slice(),
        &tables.combinations,
    )
}
