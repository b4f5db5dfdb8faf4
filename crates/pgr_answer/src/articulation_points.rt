ghost use Rattle.std.specs.Prelude.{IfOk};
ghost use Rattle.pgr_answer.specs.ArticulationPoints.{IsArticulationPoints};

use crate::tables::Tables;
use pgr_blocks::{BlockLists, blocks, spans_of};
use pgr_outside::{Listed, NoMemory};
use pgr_rows::Rows;
use std::alloc::Global;

/// The articulation points of the edges with a direction, rising.
///
/// `NoMemory` may come at any call.
pub(crate) fn articulation_points_rows(alloc: Global, tables: &Tables) -> Result<Rows, NoMemory>
    ensures { IfOk result (IsArticulationPoints tables.now) }
{
    let spans = spans_of(alloc, &tables.edges)?;
    let BlockLists { points, .. } = blocks(alloc, spans.as_slice())?;
    Ok(Rows::Nodes(Listed::from_vec(points)))
}
