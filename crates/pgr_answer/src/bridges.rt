ghost use Rattle.std.specs.Prelude.{IfOk};
ghost use Rattle.pgr_answer.specs.Bridges.{IsBridges};

use crate::tables::Tables;
use pgr_blocks::{BlockLists, blocks, spans_of};
use pgr_outside::{Listed, NoMemory};
use pgr_rows::Rows;
use std::alloc::Global;

/// The bridges among the edges with a direction, rising.
///
/// `NoMemory` may come at any call.
pub(crate) fn bridges_rows(alloc: Global, tables: &Tables) -> Result<Rows, NoMemory>
    ensures { IfOk result (IsBridges tables.now) }
{
    let spans = spans_of(alloc, &tables.edges)?;
    let BlockLists { bridges, .. } = blocks(alloc, spans.as_slice())?;
    Ok(Rows::Edges(Listed::from_vec(bridges)))
}
