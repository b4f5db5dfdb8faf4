ghost use Rattle.std.specs.Prelude.{◌≡◌, IfOk};
ghost use Rattle.pgr_answer.specs.BiconnectedComponents.{IsBiconnectedComponents, class_rows};

use crate::tables::Tables;
use pgr_blocks::{Classed, blocks, spans_of};
use pgr_outside::{Listed, NoMemory};
use pgr_rows::{ClassRow, Rows};
use std::alloc::Global;

/// Each edge with a direction with the name of its block.
///
/// `NoMemory` may come at any call.
pub(crate) fn biconnected_components_rows(alloc: Global, tables: &Tables) -> Result<Rows, NoMemory>
    ensures { IfOk result (IsBiconnectedComponents tables.now) }
{
    let spans = spans_of(alloc, &tables.edges)?;
    let lists = blocks(alloc, spans.as_slice())?;
    let rows = rows_of_blocks(alloc, lists.classes.as_slice())?;
    Ok(Rows::Classes(Listed::from_vec(rows)))
}

/// A row for each class, numbered from 1.
fn rows_of_blocks(alloc: Global, classes: &[Classed]) -> Result<Vec<ClassRow>, NoMemory>
    ensures { IfOk result (λ rows. rows.items ≡ class_rows 1 classes.now) }
{
    let mut rows = Vec::with_capacity(alloc, classes.len())?;
    for (i, class) in classes.iter().enumerate() {
        rows.push(ClassRow {
            seq: i as u64 + 1,
            component: class.component,
            edge: class.edge,
        })?;
    }
    Ok(rows)
}
