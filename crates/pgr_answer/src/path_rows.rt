ghost use Rattle.std.specs.Prelude.{◌≡◌, ◌≢◌, ◌+◌, ◌<◌, [], ◌++◌, length, All, IfOk};
ghost use Rattle.pgr_numbers.specs.Names.{IsNumbered};
ghost use Rattle.pgr_answer.specs.Paths.{path_table, path_row, path_rows, numbered_from};
ghost use Rattle.pgr_answer.specs.Found.{walks_found};
ghost use Rattle.pgr_answer.specs.Finding.{HasNames};

use crate::found::Found;
use pgr_numbers::Names;
use pgr_outside::NoMemory;
use pgr_route::{Route, Step, steps};
use pgr_rows::PathRow;
use std::alloc::Global;

/// The rows of the routes that are found, one route after the other, numbered from 1.
///
/// Each route has a link, and its vertices are numbers of names. `NoMemory` may come at any call.
pub(crate) fn rows_of_routes(
    alloc: Global,
    names: &Names,
    found: &[Found<Route>],
) -> Result<Vec<PathRow>, NoMemory>
    requires named { All (HasNames (length names.now)) found.now }
    requires numbered { All (λ f. All (IsNumbered names.now) f.kept) found.now }
    requires links { All (λ f. f.kept ≢ []) found.now }
    ensures { IfOk result (λ rows. rows.items ≡ path_table (walks_found names.now found.now)) }
{
    let mut rows = Vec::new(alloc);
    for found in found {
        let steps = steps(alloc, &found.kept, names)?;
        let start = names.name(found.start);
        let end = names.name(found.end);
        push_path(&mut rows, start, end, steps.as_slice())?;
    }
    Ok(rows)
}
/// Puts the rows of the steps of a path behind the rows of a table.
///
/// They are numbered in the path from 1, and in the table from the number of the last row on. After `NoMemory` the
/// table may have some of them.
pub(crate) fn push_path(
    rows: &mut Vec<PathRow>,
    start: i64,
    end: i64,
    steps: &[Step],
) -> Result<(), NoMemory>
    ensures { IfOk result (λ _. rows.new.items ≡ rows.old.items ++ numbered_from (length rows.old.items + 1) (path_rows start end 1 steps.now)) }
{
    for (i, step) in steps.iter().enumerate() {
        let seq = rows.len() as u64 + 1;
        let row = row_of_step(seq, i as u64 + 1, start, end, step);
        rows.push(row)?;
    }
    Ok(())
}

/// The row with this number of a step with this number in the path from start to end.
fn row_of_step(seq: u64, path_seq: u64, start: i64, end: i64, step: &Step) -> PathRow
    ensures { result ≡ record (path_row start end path_seq step.now) { seq = seq } }
{
    PathRow {
        seq,
        path_seq,
        start_vid: start,
        end_vid: end,
        node: step.node,
        edge: step.edge,
        cost: step.cost,
        agg_cost: step.agg,
    }
}
