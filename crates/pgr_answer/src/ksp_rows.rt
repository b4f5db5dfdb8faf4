ghost use Rattle.std.specs.Prelude.{◌≡◌, ◌≢◌, ◌+◌, ◌<◌, [], ◌++◌, length, map, All, IfOk, flat_map};
ghost use Rattle.pgr_numbers.specs.Names.{IsNumbered, named};
ghost use Rattle.pgr_answer.specs.Ksp.{NumberedPath, ksp_row as row_in_path, ksp_rows as rows_in_path, rows_of_path, numbered_paths, ksp_numbered_from, ksp_table};
ghost use Rattle.pgr_answer.specs.Found.{routes_found};
ghost use Rattle.pgr_answer.specs.Finding.{HasNames};

use crate::found::Found;
use pgr_numbers::Names;
use pgr_outside::{Listed, NoMemory};
use pgr_route::{Route, Step, steps};
use pgr_rows::KspRow;
use std::alloc::Global;

/// The rows of the lists of routes that are found, one route after the other, numbered from 1.
///
/// Each route has a link, and its vertices are numbers of names. `NoMemory` may come at any call.
pub(crate) fn rows_of_lists(
    alloc: Global,
    names: &Names,
    found: &[Found<Listed<Route>>],
) -> Result<Vec<KspRow>, NoMemory>
    requires named { All (HasNames (length names.now)) found.now }
    requires numbered { All (λ f. All (All (IsNumbered names.now)) f.kept) found.now }
    requires links { All (λ f. All (λ route. route ≢ []) f.kept) found.now }
    ensures { IfOk result (λ rows. rows.items ≡ ksp_table (routes_found names.now found.now)) }
{
    let mut rows = Vec::new(alloc);
    for found in found {
        let start = names.name(found.start);
        let end = names.name(found.end);
        push_routes(alloc, &mut rows, names, start, end, found.kept.as_slice())?;
    }
    Ok(rows)
}

/// Puts the rows of the routes of a pair behind the rows of a table. After `NoMemory` it may have some of them.
fn push_routes(
    alloc: Global,
    rows: &mut Vec<KspRow>,
    names: &Names,
    start: i64,
    end: i64,
    routes: &[Route],
) -> Result<(), NoMemory>
    requires numbered { All (All (IsNumbered names.now)) routes.now }
    requires links { All (λ route. route ≢ []) routes.now }
    ensures { IfOk result (λ _. rows.new.items ≡ rows.old.items ++ ksp_numbered_from (length rows.old.items + 1)
        (flat_map rows_of_path (numbered_paths start end 1 (map (map (named names.now)) routes.now)))) }
{
    for (i, route) in routes.iter().enumerate() {
        let steps = steps(alloc, route, names)?;
        push_path(rows, start, end, i as u64 + 1, steps.as_slice())?;
    }
    Ok(())
}

/// Puts the rows of the steps of a path behind the rows of a table. After `NoMemory` it may have some of them.
fn push_path(
    rows: &mut Vec<KspRow>,
    start: i64,
    end: i64,
    id: u64,
    steps: &[Step],
) -> Result<(), NoMemory>
    ensures { IfOk result (λ _. rows.new.items ≡ rows.old.items ++ ksp_numbered_from (length rows.old.items + 1)
        (rows_in_path (record { start = start; end = end; id = id; walk = [] }) 1 steps.now)) }
{
    for (i, step) in steps.iter().enumerate() {
        let seq = rows.len() as u64 + 1;
        rows.push(row_of_step(seq, id, i as u64 + 1, start, end, step))?;
    }
    Ok(())
}

/// The row with this number of a step with this number in a path with this number from start to end.
fn row_of_step(seq: u64, id: u64, path_seq: u64, start: i64, end: i64, step: &Step) -> KspRow
    ensures { result ≡ record (row_in_path (record { start = start; end = end; id = id; walk = [] }) path_seq step.now) { seq = seq } }
{
    KspRow {
        seq,
        path_id: id,
        path_seq,
        start_vid: start,
        end_vid: end,
        node: step.node,
        edge: step.edge,
        cost: step.cost,
        agg_cost: step.agg,
    }
}
