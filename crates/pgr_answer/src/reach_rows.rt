ghost use Rattle.std.specs.Prelude.{◌≡◌, ◌+◌, ◌<◌, ◌++◌, length, map, All, OnOk, IfOk};
ghost use Rattle.pgr_reach.specs.Equicost.{listed};
ghost use Rattle.pgr_answer.specs.DrivingDistance.{reach_row, reach_rows, reaches_from, reach_table};
ghost use Rattle.pgr_answer.specs.Rooted.{named_row, named_list, IsRowBelow, IsListBelow};

use pgr_numbers::Names;
use pgr_outside::NoMemory;
use pgr_reach::{Reach, Reached};
use pgr_rows::ReachRow;
use std::alloc::Global;

/// The rows of the roots, one root after the other, numbered from 1.
///
/// All vertices are numbers of names. `NoMemory` may come at any call.
pub(crate) fn rows_of_reaches(
    alloc: Global,
    names: &Names,
    reaches: &[Reach],
) -> Result<Vec<ReachRow>, NoMemory>
    requires { All (λ reach. IsListBelow (length names.now) (listed reach)) reaches.now }
    ensures { IfOk result (λ rows. rows.items ≡ reach_table (map (λ reach. named_list names.now (listed reach)) reaches.now)) }
{
    let mut rows = Vec::new(alloc);
    for reach in reaches {
        push_reach(&mut rows, names, reach)?;
    }
    Ok(rows)
}

/// Puts the rows of a root behind the rows of a table.
///
/// They are numbered from the number of the last row on. After `NoMemory` the table may have some of them.
fn push_reach(rows: &mut Vec<ReachRow>, names: &Names, reach: &Reach) -> Result<(), NoMemory>
    requires { IsListBelow (length names.now) (listed reach.now) }
    ensures { OnOk result (rows.new.items ≡ rows.old.items ++ reaches_from (length rows.old.items + 1) (reach_rows (named_list names.now (listed reach.now)))) }
{
    let root = names.name(reach.root);
    for row in reach.rows.as_slice() {
        let seq = rows.len() as u64 + 1;
        rows.push(row_of_reached(names, seq, root, row))?;
    }
    Ok(())
}

/// The row with this number of a vertex that is reached from a root.
fn row_of_reached(names: &Names, seq: u64, root: i64, row: &Reached) -> ReachRow
    requires { IsRowBelow (length names.now) row.now }
    ensures { result ≡ record (reach_row root (named_row names.now row.now)) { seq = seq } }
{
    ReachRow {
        seq,
        depth: row.label.hops,
        start_vid: root,
        pred: names.name(row.pred),
        node: names.name(row.node),
        edge: row.edge,
        cost: row.cost,
        agg_cost: row.label.cost,
    }
}
