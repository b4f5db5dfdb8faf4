ghost use Rattle.std.specs.Prelude.{◌≡◌, ◌≤◌, sum_by, vec_len};
ghost use Rattle.pgr_walks.specs.Graph.{greatest};
ghost use Rattle.pgr_points.specs.Collapsed.{collapsed};

use pgr_route::Step;

/// Takes the inner rows whose node is a point out of the rows of a walk.
///
/// There are at least two rows, and their costs add up to at most 2^63 - 1. The first row and the last stay, and so does each
/// inner row whose node isn't negative. The cost of a row that goes is added to that of the nearest row before it that
/// stays; all else of the rows that stay is as it was. No memory is taken. Work, not proved: a step for each row.
pub fn collapse(rows: &mut Vec<Step>)
    requires two { 2 ≤ vec_len rows.old }
    requires sum { sum_by (λ row. row.cost) rows.old.items ≤ greatest }
    ensures { rows.new.items ≡ collapsed rows.old.items }
{
    let last = rows.len() - 1;
    let mut kept = 0;
    let mut held = rows[0];
    for i in 1..last {
        let row = rows[i];
        if row.node < 0 {
            held.cost += row.cost;
        } else {
            rows[kept] = held;
            kept += 1;
            held = row;
        }
    }
    rows[kept] = held;
    rows[kept + 1] = rows[last];
    rows.truncate(kept + 2);
}
