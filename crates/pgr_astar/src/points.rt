ghost use Rattle.std.specs.Prelude.{◌≡◌, ◌<◌, Some, None, IfOk, IsSome, length, slice_index_or, if◌then◌else◌};
ghost use Rattle.std.specs.Ordering.{int_eq};
ghost use Rattle.pgr_table.specs.Edges.{HasPlaces};
ghost use Rattle.pgr_astar.specs.Pointing.{ArePoints, Notes, point_by};

use crate::point::Point;
use pgr_numbers::{Names, numbers_rise_with_ids};
use pgr_outside::NoMemory;
use pgr_table::{EdgeRow, EdgeTable};
use std::alloc::Global;

/// The point of each name, or none where no row names it, in the order of the names.
pub(crate) fn points_of(
    alloc: Global,
    table: &EdgeTable,
    names: &Names,
) -> Result<Vec<Option<Point>>, NoMemory>
    requires { HasPlaces table.now }
    ensures { IfOk result (λ points. ArePoints table.now names.now points.items) }
{
    let mut points = vec![in alloc; None; names.len() as usize]?;
    for i in 0..table.len() {
        let row = table.row(i);
        note_row(&mut points, names, row);
    }
    Ok(points)
}

/// Notes where a row puts its two vertices, each if it has no point yet, the source before the target.
fn note_row(points: &mut Vec<Option<Point>>, names: &Names, row: EdgeRow)
    requires size { length points.old.items ≡ length names.now }
    requires place { IsSome row.place }
    ensures size { length points.new.items ≡ length points.old.items }
    ensures notes { Notes names.now (point_by row) points.old.items points.new.items }
{
    if let Some(place) = row.place {
        note(
            points,
            names,
            row.source,
            Point {
                x: place.x1,
                y: place.y1,
            },
        );
        note(
            points,
            names,
            row.target,
            Point {
                x: place.x2,
                y: place.y2,
            },
        );
    }
}

/// Notes the point of a vertex, if the vertex is a name that has no point yet.
fn note(points: &mut Vec<Option<Point>>, names: &Names, id: i64, point: Point)
    requires { length points.old.items ≡ length names.now }
    ensures size { length points.new.items ≡ length points.old.items }
    ensures notes { Notes names.now (λ v. if int_eq id v then Some point else None) points.old.items points.new.items }
{
    names.len();
    numbers_rise_with_ids();
    if let Some(number) = names.number(id) {
        if points[number as usize].is_none() {
            points[number as usize] = Some(point);
        }
    }
}

/// The point of a name, by its number.
pub(crate) fn point_at(points: &[Option<Point>], n: u32) -> Option<Point>
    requires { n < length points.now }
    ensures { result ≡ slice_index_or points.now n None }
{
    points[n as usize]
}
