ghost use Rattle.std.specs.Prelude.{◌≡◌, ◌*◌, All, AllPairs, IfOk};
ghost use Rattle.std.specs.List.Sorted.{IsPermutation};
ghost use Rattle.pgr_outside.specs.Lists.{IsStrictlyRising};
ghost use Rattle.pgr_points.specs.Places.{place_cmp, value_cmp};
ghost use Rattle.pgr_table.specs.Points.{IsPoint};
ghost use Rattle.pgr_points.specs.Senses.{points_of, AreInOrder};

use pgr_outside::NoMemory;
use pgr_table::{PointRow, PointTable};
use std::alloc::Global;
use std::cmp::Ordering;

/// The points by their edge, and on one edge as they stand along it.
///
/// `NoMemory` may come at any call.
pub(crate) fn points_by_place(alloc: Global, points: &PointTable) -> Result<Vec<PointRow>, NoMemory>
    ensures same { IfOk result (λ rows. IsPermutation points.now rows.items) }
    ensures rising { IfOk result (λ rows. IsStrictlyRising place_cmp rows.items) }
{
    // From this call it is known that no id of a point stands twice.
    let _count = points.len();
    let mut rows = rows_of(alloc, points)?;
    rows.sort_unstable_by(|a, b| compare_places(a, b));
    Ok(rows)
}

/// The rows of a table of points, in its order.
fn rows_of(alloc: Global, points: &PointTable) -> Result<Vec<PointRow>, NoMemory>
    ensures { IfOk result (λ rows. rows.items ≡ points.now) }
{
    let mut rows = Vec::with_capacity(alloc, points.len())?;
    for i in 0..points.len() {
        rows.push(points.row(i))?;
    }
    Ok(rows)
}

/// How two points compare by edge, then by fraction and then by id.
fn compare_places(a: &PointRow, b: &PointRow) -> Ordering
    ensures { result ≡ place_cmp a.now b.now }
{
    let by_edge = a.edge_id.cmp(&b.edge_id);
    let by_id = a.pid.cmp(&b.pid);
    by_edge.then(compare_values(a, b).then(by_id))
}

/// How the fractions of two points compare by value.
///
/// A denominator of 0, which no point has, counts as 1: so this is an order of all fractions.
fn compare_values(a: &PointRow, b: &PointRow) -> Ordering
    ensures { result ≡ value_cmp a.now b.now }
{
    let left = product(a.over, b.under.max(1));
    let right = product(b.over, a.under.max(1));
    left.cmp(&right)
}

/// The product of two numbers of 64 bits, which has at most 128.
pub(crate) fn product(a: u64, b: u64) -> u128
    ensures { result ≡ a * b }
{
    u128::from(a) * u128::from(b)
}

/// Of points that stand by their places, those on the edge.
pub(crate) fn points_of(placed: &[PointRow], edge: i64) -> &[PointRow]
    requires rising { IsStrictlyRising place_cmp placed.now }
    requires points { All IsPoint placed.now }
    ensures same { result.now ≡ points_of edge placed.now }

    // They are points of a table still, and their fractions rise.
    ensures points { All IsPoint result.now }
    ensures rise { AllPairs AreInOrder result.now }
{
    let (_, rest) = placed.split_at(placed.partition_point(|point| point.edge_id < edge));
    let (run, _) = rest.split_at(rest.partition_point(|point| point.edge_id <= edge));
    run
}
