ghost use Rattle.std.specs.Prelude.{◌≡◌, ◌≤◌, ◌*◌, ◌^◌, ◌<◌};
ghost use Rattle.pgr_table.specs.Edges.{IsCoordinate};
ghost use Rattle.pgr_words.specs.Factors.{IsFactor};
ghost use Rattle.pgr_astar.specs.Points.{IsInPlane};
ghost use Rattle.pgr_astar.specs.Estimate.{apart, IsDistance, IsEstimateBetween};

use pgr_words::{Factor, Heuristic};

/// A point of the plane, by its coordinates.
#[derive(Clone, Copy, Debug, PartialEq, Eq)]
pub(crate) struct Point {
    pub(crate) x: i64,
    pub(crate) y: i64,
}

/// The estimate of what a walk from one point to another costs: their distance by a heuristic, times a factor, rounded down.
pub(crate) fn estimate_between(heuristic: Heuristic, factor: Factor, from: Point, to: Point) -> u128
    requires factor { IsFactor factor }
    requires from { IsInPlane from }
    requires to { IsInPlane to }
    ensures estimate { IsEstimateBetween heuristic factor from to result }
    ensures small { result < 2 ^ 127 }
{
    let distance = distance_between(heuristic, from, to);
    distance * u128::from(factor.over) / u128::from(factor.under)
}

/// The distance of two points by a heuristic.
fn distance_between(heuristic: Heuristic, from: Point, to: Point) -> u128
    requires from { IsInPlane from }
    requires to { IsInPlane to }
    ensures distance { IsDistance heuristic (apart from.x to.x) (apart from.y to.y) result }
    ensures bound { result ≤ 8 * 10 ^ 30 }
{
    let dx = distance_along(from.x, to.x);
    let dy = distance_along(from.y, to.y);
    match heuristic {
        Heuristic::H0 => 0,
        Heuristic::H1 => dx.max(dy),
        Heuristic::H2 => dx.min(dy),
        Heuristic::H3 => square(dx) + square(dy),
        Heuristic::H4 => (square(dx) + square(dy)).isqrt(),
        Heuristic::H5 => dx + dy,
    }
}

/// How far apart two coordinates are.
fn distance_along(a: i64, b: i64) -> u128
    requires a { IsCoordinate a }
    requires b { IsCoordinate b }
    ensures apart { result ≡ apart a b }
    ensures bound { result ≤ 2 * 10 ^ 15 }
{
    u128::from(a.abs_diff(b))
}

/// The square of a distance.
fn square(d: u128) -> u128
    requires { d ≤ 2 * 10 ^ 15 }
    ensures square { result ≡ d * d }
    ensures bound { result ≤ 4 * 10 ^ 30 }
{
    d * d
}
