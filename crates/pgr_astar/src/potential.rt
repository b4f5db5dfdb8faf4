ghost use Rattle.std.specs.Prelude.{◌≡◌, ◌<◌, ◌^◌, ℕ, All, Contains, IfOk, IsSomeAnd, length, replicate, slice_index_or};
ghost use Rattle.pgr_words.specs.Factors.{IsFactor};
ghost use Rattle.pgr_table.specs.Edges.{HasPlaces};
ghost use Rattle.pgr_numbers.specs.Names.{id_at};
ghost use Rattle.pgr_astar.specs.Points.{IsInPlane, IsNamedIn};
ghost use Rattle.pgr_astar.specs.Estimate.{IsEstimate};
ghost use Rattle.pgr_astar.specs.Pointing.{AreEstimates};

use crate::point::{Point, estimate_between};
use crate::points::{point_at, points_of};
use pgr_numbers::Names;
use pgr_outside::NoMemory;
use pgr_search::Estimate;
use pgr_table::EdgeTable;
use pgr_words::{Factor, Heuristic};
use std::alloc::Global;
use std::marker::Model;

/// For each vertex number an estimate of what a walk from a start to it costs, which contracts see as their list.
///
/// Each is below 2^127.
#[derive(Debug, Drop)]
pub struct Potential {
    values: Vec<u128>,
}

impl Model for Potential {
    ghost use Rattle.std.specs.Prelude.{ℕ, ◌<◌, ◌^◌, All, List};

    ghost Value = { List ℕ };

    ghost view = { λ potential. potential.values.items };

    ghost invariant = { λ potential. All (λ value. value < 2 ^ 127) potential.values.items };
}

impl Potential {
    /// The estimates for a start: of each name the distance of its point from that of the start by a heuristic, times a
    /// factor, rounded down.
    ///
    /// The table was read with places, each name is the source or target of some row, and the start is one of the names. A
    /// name lies where the first row puts it that names it, as source before as target. At the start the estimate is 0.
    /// `NoMemory` may come at any call. Work, not proved: two look-ups for each row.
    pub fn make(
        alloc: Global,
        table: &EdgeTable,
        names: &Names,
        start: i64,
        heuristic: Heuristic,
        factor: Factor,
    ) -> Result<Potential, NoMemory>
        requires places { HasPlaces table.now }
        requires named { All (IsNamedIn table.now) names.now }
        requires start { Contains names.now start }
        requires factor { IsFactor factor }
        ensures size { IfOk result (λ potential. length potential ≡ length names.now) }
        ensures estimates { IfOk result (λ potential. (v : ℕ) → v < length names.now
            → IsEstimate table.now start heuristic factor (id_at names.now v) (slice_index_or potential v 0)) }
        ensures zero { IfOk result (λ potential. (v : ℕ) → v < length names.now → id_at names.now v ≡ start
            → slice_index_or potential v 0 ≡ 0) }
    {
        // From this call it is known that the coordinates of a table are small.
        let _rows = table.len();
        let points = points_of(alloc, table, names)?;
        let number = names.number(start).unwrap();
        let points = points.as_slice();
        let from = point_at(points, number).unwrap();
        let values = estimates_from(alloc, heuristic, factor, from, points)?;
        Ok(Potential { values })
    }

    /// The estimate 0 of each of `size` vertices, which is consistent over every graph.
    ///
    /// `NoMemory` may come at any call.
    pub fn zero(alloc: Global, size: u32) -> Result<Potential, NoMemory>
        ensures { IfOk result (λ potential. potential ≡ replicate size 0) }
    {
        let values = vec![in alloc; 0; size as usize]?;
        Ok(Potential { values })
    }

    /// The estimate of a vertex below the size. It takes no memory.
    pub fn value(&self, v: u32) -> u128
        requires { v < length self.now }
        ensures value { result ≡ slice_index_or self.now v 0 }
        ensures small { result < 2 ^ 127 }
    {
        self.values[v as usize]
    }

    /// Each estimate is small. The call does nothing.
    pub(crate) fn is_small(&self)
        ensures { (v : ℕ) → v < length self.now → slice_index_or self.now v 0 < 2 ^ 127 }
    {
        let _ = &self.values;
    }
}

/// The estimates of points, each from the same point.
fn estimates_from(
    alloc: Global,
    heuristic: Heuristic,
    factor: Factor,
    from: Point,
    points: &[Option<Point>],
) -> Result<Vec<u128>, NoMemory>
    requires factor { IsFactor factor }
    requires from { IsInPlane from }
    requires points { All (λ point. IsSomeAnd point IsInPlane) points.now }
    ensures small { IfOk result (λ values. All (λ value. value < 2 ^ 127) values.items) }
    ensures estimates { IfOk result (λ values. AreEstimates heuristic factor from points.now values.items) }
{
    let mut values = Vec::with_capacity(alloc, points.len())?;
    for point in points {
        let to = point.unwrap();
        values.push(estimate_between(heuristic, factor, from, to))?;
    }
    Ok(values)
}

impl Estimate for Potential {
    ghost use Rattle.std.specs.Prelude.{length};
    ghost use Rattle.pgr_astar.specs.Breaking.{value_at};

    ghost count = { length };

    ghost values = { value_at };

    fn value(&self, v: u32) -> u128 {
        Potential::value(self, v)
    }
}
