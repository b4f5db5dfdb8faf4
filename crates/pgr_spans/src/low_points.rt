ghost use Rattle.std.specs.Prelude.{◌≡◌, ℕ, ◌<◌, ◌^◌, List, Option, Some, length, All, IfOk};
ghost use Rattle.pgr_spans.specs.declared.segment.Segment.{Segment};
ghost use Rattle.pgr_spans.specs.Forest.{ParentsFall, AreReached, AreLowPoints};
ghost use Rattle.pgr_spans.specs.Segment.{IsSegmentBelow, AreItself, ReachesNear, lowered, parent_lowered};

use crate::segment::Segment;
use pgr_outside::NoMemory;
use std::alloc::Global;

/// The low point of each number: the least number that a segment from it or from below it leads to, or itself.
///
/// `NoMemory` may come at any call.
/// Source: Hopcroft and Tarjan 1973. Work, not proved: one pass over the segments and one over the numbers.
pub(crate) fn low_points(
    alloc: Global,
    parents: &[Option<u32>],
    segments: &[Segment],
) -> Result<Vec<u32>, NoMemory>
    requires few { length parents.now < 2 ^ 32 }
    requires falls { ParentsFall parents.now }
    requires below { All (IsSegmentBelow (length parents.now)) segments.now }
    ensures { IfOk result (λ lows. AreLowPoints parents.now segments.now lows.items) }
{
    let mut lows = each_itself(alloc, parents.len() as u32)?;
    lower_by_segments(lows.as_mut_slice(), segments);
    lower_by_children(lows.as_mut_slice(), parents);
    Ok(lows)
}

/// Each number itself.
fn each_itself(alloc: Global, size: u32) -> Result<Vec<u32>, NoMemory>
    ensures { IfOk result (λ lows. AreItself size lows.items) }
{
    let mut lows = Vec::with_capacity(alloc, size as usize).map_err(|_| NoMemory)?;
    for v in 0..size {
        lows.push(v).map_err(|_| NoMemory)?;
    }
    Ok(lows)
}

/// Lowers the far end of each segment to its near end.
fn lower_by_segments(lows: &mut [u32], segments: &[Segment])
    requires itself { AreItself (length lows.old) lows.old }
    requires below { All (IsSegmentBelow (length lows.old)) segments.now }
    ensures reached { (parents : List (Option ℕ)) → length parents ≡ length lows.old → AreReached parents segments.now lows.new }
    ensures near { ReachesNear segments.now lows.new }
{
    for segment in segments {
        lower(lows, segment.far, segment.near);
    }
}

/// Lowers each parent to its children, from the greatest number on.
fn lower_by_children(lows: &mut [u32], parents: &[Option<u32>])
    requires few { length parents.now < 2 ^ 32 }
    requires falls { ParentsFall parents.now }
    requires size { length lows.old ≡ length parents.now }
    ensures { (segments : List Segment) → AreReached parents.now segments lows.old → ReachesNear segments lows.old → AreLowPoints parents.now segments lows.new }
{
    let mut v = parents.len();
    while v > 0 {
        v -= 1;
        lower_parent(lows, parents[v], v);
    }
}

/// Lowers the parent of a number, if it has one, to what the number has.
fn lower_parent(lows: &mut [u32], parent: Option<u32>, v: usize)
    requires inside { v < length lows.old }
    requires parent { (p : ℕ) → parent ≡ Some p → p < length lows.old }
    ensures { lows.new ≡ parent_lowered lows.old parent v }
{
    if let Some(parent) = parent {
        let low = lows[v];
        lower(lows, parent, low);
    }
}

/// Lowers a number to another, if that is less.
fn lower(lows: &mut [u32], v: u32, low: u32)
    requires { v < length lows.old }
    ensures { lows.new ≡ lowered lows.old v low }
{
    lows[v as usize] = lows[v as usize].min(low);
}
