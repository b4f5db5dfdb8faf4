ghost use Rattle.std.specs.Prelude.{◌≡◌, ℕ, ◌<◌, ◌^◌, length, IfOk};
ghost use Rattle.pgr_spans.specs.Forest.{ParentsFall, AreTops};
ghost use Rattle.pgr_spans.specs.Segment.{top_by};

use pgr_outside::NoMemory;
use std::alloc::Global;

/// The top of each number: that of its parent where its low point is less than the parent, else itself.
///
/// The low point has to be less, and not only as small: where it is the parent, the parent parts the two.
/// `NoMemory` may come at any call.
pub(crate) fn tops_of(
    alloc: Global,
    parents: &[Option<u32>],
    lows: &[u32],
) -> Result<Vec<u32>, NoMemory>
    requires few { length parents.now < 2 ^ 32 }
    requires falls { ParentsFall parents.now }
    requires size { length lows.now ≡ length parents.now }
    ensures { IfOk result (λ tops. AreTops parents.now lows.now tops.items) }
{
    let mut tops = Vec::with_capacity(alloc, parents.len()).map_err(|_| NoMemory)?;
    for v in 0..parents.len() {
        let top = top_of(v as u32, parents[v], lows[v], tops.as_slice());
        tops.push(top).map_err(|_| NoMemory)?;
    }
    Ok(tops)
}

/// The top of a number with this parent and low point.
fn top_of(v: u32, parent: Option<u32>, low: u32, tops: &[u32]) -> u32
    requires { (p : ℕ) → parent ≡ Some p → p < length tops.now }
    ensures { result ≡ top_by tops.now v parent low }
{
    match parent {
        Some(parent) if low < parent => tops[parent as usize],
        _ => v,
    }
}
