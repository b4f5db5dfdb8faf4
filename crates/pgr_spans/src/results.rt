ghost use Rattle.std.specs.Prelude.{◌≡◌, length, map, IfOk};
ghost use Rattle.std.specs.List.{flat_map};
ghost use Rattle.std.specs.List.Sorted.{IsPermutation, IsSorted};
ghost use Rattle.pgr_spans.specs.Lists.{classed_cmp};
ghost use Rattle.pgr_spans.specs.Member.{classed_of, bridge_of, corners_of, ArePointsAt};
ghost use Rattle.pgr_spans.specs.Seen.{parts};

use crate::classed::Classed;
use crate::member::Member;
use crate::seen::{Entry, Seen};
use pgr_numbers::Names;
use pgr_outside::NoMemory;
use std::alloc::Global;

/// The edge of each member with its component, by component and then by edge.
pub(crate) fn classes_of(alloc: Global, members: &[Member]) -> Result<Vec<Classed>, NoMemory>
    ensures moved { IfOk result (λ classes. IsPermutation (map classed_of members.now) classes.items) }
    ensures sorted { IfOk result (λ classes. IsSorted classed_cmp classes.items) }
{
    let mut classes = in_turn(alloc, members)?;
    classes.sort_unstable();
    Ok(classes)
}

/// The edge of each member with its component, in order.
fn in_turn(alloc: Global, members: &[Member]) -> Result<Vec<Classed>, NoMemory>
    ensures { IfOk result (λ classes. classes.items ≡ map classed_of members.now) }
{
    let mut classes = Vec::with_capacity(alloc, members.len()).map_err(|_| NoMemory)?;
    for member in members {
        classes
            .push(Classed {
                component: member.component,
                edge: member.edge,
            })
            .map_err(|_| NoMemory)?;
    }
    Ok(classes)
}

/// The edges of the members that are no loops and alone in their blocks, in order.
pub(crate) fn bridges_of(alloc: Global, members: &[Member]) -> Result<Vec<i64>, NoMemory>
    ensures { IfOk result (λ bridges. bridges.items ≡ flat_map bridge_of members.now) }
{
    let mut bridges = Vec::new(alloc);
    for member in members {
        if member.alone && member.from != member.to {
            bridges.push(member.edge).map_err(|_| NoMemory)?;
        }
    }
    Ok(bridges)
}

/// The component of each member that is no loop, under each of its ends.
pub(crate) fn corners(alloc: Global, members: &[Member]) -> Result<Vec<Entry>, NoMemory>
    ensures { IfOk result (λ corners. corners.items ≡ flat_map corners_of members.now) }
{
    let mut corners = Vec::new(alloc);
    for member in members {
        if member.from != member.to {
            let start = Entry {
                key: member.from,
                value: member.component,
            };
            let end = Entry {
                key: member.to,
                value: member.component,
            };
            corners
                .extend_from_slice(&[start, end])
                .map_err(|_| NoMemory)?;
        }
    }
    Ok(corners)
}

/// The ids of the places with components that differ, rising.
pub(crate) fn points_of(
    alloc: Global,
    names: &Names,
    found: &[Option<Seen>],
) -> Result<Vec<i64>, NoMemory>
    requires { length found.now ≡ length names.now }
    ensures { IfOk result (λ points. ArePointsAt names.now found.now points.items) }
{
    let mut points = Vec::new(alloc);
    for v in 0..names.len() {
        if is_parting(&found[v as usize]) {
            points.push(names.name(v)).map_err(|_| NoMemory)?;
        }
    }
    Ok(points)
}

/// Whether there are two values that differ.
fn is_parting(seen: &Option<Seen>) -> bool
    ensures { result ≡ parts seen.now }
{
    match seen {
        None => false,
        Some(seen) => !seen.same,
    }
}
