ghost use Rattle.std.specs.Prelude.{◌≡◌, ◌<◌, ◌+◌, [], All, IsSome, IfOk, OnOk, length, map, unwrap_or, slice_index_or};
ghost use Rattle.pgr_walks.specs.Graph.{IsLinkOf};
ghost use Rattle.pgr_parts.specs.Classes.{AreClassNames, Connected};
ghost use Rattle.pgr_parts.specs.Trails.{Leads, AreWithin, AreMutual};
ghost use Rattle.pgr_parts.specs.Spreading.{AreSpread, IsNamedFrom};

use pgr_outside::NoMemory;
use pgr_walks::{Adjacency, Graph};
use std::alloc::Global;

/// For each vertex the least vertex of its connected class.
///
/// A class has the vertices that walks join over the links taken both ways; a vertex without links is a
/// class of its own. The list has the graph's size and may be empty. `NoMemory` may come at any call.
/// Work, not proved: linear.
pub fn connected<G: Graph>(alloc: Global, g: &G) -> Result<Vec<u32>, NoMemory>
    ensures { IfOk result
        (λ names. AreClassNames (Connected (IsLinkOf (G.count g.now) (G.ins g.now))) (G.count g.now) names.items) }
{
    let neighbours = Adjacency::neighbours(alloc, g)?;
    spread_all(alloc, &neighbours)
}

/// For each vertex the least of those that the lists join it with.
///
/// From each vertex in turn its number spreads to all that have no name yet, so the first to reach a class
/// is the least vertex of it.
fn spread_all(alloc: Global, lists: &Adjacency) -> Result<Vec<u32>, NoMemory>
    requires within { AreWithin lists.now }
    requires back { AreMutual lists.now }
    ensures { IfOk result (λ names. AreClassNames (Leads lists.now) (length lists.now) names.items) }
{
    let mut names = vec![in alloc; None; lists.size() as usize].map_err(|_| NoMemory)?;
    let mut waiting = Vec::new(alloc);
    for root in 0..lists.size() {
        spread(lists, root, names.as_mut_slice(), &mut waiting)?;
    }
    all_names(alloc, names.as_slice())
}

/// Gives the root's number to all vertices without a name that the lists lead to from it.
fn spread(
    lists: &Adjacency,
    root: u32,
    names: &mut [Option<u32>],
    waiting: &mut Vec<u32>,
) -> Result<(), NoMemory>
    requires within { AreWithin lists.now }
    requires back { AreMutual lists.now }
    requires root { root < length lists.now }
    requires spread { AreSpread lists.now root names.old }
    requires idle { waiting.old.items ≡ [] }
    ensures spread { OnOk result (AreSpread lists.now (root + 1) names.new) }
    ensures idle { OnOk result (waiting.new.items ≡ []) }
{
    waiting.push(root).map_err(|_| NoMemory)?;
    while let Some(v) = waiting.pop() {
        name_one(lists, root, v, names, waiting)?;
    }
    Ok(())
}

/// Names a vertex that waited, if it has no name, and lets those on its list wait.
fn name_one(
    lists: &Adjacency,
    root: u32,
    v: u32,
    names: &mut [Option<u32>],
    waiting: &mut Vec<u32>,
) -> Result<(), NoMemory>
    requires size { length names.old ≡ length lists.now }
    requires vertex { v < length lists.now }
    ensures { OnOk result
        (IsNamedFrom (slice_index_or lists.now v []) root v names.old names.new waiting.old.items waiting.new.items) }
{
    if names[v as usize].is_none() {
        names[v as usize] = Some(root);
        waiting
            .extend_from_slice(lists.of(v))
            .map_err(|_| NoMemory)?;
    }
    Ok(())
}

/// The names, each of which is there.
fn all_names(alloc: Global, names: &[Option<u32>]) -> Result<Vec<u32>, NoMemory>
    requires { All IsSome names.now }
    ensures { IfOk result (λ all. all.items ≡ map (λ name. unwrap_or name 0) names.now) }
{
    names
        .iter()
        .map(|name| name.unwrap())
        .collect(alloc)
        .map_err(|_| NoMemory)
}
