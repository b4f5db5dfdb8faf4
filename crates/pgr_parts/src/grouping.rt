ghost use Rattle.std.specs.Prelude.{◌≡◌, IfOk, length, map};
ghost use Rattle.pgr_walks.specs.Graph.{IsLinkOf};
ghost use Rattle.pgr_parts.specs.Classes.{AreClassNames, StronglyConnected};
ghost use Rattle.pgr_parts.specs.Trails.{AreWithin, LeadBothWays};
ghost use Rattle.pgr_parts.specs.Standings.{name_at, AreAllNamed};

use crate::search::Search;
use crate::standing::Standing;
use pgr_outside::NoMemory;
use pgr_walks::{Adjacency, Graph};
use std::alloc::Global;

/// For each vertex the least vertex of its strong class.
///
/// Two vertices are in one strong class if a walk leads from each to the other; a vertex on no cycle is a
/// class of its own. The list has the graph's size and may be empty. `NoMemory` may come at any call.
/// Source: Dijkstra 1976; Gabow 2000. Work, not proved: linear but for a logarithm.
pub fn strong<G: Graph>(alloc: Global, g: &G) -> Result<Vec<u32>, NoMemory>
    ensures { IfOk result
        (λ names. AreClassNames (StronglyConnected (IsLinkOf (G.count g.now) (G.ins g.now))) (G.count g.now) names.items) }
{
    let heads = Adjacency::heads(alloc, g)?;
    group_all(alloc, &heads)
}

/// For each vertex the least of those that the lists lead to from it and back.
fn group_all(alloc: Global, lists: &Adjacency) -> Result<Vec<u32>, NoMemory>
    requires { AreWithin lists.now }
    ensures { IfOk result (λ names. AreClassNames (LeadBothWays lists.now) (length lists.now) names.items) }
{
    let mut search = Search::for_size(alloc, lists.size())?;
    for root in 0..lists.size() {
        search.explore(lists, root)?;
    }
    all_names(alloc, search.standing.as_slice())
}

/// The names of the classes, each of which is known.
fn all_names(alloc: Global, standing: &[Standing]) -> Result<Vec<u32>, NoMemory>
    requires { AreAllNamed standing.now }
    ensures { IfOk result (λ names. names.items ≡ map name_at standing.now) }
{
    standing
        .iter()
        .map(|standing| standing.name().unwrap())
        .collect(alloc)
        .map_err(|_| NoMemory)
}
