ghost use Rattle.std.specs.Prelude.{◌≡◌, ◌≢◌, ◌⊎◌, ℕ, ◌+◌, ◌<◌, ◌^◌, ◌∷◌, slice_index_or, All, Contains, length, IfOk, IfSome, IfNone, OnOk};
ghost use Rattle.std.specs.BTreeMap.{get};
ghost use Rattle.pgr_walks.specs.declared.link.LinkOf.{LinkOf};
ghost use Rattle.pgr_walks.specs.Walk.{IsWithoutRepeats};
ghost use Rattle.pgr_walks.specs.LinksOf.{LinksOf};
ghost use Rattle.pgr_turns.specs.Fronts.{Completes};
ghost use Rattle.pgr_turns.specs.Trie.{key_cmp, word, IsAutomaton};
ghost use Rattle.pgr_turns.specs.States.{AreStates, state_at, state_cmp, node_of, vertex_of};
ghost use Rattle.pgr_walks.specs.Graph.{IsStrictlyRising};
ghost use Rattle.pgr_turns.specs.declared.state.State.{State as AState};
ghost use Rattle.pgr_turns.specs.Moving.{IsMoved, MovesAll, MovesTo};
ghost use Rattle.pgr_turns.specs.Turned.{IsTurned};

use crate::automaton::after;
use crate::collecting::links_out;
use crate::growth::push;
use crate::state::{State, state_of_number};
use crate::trie::{Back, Trie};
use pgr_outside::NoMemory;
use pgr_walks::{Graph, Link, RowGraph};
use std::alloc::Global;

/// The graph of all states.
pub(crate) fn moved_graph<G: Graph>(
    alloc: Global,
    graph: &G,
    trie: &Trie,
    backs: &[Back],
    states: &[State],
) -> Result<RowGraph, NoMemory>
    requires automaton { IsAutomaton trie.now.lists.items trie.now.nodes.items (λ a e. get key_cmp trie.now.children (a, e)) backs.now }
    requires states { AreStates (LinksOf G.Graph graph.now) trie.now.nodes.items backs.now (length trie.now.nodes.items) states.now }
    requires size { G.count graph.now + length states.now < 2 ^ 32 }
    ensures size { IfOk result (λ moved. ⟦<RowGraph as Graph>⟧.count moved ≡ G.count graph.now + length states.now) }
    ensures turned { IfOk result (λ moved. IsTurned (G.count graph.now) (G.ins graph.now) trie.now.lists.items (G.count graph.now + length states.now)
        (vertex_of (G.count graph.now) states.now) (λ x. word trie.now.lists.items trie.now.nodes.items (node_of (G.count graph.now) states.now x))
        (LinksOf ⟦<RowGraph as Graph>⟧ moved)) }
{
    let size = graph.size() + states.len() as u32;
    let links = moved_links(alloc, graph, trie, backs, states, size)?;
    let moved = RowGraph::from_links(alloc, size, links)?;
    Ok(moved)
}

/// The links of all states, each once.
fn moved_links<G: Graph>(
    alloc: Global,
    graph: &G,
    trie: &Trie,
    backs: &[Back],
    states: &[State],
    size: u32,
) -> Result<Vec<Link>, NoMemory>
    requires automaton { IsAutomaton trie.now.lists.items trie.now.nodes.items (λ a e. get key_cmp trie.now.children (a, e)) backs.now }
    requires states { AreStates (LinksOf G.Graph graph.now) trie.now.nodes.items backs.now (length trie.now.nodes.items) states.now }
    requires size { size ≡ G.count graph.now + length states.now }
    ensures once { IfOk result (λ links. IsWithoutRepeats links.items) }
    ensures moved { IfOk result (λ links. All (IsMoved (G.count graph.now) (G.outs graph.now) trie.now.lists.items trie.now.nodes.items states.now) links.items) }
    ensures all { IfOk result (λ links. (x : ℕ) → x < size → MovesAll (G.count graph.now) (G.outs graph.now) trie.now.lists.items trie.now.nodes.items states.now x links.items) }
{
    let mut links = Vec::new(alloc);
    for x in 0..size {
        append_moved(alloc, graph, trie, backs, states, x, &mut links)?;
    }
    links.sort_unstable();
    links.dedup();
    Ok(links)
}

/// Puts the links of a state behind a list.
fn append_moved<G: Graph>(
    alloc: Global,
    graph: &G,
    trie: &Trie,
    backs: &[Back],
    states: &[State],
    x: u32,
    links: &mut Vec<Link>,
) -> Result<(), NoMemory>
    requires automaton { IsAutomaton trie.now.lists.items trie.now.nodes.items (λ a e. get key_cmp trie.now.children (a, e)) backs.now }
    requires states { AreStates (LinksOf G.Graph graph.now) trie.now.nodes.items backs.now (length trie.now.nodes.items) states.now }
    requires x { x < G.count graph.now + length states.now }
    requires size { G.count graph.now + length states.now < 2 ^ 32 }
    requires moved { All (IsMoved (G.count graph.now) (G.outs graph.now) trie.now.lists.items trie.now.nodes.items states.now) links.old.items }
    ensures moved { OnOk result (All (IsMoved (G.count graph.now) (G.outs graph.now) trie.now.lists.items trie.now.nodes.items states.now) links.new.items) }
    ensures kept { OnOk result ((link : LinkOf ℕ) → Contains links.old.items link → Contains links.new.items link) }
    ensures all { OnOk result (MovesAll (G.count graph.now) (G.outs graph.now) trie.now.lists.items trie.now.nodes.items states.now x links.new.items) }
{
    let state = state_of_number(graph.size(), states, x);
    let outs = links_out(alloc, graph, state.vertex)?;
    for link in &outs {
        append_link(graph, trie, backs, states, x, *link, links)?;
    }
    Ok(())
}

/// Puts a link beneath behind a list, as one of a state, unless it completes a restriction.
fn append_link<G: Graph>(
    graph: &G,
    trie: &Trie,
    backs: &[Back],
    states: &[State],
    x: u32,
    link: Link,
    links: &mut Vec<Link>,
) -> Result<(), NoMemory>
    requires automaton { IsAutomaton trie.now.lists.items trie.now.nodes.items (λ a e. get key_cmp trie.now.children (a, e)) backs.now }
    requires states { AreStates (LinksOf G.Graph graph.now) trie.now.nodes.items backs.now (length trie.now.nodes.items) states.now }
    requires x { x < G.count graph.now + length states.now }
    requires size { G.count graph.now + length states.now < 2 ^ 32 }
    requires link { Contains (G.outs graph.now (vertex_of (G.count graph.now) states.now x)) link }
    requires moved { All (IsMoved (G.count graph.now) (G.outs graph.now) trie.now.lists.items trie.now.nodes.items states.now) links.old.items }
    ensures moved { OnOk result (All (IsMoved (G.count graph.now) (G.outs graph.now) trie.now.lists.items trie.now.nodes.items states.now) links.new.items) }
    ensures kept { OnOk result ((other : LinkOf ℕ) → Contains links.old.items other → Contains links.new.items other) }
    ensures there { OnOk result ((Completes trie.now.lists.items (link.edge ∷ word trie.now.lists.items trie.now.nodes.items (node_of (G.count graph.now) states.now x)) → ⊥)
        → (moved : LinkOf ℕ) × (Contains links.new.items moved × MovesTo (G.count graph.now) states.now x link moved)) }
{
    match moved_link(graph, trie, backs, states, x, link) {
        None => Ok(()),
        Some(moved) => push(links, moved),
    }
}

/// A link beneath as one of a state, or none where it completes a restriction.
fn moved_link<G: Graph>(
    graph: &G,
    trie: &Trie,
    backs: &[Back],
    states: &[State],
    x: u32,
    link: Link,
) -> Option<Link>
    requires automaton { IsAutomaton trie.now.lists.items trie.now.nodes.items (λ a e. get key_cmp trie.now.children (a, e)) backs.now }
    requires states { AreStates (LinksOf G.Graph graph.now) trie.now.nodes.items backs.now (length trie.now.nodes.items) states.now }
    requires x { x < G.count graph.now + length states.now }
    requires size { G.count graph.now + length states.now < 2 ^ 32 }
    requires link { Contains (G.outs graph.now (vertex_of (G.count graph.now) states.now x)) link }
    ensures moved { IfSome result (λ moved. MovesTo (G.count graph.now) states.now x link moved
        × IsMoved (G.count graph.now) (G.outs graph.now) trie.now.lists.items trie.now.nodes.items states.now moved) }
    ensures none { IfNone result ((Completes trie.now.lists.items
        (link.edge ∷ word trie.now.lists.items trie.now.nodes.items (node_of (G.count graph.now) states.now x)) → ⊥) → ⊥) }
{
    let state = state_of_number(graph.size(), states, x);
    let next = after(trie, backs, state.node, link.edge);
    if backs[next as usize].forbids {
        return None;
    }
    Some(Link {
        from: x,
        edge: link.edge,
        cost: link.cost,
        to: number_of(graph.size(), states, next, link.to),
    })
}

/// The number of a state.
fn number_of(count: u32, states: &[State], node: u32, vertex: u32) -> u32
    requires rise { IsStrictlyRising state_cmp states.now }
    requires size { count + length states.now < 2 ^ 32 }
    requires there { ((node ≡ 0) × (vertex < count)) ⊎ ((node ≢ 0) × Contains states.now (record { node = node; vertex = vertex })) }
    ensures below { result < count + length states.now }
    ensures state { state_at count states.now result ≡ record { node = node; vertex = vertex } }
{
    if node == 0 {
        return vertex;
    }
    count + place_of(states, State { node, vertex }) as u32
}

/// The place of one of the states.
fn place_of(states: &[State], state: State) -> usize
    requires rise { IsStrictlyRising state_cmp states.now }
    requires there { Contains states.now state }
    ensures below { result < length states.now }
    ensures state { (d : AState) → slice_index_or states.now result d ≡ state }
{
    match states.binary_search(&state) {
        Ok(place) => place,
        Err(_) => unreachable!(),
    }
}
