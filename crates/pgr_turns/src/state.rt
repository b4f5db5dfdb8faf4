ghost use Rattle.std.specs.Prelude.{◌≡◌, ℤ, ◌+◌, ◌<◌, ◌≤◌, ◌^◌, ◌++◌, map, length, IfOk, OnOk};
ghost use Rattle.std.specs.BTreeMap.{get};
ghost use Rattle.std.specs.List.Sorted.{IsNonDecreasingBy};
ghost use Rattle.pgr_walks.specs.LinksOf.{LinksOf};
ghost use Rattle.pgr_turns.specs.Trie.{key_cmp, IsAutomaton};
ghost use Rattle.pgr_turns.specs.MostStates.{most_states};
ghost use Rattle.pgr_turns.specs.States.{AreHeads, AreStates, state_at, states_below, states_with, with_node, run_heads, head_of, edge_index};

use crate::collecting::links_out;
use crate::growth::push;
use crate::trie::{Back, Node, Trie};
use pgr_outside::NoMemory;
use pgr_walks::Graph;
use std::alloc::Global;

/// An edge, and a vertex to which a link of it leads.
#[derive(Clone, Copy, PartialEq, Eq, PartialOrd, Ord)]
pub(crate) struct Head {
    /// The id of the edge.
    pub edge: i64,
    /// Where the link leads.
    pub vertex: u32,
}

/// A vertex, with the longest front of a restriction that the last edges are.
#[derive(Clone, Copy, PartialEq, Eq, PartialOrd, Ord)]
pub(crate) struct State {
    /// The node of the front.
    pub node: u32,
    /// The vertex.
    pub vertex: u32,
}

/// The heads of all links of a graph, by their edges; one that several links have is there as often.
pub(crate) fn heads_of<G: Graph>(alloc: Global, g: &G) -> Result<Vec<Head>, NoMemory>
    ensures { IfOk result (λ heads. AreHeads (LinksOf G.Graph g.now) heads.items) }
{
    let mut heads = Vec::new(alloc);
    for v in 0..g.size() {
        append_heads(alloc, g, v, &mut heads)?;
    }
    heads.sort_unstable();
    Ok(heads)
}

/// Puts the heads of the links out of a vertex behind a list.
fn append_heads<G: Graph>(
    alloc: Global,
    g: &G,
    v: u32,
    heads: &mut Vec<Head>,
) -> Result<(), NoMemory>
    requires { v < G.count g.now }
    ensures { OnOk result (heads.new.items ≡ heads.old.items ++ map head_of (G.outs g.now v)) }
{
    let links = links_out(alloc, g, v)?;
    for link in &links {
        push(
            heads,
            Head {
                edge: link.edge,
                vertex: link.to,
            },
        )?;
    }
    Ok(())
}

/// Of heads that stand by their edges, those of an edge.
fn run_of(heads: &[Head], edge: i64) -> &[Head]
    requires { (key : ℤ) → IsNonDecreasingBy (edge_index key) heads.now }
    ensures { result.now ≡ run_heads edge heads.now }
{
    let (_, rest) = heads.split_at(heads.partition_point(|head| head.edge < edge));
    let (run, _) = rest.split_at(rest.partition_point(|head| head.edge <= edge));
    run
}

/// Puts a state for each of some heads behind a list.
fn append_states(states: &mut Vec<State>, node: u32, heads: &[Head]) -> Result<(), NoMemory>
    ensures { OnOk result (states.new.items ≡ states.old.items ++ map (with_node node) heads.now) }
{
    for head in heads {
        push(
            states,
            State {
                node,
                vertex: head.vertex,
            },
        )?;
    }
    Ok(())
}

/// The states of a graph and some fronts: for each front that isn't empty and completes no restriction one at each
/// vertex to which a link with its last edge leads.
pub(crate) fn states_of<G: Graph>(
    alloc: Global,
    g: &G,
    trie: &Trie,
    backs: &[Back],
    heads: &[Head],
) -> Result<Vec<State>, NoMemory>
    requires automaton { IsAutomaton trie.now.lists.items trie.now.nodes.items (λ a e. get key_cmp trie.now.children (a, e)) backs.now }
    requires heads { AreHeads (LinksOf G.Graph g.now) heads.now }
    ensures states { IfOk result (λ states. AreStates (LinksOf G.Graph g.now) trie.now.nodes.items backs.now (length trie.now.nodes.items) states.items) }
    ensures few { IfOk result (λ states. G.count g.now + length states.items ≤ most_states (G.count g.now) (G.outs g.now) (G.ins g.now) trie.now.lists.items) }
{
    let mut states = raw_states(alloc, trie.nodes.as_slice(), backs, heads)?;
    states.sort_unstable();
    states.dedup();
    Ok(states)
}

/// The states of all nodes, as often as their heads are there.
fn raw_states(
    alloc: Global,
    nodes: &[Node],
    backs: &[Back],
    heads: &[Head],
) -> Result<Vec<State>, NoMemory>
    requires size { length backs.now ≡ length nodes.now }
    requires small { length nodes.now < 2 ^ 32 }
    requires order { (key : ℤ) → IsNonDecreasingBy (edge_index key) heads.now }
    ensures { IfOk result (λ states. states.items ≡ states_below nodes.now backs.now heads.now (length nodes.now)) }
{
    let mut states = Vec::new(alloc);
    for x in 0..nodes.len() {
        append_node(&mut states, nodes, backs, heads, x)?;
    }
    Ok(states)
}

/// Puts the states of a node behind a list.
fn append_node(
    states: &mut Vec<State>,
    nodes: &[Node],
    backs: &[Back],
    heads: &[Head],
    x: usize,
) -> Result<(), NoMemory>
    requires size { length backs.now ≡ length nodes.now }
    requires small { length nodes.now < 2 ^ 32 }
    requires order { (key : ℤ) → IsNonDecreasingBy (edge_index key) heads.now }
    requires x { x < length nodes.now }
    ensures { OnOk result (states.new.items ≡ states.old.items ++ states_with nodes.now backs.now heads.now x) }
{
    if x == 0 || backs[x].forbids {
        return Ok(());
    }
    append_states(states, x as u32, run_of(heads, nodes[x].edge))
}

/// The state that has the number `x`: a vertex, or one of the states behind the vertices.
pub(crate) fn state_of_number(count: u32, states: &[State], x: u32) -> State
    requires { x < count + length states.now }
    ensures { result ≡ state_at count states.now x }
{
    if x < count {
        State { node: 0, vertex: x }
    } else {
        states[(x - count) as usize]
    }
}
