ghost use Rattle.std.specs.Prelude.{◌≡◌, ℕ, ◌+◌, ◌*◌, ◌<◌, ◌≤◌, ◌^◌, List, [], Contains, length, IfOk};
ghost use Rattle.pgr_walks.specs.declared.link.LinkOf.{LinkOf};
ghost use Rattle.pgr_walks.specs.LinksOf.{LinksOf};
ghost use Rattle.pgr_turns.specs.Trie.{word};
ghost use Rattle.pgr_turns.specs.States.{node_of, vertex_of as vertex_of_state};
ghost use Rattle.pgr_turns.specs.Turned.{IsTurned};

use crate::moving::moved_graph;
use crate::state::{State, heads_of, state_of_number, states_of};
use crate::trie::Trie;
use crate::turns::Turns;
use pgr_outside::NoMemory;
use pgr_walks::{Graph, LinkVisitor, RowGraph};
use std::alloc::Global;

/// A graph whose vertices are states: a vertex of the graph beneath, with the longest front of a restriction that
/// the last edges are.
///
/// Each vertex has a state with no front. A front that isn't empty completes no restriction, and stands only where a
/// link with its last edge leads. The links are those of the graph beneath that complete no restriction, each to the
/// state of the longest front then.
#[derive(Drop)]
pub struct TurnGraph<'a, G: Graph, M: Graph> {
    graph: &'a G,
    turns: &'a Turns,
    trie: &'a Trie,
    states: Vec<State>,
    moved: M,
    ghost seen: { trie.now.lists.items ≡ turns.now },
    ghost size: { M.count moved ≡ G.count graph.now + length states.items },
    ghost turned: { IsTurned (G.count graph.now) (G.ins graph.now) turns.now (G.count graph.now + length states.items)
        (vertex_of_state (G.count graph.now) states.items) (λ x. word trie.now.lists.items trie.now.nodes.items (node_of (G.count graph.now) states.items x))
        (LinksOf M.Graph moved) },
}

impl<'a, G: Graph> TurnGraph<'a, G, RowGraph> {
    ghost use Rattle.pgr_walks.specs.Graph.{Fits, greatest};
    ghost use Rattle.pgr_walks.specs.Walk.{cost_of};
    ghost use Rattle.pgr_turns.specs.Trie.{elements};
    ghost use Rattle.pgr_turns.specs.MostStates.{most_states};
    ghost use Rattle.pgr_turns.specs.Seen.{graph_of, restrictions_of, vertex_at, front_at};

    /// The states of a graph and some restrictions.
    ///
    /// Take for each id of each restriction the number of different ends of the links with that edge: their sum and the
    /// size of the graph are less than 2^32 together, and there are no more states. The graph need not fit, and an id
    /// may be that of no edge.
    /// The states fit where no restriction has an id and the graph fits, and where the sum of the costs of all links
    /// of the graph, taken once more than the restrictions have ids, is at most 2^63 - 1.
    /// `NoMemory` may come at any call. Work, not proved: the links of each state, and a sort of them all.
    pub fn make(
        alloc: Global,
        graph: &'a G,
        turns: &'a Turns,
    ) -> Result<TurnGraph<'a, G, RowGraph>, NoMemory>
        requires { most_states (G.count graph.now) (G.outs graph.now) (G.ins graph.now) turns.now < 2 ^ 32 }
        ensures graph { IfOk result (λ turned. graph_of turned ≡ graph.now) }
        ensures restrictions { IfOk result (λ turned. restrictions_of turned ≡ turns.now) }
        ensures few { IfOk result (λ turned. ⟦<TurnGraph<'a, G, RowGraph> as Graph>⟧.count turned
            ≤ most_states (G.count graph.now) (G.outs graph.now) (G.ins graph.now) turns.now) }
        ensures states { IfOk result (λ turned. IsTurned (G.count graph.now) (G.ins graph.now) turns.now (⟦<TurnGraph<'a, G, RowGraph> as Graph>⟧.count turned)
            (vertex_at G.Graph turned) (front_at G.Graph turned) (LinksOf ⟦<TurnGraph<'a, G, RowGraph> as Graph>⟧ turned)) }
        ensures fits { IfOk result (λ turned. elements turns.now ≡ 0 → Fits (LinksOf G.Graph graph.now) → Fits (LinksOf ⟦<TurnGraph<'a, G, RowGraph> as Graph>⟧ turned)) }
        ensures costs { IfOk result (λ turned. (links : List (LinkOf ℕ)) → ((link : LinkOf ℕ) → LinksOf G.Graph graph.now link → Contains links link)
            → cost_of links * (1 + elements turns.now) ≤ greatest → Fits (LinksOf ⟦<TurnGraph<'a, G, RowGraph> as Graph>⟧ turned)) }
    {
        let (trie, backs) = turns.parts();
        let heads = heads_of(alloc, graph)?;
        let states = states_of(alloc, graph, trie, backs, heads.as_slice())?;
        let all = states.as_slice();
        let moved = moved_graph(alloc, graph, trie, backs, all)?;
        Ok(TurnGraph {
            graph,
            turns,
            trie,
            states,
            moved,
        })
    }
}

impl<'a, G: Graph, M: Graph> TurnGraph<'a, G, M> {
    ghost use Rattle.pgr_turns.specs.Seen.{graph_of, vertex_at, front_at};

    /// The state of a vertex with no front.
    ///
    /// It needs a vertex below the size of the graph beneath.
    pub fn state_of(&self, v: u32) -> u32
        requires { v < G.count (graph_of self.now) }
        ensures below { result < ⟦<TurnGraph<'a, G, M> as Graph>⟧.count self.now }
        ensures vertex { vertex_at G.Graph self.now result ≡ v }
        ensures front { front_at G.Graph self.now result ≡ [] }
    {
        v
    }

    /// The vertex of a state.
    ///
    /// It needs a state below the number of states.
    pub fn vertex_of(&self, state: u32) -> u32
        requires { state < ⟦<TurnGraph<'a, G, M> as Graph>⟧.count self.now }
        ensures below { result < G.count (graph_of self.now) }
        ensures vertex { result ≡ vertex_at G.Graph self.now state }
    {
        state_of_number(self.graph.size(), self.states.as_slice(), state).vertex
    }
}

impl<G: Graph, M: Graph> Graph for TurnGraph<'_, G, M> {
    ghost count = { λ turned. M.count turned.moved };

    ghost outs = { λ turned v. M.outs turned.moved v };

    ghost ins = { λ turned v. M.ins turned.moved v };

    fn size(&self) -> u32 {
        self.moved.size()
    }

    fn each_out<V: LinkVisitor>(&self, v: u32, visitor: &mut V) {
        self.moved.each_out(v, visitor);
    }

    fn each_in<V: LinkVisitor>(&self, v: u32, visitor: &mut V) {
        self.moved.each_in(v, visitor);
    }

    ghost lawful = { λ turned. M.lawful turned.moved };
}
