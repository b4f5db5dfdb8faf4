ghost use Rattle.std.specs.Prelude.{◌≡◌, ℕ, ◌+◌, ◌*◌, ◌≤◌};
ghost use Rattle.pgr_walks.specs.declared.link.LinkOf.{LinkOf};
ghost use Rattle.pgr_walks.specs.LinksOf.{LinksOf};
ghost use Rattle.pgr_turns.specs.Trie.{elements};
ghost use Rattle.pgr_turns.specs.MostStates.{most_states, HasSameEnds};

use crate::turns::Turns;
use pgr_walks::Graph;

/// Where all links of one edge have the same two ends, there are at most twice as many states besides the vertices as
/// the restrictions have ids.
///
/// A law; the call changes nothing. So it is over the links of a table: a row has one source and one target.
pub fn edges_with_two_ends_have_few_states<G: Graph>(graph: &G, turns: &Turns)
    ensures { ((link other : LinkOf ℕ) → LinksOf G.Graph graph.now link → LinksOf G.Graph graph.now other → link.edge ≡ other.edge → HasSameEnds link other)
        → most_states (G.count graph.now) (G.outs graph.now) (G.ins graph.now) turns.now ≤ G.count graph.now + 2 * elements turns.now }
{
    let _size = graph.size();
    let _parts = turns.parts();
}
