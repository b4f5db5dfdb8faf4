ghost use Rattle.std.specs.Prelude.{◌≡◌, length, All};
ghost use Rattle.std.specs.Ordering.{int_cmp};
ghost use Rattle.pgr_outside.specs.Lists.{IsStrictlyRising, IsWithoutRepeats};
ghost use Rattle.pgr_walks.specs.Graph.{Fits};
ghost use Rattle.pgr_walks.specs.LinksOf.{LinksOf};
ghost use Rattle.pgr_answer.specs.NamedLinks.{named_links, IsEndOf, LeadToVertices};

use pgr_numbers::Names;
use pgr_walks::Graph;

/// A graph of links between numbers, with the ids that its numbers stand for: together they give links between ids.
///
/// No list of the links between ids is kept, since no code reads one. The ids rise and are exactly the ends of these links;
/// no link stands twice, and the graph fits.
#[derive(Drop)]
pub(crate) struct Network<G: Graph> {
    /// The ids of the vertices, each by its number.
    pub names: Names,
    /// The graph of the links between numbers.
    pub graph: G,
    ghost rise: { IsStrictlyRising int_cmp names },
    ghost size_is: { G.count graph ≡ length names },
    ghost lead: { LeadToVertices (G.count graph) (G.ins graph) },
    ghost ends: { All (IsEndOf (named_links names (G.count graph) (G.ins graph))) names },
    ghost once: { IsWithoutRepeats (named_links names (G.count graph) (G.ins graph)) },
    ghost fits: { Fits (LinksOf G.Graph graph) },
}
