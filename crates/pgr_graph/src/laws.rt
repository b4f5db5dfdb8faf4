ghost use Rattle.std.specs.Prelude.{◌≡◌, ◌↔◌, ℕ, ◌<◌, ℤ, Bool, List, All, Contains, map};
ghost use Rattle.std.specs.Ordering.{nat_cmp, int_cmp};
ghost use Rattle.pgr_outside.specs.Lists.{IsWithoutRepeats};
ghost use Rattle.pgr_walks.specs.declared.link.LinkOf.{LinkOf};
ghost use Rattle.pgr_walks.specs.Link.{arc_cmp};
ghost use Rattle.pgr_walks.specs.Graph.{Fits, IsStrictlyRising};
ghost use Rattle.pgr_walks.specs.Walk.{cost_of};
ghost use Rattle.pgr_walks.specs.ListGraph.{HasEndsBelow};
ghost use Rattle.pgr_graph.specs.Links.{IsLinkOfTable};
ghost use Rattle.pgr_graph.specs.Arcs.{IsArcOfTable, AreNetworkArcs, renamed};
ghost use Rattle.pgr_graph.specs.Restricted.{table_cost};

use pgr_table::{CapacityTable, EdgeTable};

/// The links of a table fit: every link and every loopless route costs at most 2^63 - 1.
///
/// A law of the directed graph and of the undirected one; the call changes nothing. A loopless route takes each
/// row at most once, since the two ends of a row are the ends of each of its links, so it costs at most the sum
/// of the table's costs.
pub fn links_fit(table: &EdgeTable)
    ensures { (directed : Bool) → Fits (IsLinkOfTable table.now directed) }
{
    let _rows = table.len();
}

/// The links of a table have one cost: a list that has each of them once, and nothing else, costs their sum by rows.
///
/// A law of the directed graph and of the undirected one; the call changes nothing.
pub fn links_have_one_cost(table: &EdgeTable)
    ensures { (directed : Bool) (links : List (LinkOf ℤ)) → IsWithoutRepeats links
        → ((link : LinkOf ℤ) → Contains links link ↔ IsLinkOfTable table.now directed link)
        → cost_of links ≡ table_cost directed table.now }
{
    let _rows = table.len();
}

/// The arcs of a table make a flow network.
///
/// A law; the call changes nothing. Each arc leads to another vertex, their capacities are positive and have a sum of at most
/// 2^63 - 1, and no two have one edge and the same ends.
pub fn arcs_make_a_network(table: &CapacityTable)
    ensures { (arcs : List (LinkOf ℤ)) → IsStrictlyRising (arc_cmp int_cmp) arcs
        → ((arc : LinkOf ℤ) → Contains arcs arc ↔ IsArcOfTable table.now arc)
        → AreNetworkArcs int_cmp arcs }
{
    let _rows = table.len();
}

/// Arcs between ids that make a flow network make one between the numbers of their ids, where numbers rise with ids.
///
/// A law; the call does nothing.
pub fn numbered_arcs_make_a_network()
    ensures { (size : ℕ) (name : ℕ → ℤ) (arcs : List (LinkOf ℤ)) (numbers : List (LinkOf ℕ))
        → ((m n : ℕ) → m < size → n < size → int_cmp (name m) (name n) ≡ nat_cmp m n)
        → All (HasEndsBelow size) numbers
        → map (renamed name) numbers ≡ arcs
        → AreNetworkArcs int_cmp arcs
        → AreNetworkArcs nat_cmp numbers }
{}
