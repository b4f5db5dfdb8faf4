ghost use Rattle.std.specs.Prelude.{◌≡◌, ℕ, List, [], Option, length};
ghost use Rattle.std.specs.Ordering.{nat_cmp};
ghost use Rattle.pgr_walks.specs.declared.link.LinkOf.{LinkOf};
ghost use Rattle.pgr_walks.specs.LinksOf.{LinksOf};
ghost use Rattle.pgr_ksp.specs.Routes.{AreFirst, AreFirstK, MayAnswer, given_after};

use crate::paths::Paths;
use pgr_walks::Graph;

/// The routes that K calls of [`Paths::next`] give, from the first on, are the first K of all loopless routes: what
/// they answer is what the clauses of that call allow, one after another.
///
/// A law; the call does nothing.
pub fn calls_give_the_first_routes<G: Graph>(g: &G)
    ensures { (s t : ℕ) (answers : List (Option (List (LinkOf ℕ))))
        → MayAnswer nat_cmp (LinksOf G.Graph g.now) s t [] answers
        → AreFirstK nat_cmp (LinksOf G.Graph g.now) s t (length answers) (given_after [] answers) }
{}

/// The routes that were given so far are the first of all loopless routes between the two vertices, in order.
///
/// A law; the call does nothing.
pub fn given_routes_are_first<G: Graph>(paths: &Paths<'_, G>)
    ensures { AreFirst nat_cmp (LinksOf G.Graph paths.now.graph) paths.now.s paths.now.t paths.now.given }
{
    paths.open();
}
