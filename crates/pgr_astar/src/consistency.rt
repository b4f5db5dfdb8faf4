ghost use Rattle.std.specs.Prelude.{◌≡◌, ℕ, ◌<◌, length, Contains, IfSome, IfNone};
ghost use Rattle.std.specs.Ordering.{nat_cmp};
ghost use Rattle.pgr_walks.specs.declared.link.LinkOf.{LinkOf};
ghost use Rattle.pgr_walks.specs.LinksOf.{LinksOf};
ghost use Rattle.pgr_search.specs.Estimates.{IsConsistent};
ghost use Rattle.pgr_astar.specs.Breaking.{value_at, Breaks, IsFirstBreaking};
ghost use Rattle.pgr_astar.specs.Checking.{breaks};

use crate::potential::Potential;
use pgr_walks::{Graph, Link, LinkVisitor, Next};

/// The first link of a graph that breaks an estimate, by where links begin, then edge, cost and where they lead, or none
/// where the estimate is consistent.
///
/// A link breaks an estimate that rises along it by more than the link costs. The estimate has as many vertices as the
/// graph, which need not fit. All links are looked at, also those that no walk from the start comes to. It takes no memory.
pub fn first_inconsistent<G: Graph>(g: &G, p: &Potential) -> Option<Link>
    requires { length p.now ≡ G.count g.now }
    ensures first { IfSome result (IsFirstBreaking nat_cmp (LinksOf G.Graph g.now) (Breaks (value_at p.now))) }
    ensures none { IfNone result (IsConsistent (LinksOf G.Graph g.now) (value_at p.now)) }
{
    for v in 0..g.size() {
        if let Some(link) = first_from(g, v, p) {
            return Some(link);
        }
    }
    None
}

/// The first link out of a vertex that breaks an estimate, or none where none does.
fn first_from<G: Graph>(g: &G, v: u32, p: &Potential) -> Option<Link>
    requires vertex { v < G.count g.now }
    requires size { length p.now ≡ G.count g.now }
    ensures first { IfSome result (IsFirstBreaking nat_cmp (Contains (G.outs g.now v)) (Breaks (value_at p.now))) }
    ensures none { IfNone result ((link : LinkOf ℕ) → Contains (G.outs g.now v) link → Breaks (value_at p.now) link → ⊥) }
{
    let mut checker = Checker {
        potential: p,
        found: None,
    };
    g.each_out(v, &mut checker);
    checker.found
}

/// Looks for a link that breaks an estimate.
#[derive(Drop)]
struct Checker<'a> {
    potential: &'a Potential,
    found: Option<Link>,
}

impl LinkVisitor for Checker<'_> {
    ghost use Rattle.pgr_astar.specs.Checking.{Check, check, check_on, MayBeChecked};

    ghost Meaning = { Check };

    ghost meaning = { λ c. record { values = c.potential.now; found = c.found } };

    ghost after = { check };

    ghost answer = { check_on };

    ghost ready = { MayBeChecked };

    fn see(&mut self, link: Link) -> Next {
        if is_broken_by(self.potential, link) {
            self.found = Some(link);
            return Next::Stop;
        }
        Next::Go
    }
}

/// Whether a link breaks an estimate.
fn is_broken_by(p: &Potential, link: Link) -> bool
    requires from { link.from < length p.now }
    requires to { link.to < length p.now }
    ensures { result ≡ breaks p.now link }
{
    p.value(link.from) + u128::from(link.cost) < p.value(link.to)
}
