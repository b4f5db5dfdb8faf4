ghost use Rattle.std.specs.Prelude.{◌≡◌, ◌≤◌};
ghost use Rattle.pgr_walks.specs.Graph.{greatest};
ghost use Rattle.pgr_walks.specs.Walk.{cost_of};
ghost use Rattle.pgr_route.specs.Chain.{IsChain};

use pgr_walks::Link;
use std::marker::Model;

/// A list of links, each from where the one before it ended, whose costs add up to at most 2^63 - 1.
///
/// It may be empty.
#[derive(Debug, Drop)]
pub struct Route {
    links: Vec<Link>,
}

impl Model for Route {
    ghost use Rattle.std.specs.Prelude.{ℕ, ◌≤◌, List};
    ghost use Rattle.pgr_walks.specs.declared.link.LinkOf.{LinkOf};
    ghost use Rattle.pgr_walks.specs.Graph.{greatest};
    ghost use Rattle.pgr_walks.specs.Walk.{cost_of};
    ghost use Rattle.pgr_route.specs.Chain.{IsChain};

    ghost Value = { List (LinkOf ℕ) };

    ghost view = { λ route. route.links.items };

    ghost invariant = { λ route. IsChain route.links.items × (cost_of route.links.items ≤ greatest) };
}

impl Route {
    /// The route with exactly these links.
    ///
    /// Each link begins where the one before it ended, and the costs add up to at most 2^63 - 1. It takes no memory.
    pub fn of(links: Vec<Link>) -> Route
        requires chain { IsChain links.items }
        requires cost { cost_of links.items ≤ greatest }
        ensures { result ≡ links.items }
    {
        Route { links }
    }

    /// The links, in order.
    pub fn links(&self) -> &[Link]
        ensures links { result.now ≡ self.now }
        ensures chain { IsChain self.now }
        ensures cost { cost_of self.now ≤ greatest }
    {
        self.links.as_slice()
    }

    /// The sum of the links' costs, 0 where there is no link.
    pub fn cost(&self) -> u64
        ensures sum { result ≡ cost_of self.now }
        ensures bound { result ≤ greatest }
    {
        let links = self.links();
        let mut total = 0;
        for link in links {
            total += link.cost;
        }
        total
    }
}
