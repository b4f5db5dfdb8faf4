use std::cmp::Ordering;

/// One direction of an edge, from a vertex to a vertex, with its cost.
///
/// Links are compared by where they begin, then by edge, cost and where they lead. The vertices are
/// vertex ids as a table has them, or vertex numbers as engines have them.
#[derive(Clone, Copy, Debug)]
pub struct LinkOf<V> {
    /// Where the link begins.
    pub from: V,
    // It stands beside `from`, though it is compared last, so that two vertex numbers fill one word.
    /// Where it leads.
    pub to: V,
    /// The id of its edge.
    pub edge: i64,
    /// What it costs.
    pub cost: u64,
}

/// A link between vertex numbers.
pub type Link = LinkOf<u32>;

/// A link between vertex ids.
pub type NamedLink = LinkOf<i64>;

impl<V: PartialEq> PartialEq for LinkOf<V> {
    ghost use Rattle.pgr_walks.specs.Link.{link_eq};
    ghost use Rattle.pgr_walks.specs.LinkOrders.{link_per};

    ghost eq = { link_eq V.eq };

    ghost laws = { link_per V.laws };

    fn eq(&self, other: &LinkOf<V>) -> bool {
        self.from == other.from
            && self.edge == other.edge
            && self.cost == other.cost
            && self.to == other.to
    }
}

impl<V: Eq> Eq for LinkOf<V> {
    ghost use Rattle.pgr_walks.specs.LinkOrders.{link_equiv};

    ghost laws = { link_equiv V.Eq.laws };
}

impl<V: Ord> PartialOrd for LinkOf<V> {
    ghost use Rattle.std.specs.Ordering.{as_partial_cmp};
    ghost use Rattle.std.specs.Prelude.{refl};
    ghost use Rattle.std.specs.Cmp.{partial_order_from_agreeing_total};
    ghost use Rattle.pgr_walks.specs.Link.{link_cmp};
    ghost use Rattle.pgr_walks.specs.LinkOrders.{link_total, link_ties};

    ghost partial_cmp = { as_partial_cmp (link_cmp V.cmp) };

    ghost laws = { partial_order_from_agreeing_total (link_cmp V.cmp) (link_total V.cmp V.total) (λ a b. refl) (link_ties V.cmp V.matches_eq) };

    fn partial_cmp(&self, other: &LinkOf<V>) -> Option<Ordering> {
        Some(self.cmp(other))
    }
}

impl<V: Ord> Ord for LinkOf<V> {
    ghost use Rattle.std.specs.Prelude.{refl};
    ghost use Rattle.pgr_walks.specs.Link.{link_cmp};
    ghost use Rattle.pgr_walks.specs.LinkOrders.{link_total, link_ties};

    ghost cmp = { link_cmp V.cmp };

    ghost total = { link_total V.cmp V.total };

    ghost matches_partial_cmp = { λ a b. refl };

    ghost matches_eq = { link_ties V.cmp V.matches_eq };

    fn cmp(&self, other: &LinkOf<V>) -> Ordering {
        let found = self.from.cmp(&other.from);
        if found.is_ne() {
            return found;
        }
        let found = self.edge.cmp(&other.edge);
        if found.is_ne() {
            return found;
        }
        let found = self.cost.cmp(&other.cost);
        if found.is_ne() {
            return found;
        }
        self.to.cmp(&other.to)
    }
}
