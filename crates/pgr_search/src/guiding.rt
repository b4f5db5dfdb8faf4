use crate::estimate::Estimate;
use crate::heap::Heap;
use crate::settled::Settled;
use pgr_walks::{Label, Link, LinkVisitor, Next};

/// The cost of a walk's label and the estimate of its vertex together, and its hops, compared in this order.
#[derive(Clone, Copy, PartialEq, Eq, PartialOrd, Ord)]
pub struct Key {
    /// The cost and the estimate.
    pub cost: u128,
    /// The hops.
    pub hops: u32,
}

/// Relaxes the links that it is shown, with estimates: those into a vertex of this label, which is settled.
#[derive(Drop)]
pub struct Guiding<'a, E> {
    /// The labels of settled vertices.
    pub settled: &'a Settled,
    /// The keys of waiting vertices.
    pub keys: &'a mut Heap<Key>,
    /// The estimate of each vertex.
    pub estimate: &'a E,
    /// The label of the vertex that the links lead to.
    pub label: Label,
}

impl<E: Estimate> LinkVisitor for Guiding<'_, E> {
    ghost use Rattle.pgr_walks.specs.declared.visitor.Next.TheVariants.{Go};
    ghost use Rattle.pgr_search.specs.Guiding.{Guidance, guidance_after, IsGuided};

    ghost Meaning = { Guidance };

    ghost meaning = { λ guiding. record {
      reference = guiding.keys.ghost_name;
      settled = guiding.settled.now;
      keys = guiding.keys.now;
      size = E.count guiding.estimate.now;
      values = E.values guiding.estimate.now;
      label = guiding.label;
    } };

    ghost after = { guidance_after };

    ghost answer = { λ _ _. Go };

    ghost ready = { IsGuided };

    fn see(&mut self, link: Link) -> Next {
        if self.settled.label(link.from).is_none() {
            let cost = self.label.cost + link.cost;
            let key = Key {
                cost: u128::from(cost) + self.estimate.value(link.from),
                hops: self.label.hops + 1,
            };
            self.keys.lower(link.from, key);
        }
        Next::Go
    }
}
