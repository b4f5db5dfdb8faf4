use crate::heap::Heap;
use crate::settled::Settled;
use pgr_walks::{Label, Link, LinkVisitor, Next};

/// Relaxes the links that it is shown: those into a vertex of this label, which is settled.
#[derive(Drop)]
pub struct Relaxing<'a> {
    /// The labels of settled vertices.
    pub settled: &'a Settled,
    /// The labels of waiting vertices.
    pub waiting: &'a mut Heap<Label>,
    /// The label of the vertex that the links lead to.
    pub label: Label,
}

impl LinkVisitor for Relaxing<'_> {
    ghost use Rattle.pgr_walks.specs.declared.visitor.Next.TheVariants.{Go};
    ghost use Rattle.pgr_search.specs.Relaxing.{Relaxation, relaxation_after, IsReady};

    ghost Meaning = { Relaxation };

    ghost meaning = { λ relaxing. record {
      reference = relaxing.waiting.ghost_name;
      settled = relaxing.settled.now;
      waiting = relaxing.waiting.now;
      label = relaxing.label;
    } };

    ghost after = { relaxation_after };

    ghost answer = { λ _ _. Go };

    ghost ready = { IsReady };

    fn see(&mut self, link: Link) -> Next {
        let label = Label {
            cost: self.label.cost + link.cost,
            hops: self.label.hops + 1,
        };
        if self.settled.label(link.from).is_none() {
            self.waiting.lower(link.from, label);
        }
        Next::Go
    }
}
