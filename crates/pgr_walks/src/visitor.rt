ghost use Rattle.std.specs.Prelude.{◌≡◌};
ghost use Rattle.pgr_walks.specs.declared.link.LinkOf.{LinkOf};
ghost use Rattle.pgr_walks.specs.declared.visitor.Next.{Next};
ghost use Rattle.std.specs.Prelude.{ℕ};

use crate::link::Link;

/// Whether to go on to the next link.
#[derive(Clone, Copy, Debug, PartialEq, Eq)]
pub enum Next {
    /// On to the next link.
    Go,
    /// No more links.
    Stop,
}

/// What is shown a vertex's links, one after another, and may stop.
///
/// A visitor states its meaning after a link, and its answer, as functions of its meaning before and the
/// link; and where it may be shown a link at all, as room for one more.
pub trait LinkVisitor {
    /// What the visitor has seen, as far as contracts speak of it.
    ghost Meaning: { Type 0 };

    /// The meaning of a visitor.
    ghost meaning: { Self → Meaning };

    /// The meaning after a link.
    ghost after: { Meaning → LinkOf ℕ → Meaning };

    /// The answer at a link.
    ghost answer: { Meaning → LinkOf ℕ → Next };

    /// The visitor may be shown the link.
    ghost ready: { Meaning → LinkOf ℕ → Type 0 };

    /// Shows the visitor a link. It takes no memory.
    fn see(&mut self, link: Link) -> Next
        requires { ready (meaning self.old) link }
        ensures meaning { meaning self.new ≡ after (meaning self.old) link }
        ensures answer { result ≡ answer (meaning self.old) link };
}
