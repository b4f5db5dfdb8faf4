ghost use Rattle.std.specs.Prelude.{◌≡◌, ℕ, ◌<◌, List};
ghost use Rattle.pgr_walks.specs.declared.link.LinkOf.{LinkOf};
ghost use Rattle.pgr_walks.specs.Visit.{shown, Admits};
ghost use Rattle.pgr_walks.specs.Graph.{IsLawful};

use crate::visitor::LinkVisitor;

/// A graph of links between the vertex numbers below its size.
///
/// Its meanings are the number of its vertices, and for each vertex the links out of it, rising by edge,
/// cost and where they lead, and the links into it, rising by edge, cost and where they begin. Nothing is
/// said of a number from the size on. No call takes memory.
pub trait Graph {
    /// The number of vertices.
    ghost count: { Self → ℕ };

    /// The links out of a vertex.
    ghost outs: { Self → ℕ → List (LinkOf ℕ) };

    /// The links into a vertex.
    ghost ins: { Self → ℕ → List (LinkOf ℕ) };

    /// The number of vertices.
    fn size(&self) -> u32
        ensures { result ≡ count self.now };

    /// Shows the visitor the links out of `v`, in order, up to and with the first at which it answers stop.
    ///
    /// It needs a vertex below the size, and that the visitor may be shown each of these links, with the
    /// meaning that it has after those before.
    fn each_out<V: LinkVisitor>(&self, v: u32, visitor: &mut V)
        requires vertex { v < count self.now }
        requires ready { Admits V.after V.answer V.ready (V.meaning visitor.old) (outs self.now v) }
        ensures { V.meaning visitor.new ≡ shown V.after V.answer (V.meaning visitor.old) (outs self.now v) };

    /// Shows the visitor the links into `v`, as `each_out` those out of it.
    fn each_in<V: LinkVisitor>(&self, v: u32, visitor: &mut V)
        requires vertex { v < count self.now }
        requires ready { Admits V.after V.answer V.ready (V.meaning visitor.old) (ins self.now v) }
        ensures { V.meaning visitor.new ≡ shown V.after V.answer (V.meaning visitor.old) (ins self.now v) };

    /// The laws of every graph.
    ghost lawful: { (g : Self) → IsLawful (count g) (outs g) (ins g) };
}
