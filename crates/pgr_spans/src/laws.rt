ghost use Rattle.std.specs.Prelude.{◌≡◌, ◌↔◌, ◌*◌, ◌^◌, ◌<◌, ◌≤◌, List, ℤ, Contains, length};
ghost use Rattle.pgr_spans.specs.Block.{InOneBlock};
ghost use Rattle.pgr_spans.specs.Lists.{HaveRisingEdges, AreEndsOf, AreClasses};
ghost use Rattle.pgr_spans.specs.declared.span.Span.{Span as ASpan};
ghost use Rattle.pgr_spans.specs.declared.classed.Classed.{Classed};

use crate::span::Span;

/// Spans have at most twice as many ends: fewer than 2^32 where there are fewer than 2^31 spans.
///
/// A law; the call does nothing.
pub fn ends_are_few(spans: &[Span])
    ensures twice { (ends : List ℤ) → AreEndsOf spans.now ends → length ends ≤ 2 * length spans.now }
    ensures few { length spans.now < 2 ^ 31 → (ends : List ℤ) → AreEndsOf spans.now ends → length ends < 2 ^ 32 }
{}

/// Two spans have the same component in the list of classes exactly where they are in one block.
///
/// A law; the call does nothing.
pub fn spans_of_one_block_have_one_name(spans: &[Span])
    ensures { HaveRisingEdges spans.now
        → (classes : List Classed) (s t : ASpan) (c d : Classed)
        → AreClasses spans.now classes
        → Contains spans.now s
        → Contains spans.now t
        → Contains classes c
        → Contains classes d
        → c.edge ≡ s.edge
        → d.edge ≡ t.edge
        → (c.component ≡ d.component) ↔ InOneBlock spans.now s t }
{}
