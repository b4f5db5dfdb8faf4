ghost use Rattle.std.specs.Prelude.{◌≡◌, ◌^◌, ◌<◌, ◌++◌, List, ℤ, length, map, All, IfOk};
ghost use Rattle.std.specs.List.{flat_map};
ghost use Rattle.std.specs.List.Sorted.{IsNonDecreasingBy, IsPermutation};
ghost use Rattle.pgr_numbers.specs.Names.{AreNumbered};
ghost use Rattle.pgr_spans.specs.Lists.{AreEndsOf};
ghost use Rattle.pgr_spans.specs.Network.{link_of, both_ways, AreArrows};

use crate::arrow::Arrow;
use crate::span::Span;
use pgr_numbers::Names;
use pgr_outside::NoMemory;
use pgr_walks::{Link, NamedLink};
use std::alloc::Global;

/// Spans by the places of their ends among the rising ids of all ends.
#[derive(Drop)]
pub(crate) struct Network {
    /// The ids of all ends, each once and rising.
    pub names: Names,
    /// A link from the one end to the other for each span, in the order of the spans.
    pub links: Vec<Link>,
    /// The links both ways, by where they lead from.
    pub arrows: Vec<Arrow>,
}

impl Network {
    /// The network of some spans.
    ///
    /// `NoMemory` may come at any call.
    pub fn of(alloc: Global, spans: &[Span]) -> Result<Network, NoMemory>
        requires { (ends : List ℤ) → AreEndsOf spans.now ends → length ends < 2 ^ 32 }
        ensures links { IfOk result (λ network. AreNumbered network.names (map link_of spans.now) network.links.items) }
        ensures arrows { IfOk result (λ network. AreArrows (length network.names) network.links.items network.arrows.items) }
    {
        let named = links_of(alloc, spans)?;
        let names = Names::of(alloc, named.as_slice())?;
        let links = names.numbered(named.as_slice())?;
        let arrows = arrows_of(alloc, names.len(), links.as_slice())?;
        Ok(Network {
            names,
            links,
            arrows,
        })
    }
}

/// A link for each span, in order.
fn links_of(alloc: Global, spans: &[Span]) -> Result<Vec<NamedLink>, NoMemory>
    ensures { IfOk result (λ links. links.items ≡ map link_of spans.now) }
{
    let mut links = Vec::with_capacity(alloc, spans.len()).map_err(|_| NoMemory)?;
    for span in spans {
        links
            .push(NamedLink {
                from: span.a,
                edge: span.edge,
                cost: 0,
                to: span.b,
            })
            .map_err(|_| NoMemory)?;
    }
    Ok(links)
}

/// The links both ways, by where they lead from.
fn arrows_of(alloc: Global, size: u32, links: &[Link]) -> Result<Vec<Arrow>, NoMemory>
    requires { All (λ link. (link.from < size) × (link.to < size)) links.now }
    ensures { IfOk result (λ arrows. AreArrows size links.now arrows.items) }
{
    let mut arrows = turned_both_ways(alloc, links)?;
    arrows.sort_unstable_by_key(|arrow| arrow.from);
    Ok(arrows)
}

/// Each link from its start to its end, and back.
fn turned_both_ways(alloc: Global, links: &[Link]) -> Result<Vec<Arrow>, NoMemory>
    ensures { IfOk result (λ arrows. arrows.items ≡ flat_map both_ways links.now) }
{
    let mut arrows = Vec::new(alloc);
    for link in links {
        let there = Arrow {
            from: link.from,
            to: link.to,
        };
        let back = Arrow {
            from: link.to,
            to: link.from,
        };
        arrows
            .extend_from_slice(&[there, back])
            .map_err(|_| NoMemory)?;
    }
    Ok(arrows)
}
