ghost use Rattle.std.specs.Prelude.{◌≡◌, ◌↔◌, ℕ, ◌<◌, ◌^◌, ℤ, List, length, map, Contains, IfOk};
ghost use Rattle.pgr_outside.specs.Lists.{IsWithoutRepeats};
ghost use Rattle.pgr_walks.specs.declared.link.LinkOf.{LinkOf};
ghost use Rattle.pgr_walks.specs.Graph.{Fits};
ghost use Rattle.pgr_numbers.specs.Names.{AreEnds, AreNumbered, named};
ghost use Rattle.pgr_numbers.specs.Slots.{links_in};
ghost use Rattle.pgr_answer.specs.NamedLinks.{all_links, LeadToVertices};
ghost use Rattle.pgr_answer.specs.Networks.{id_links};

use crate::network::Network;
use pgr_numbers::{LinkSource, Names, graph_of_numbered_links_fits, numbered_links_fit};
use pgr_outside::NoMemory;
use pgr_walks::{Graph, Link, NamedLink, RowGraph};
use std::alloc::Global;

/// The network of some links between ids.
///
/// Their list is given back before the graph takes more than the list of the numbered links. `NoMemory` may come at any call.
pub(crate) fn network_of_links(
    alloc: Global,
    links: Vec<NamedLink>,
) -> Result<Network<RowGraph>, NoMemory>
    requires few { (names : List ℤ) → AreEnds links.items names → length names < 2 ^ 32 }
    requires once { IsWithoutRepeats links.items }
    requires fits { Fits (Contains links.items) }
    ensures ends { IfOk result (λ network. AreEnds links.items network.names) }
    ensures links { IfOk result (λ network. (link : LinkOf ℤ) → Contains (id_links network) link ↔ Contains links.items link) }
{
    let (names, numbered) = numbered_by_names(alloc, links)?;
    network_of_numbers(alloc, names, numbered)
}

/// The network of the links of a source, which are read one at a time, with no list of them.
///
/// `NoMemory` may come at any call.
pub(crate) fn network_of_source<S: LinkSource>(
    alloc: Global,
    source: &S,
) -> Result<Network<RowGraph>, NoMemory>
    requires few { (names : List ℤ) → AreEnds (links_in (S.slots source.now)) names → length names < 2 ^ 32 }
    requires once { IsWithoutRepeats (links_in (S.slots source.now)) }
    requires fits { Fits (Contains (links_in (S.slots source.now))) }
    ensures ends { IfOk result (λ network. AreEnds (links_in (S.slots source.now)) network.names) }
    ensures links { IfOk result (λ network. (link : LinkOf ℤ)
        → Contains (id_links network) link ↔ Contains (links_in (S.slots source.now)) link) }
{
    let names = Names::of_source(alloc, source)?;
    let numbered = names.numbered_source(source)?;
    network_of_numbers(alloc, names, numbered)
}

/// The network of some links between numbers, whose names are exactly the ids of their ends.
///
/// `NoMemory` may come at any call.
fn network_of_numbers(
    alloc: Global,
    names: Names,
    numbered: Vec<Link>,
) -> Result<Network<RowGraph>, NoMemory>
    requires numbered { AreNumbered names (map (named names) numbered.items) numbered.items }
    requires ends { AreEnds (map (named names) numbered.items) names }
    requires once { IsWithoutRepeats (map (named names) numbered.items) }
    requires fits { Fits (Contains (map (named names) numbered.items)) }
    ensures names { IfOk result (λ network. network.names ≡ names) }
    ensures links { IfOk result (λ network. (link : LinkOf ℤ)
        → Contains (id_links network) link ↔ Contains (map (named names) numbered.items) link) }
{
    numbered_links_fit();
    let graph = RowGraph::from_links(alloc, names.len(), numbered)?;
    graph_of_numbered_links_fits(&graph);
    links_lead_to_their_vertices(&graph);
    Ok(Network { names, graph })
}

/// The names of the ends of links, and the links between their numbers.
///
/// The list of the links is given back. `NoMemory` may come at any call.
fn numbered_by_names(alloc: Global, links: Vec<NamedLink>) -> Result<(Names, Vec<Link>), NoMemory>
    requires few { (names : List ℤ) → AreEnds links.items names → length names < 2 ^ 32 }
    ensures ends { IfOk result (λ found. AreEnds links.items found.0) }
    ensures numbered { IfOk result (λ found. AreNumbered found.0 links.items found.1.items) }
{
    let names = Names::of(alloc, links.as_slice())?;
    let numbered = names.numbered(links.as_slice())?;
    Ok((names, numbered))
}

/// Each link into a vertex of a graph leads to it from a vertex, and no link stands twice among them all.
///
/// A law; the call does nothing.
fn links_lead_to_their_vertices<G: Graph>(g: &G)
    ensures lead { LeadToVertices (G.count g.now) (G.ins g.now) }
    ensures once { IsWithoutRepeats (all_links (G.count g.now) (G.ins g.now)) }
{}
