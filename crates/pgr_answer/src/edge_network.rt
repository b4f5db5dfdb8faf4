ghost use Rattle.std.specs.Prelude.{◌↔◌, ◌<◌, ◌^◌, ℤ, length, Contains, IfOk};
ghost use Rattle.pgr_walks.specs.declared.link.LinkOf.{LinkOf};
ghost use Rattle.pgr_graph.specs.Links.{IsLinkOfTable};
ghost use Rattle.pgr_answer.specs.Networks.{id_links};

use crate::link_network::network_of_source;
use crate::network::Network;
use pgr_graph::{LinksByRow, links_fit};
use pgr_numbers::names_of_source_are_few;
use pgr_outside::NoMemory;
use pgr_table::EdgeTable;
use pgr_walks::RowGraph;
use std::alloc::Global;

/// The network of the links of a table, in the directed graph or the undirected one.
///
/// `NoMemory` may come at any call.
pub(crate) fn network_of(
    alloc: Global,
    edges: &EdgeTable,
    directed: bool,
) -> Result<Network<RowGraph>, NoMemory>
    ensures links { IfOk result (λ network. (link : LinkOf ℤ) → Contains (id_links network) link ↔ IsLinkOfTable edges.now directed link) }
    ensures few { IfOk result (λ network. length network.names < 2 ^ 31) }
{
    // From this call it is known that a table has few enough rows for its names to be numbered.
    let _rows = edges.len();
    links_fit(edges);
    let source = LinksByRow::of(edges, directed);
    names_of_source_are_few(&source);
    let network = network_of_source(alloc, &source)?;
    Ok(network)
}
