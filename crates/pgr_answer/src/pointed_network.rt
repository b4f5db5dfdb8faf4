ghost use Rattle.std.specs.Prelude.{◌↔◌, ℤ, Contains, IfOk};
ghost use Rattle.pgr_walks.specs.declared.link.LinkOf.{LinkOf};
ghost use Rattle.pgr_points.specs.Pointed.{IsPointed};
ghost use Rattle.pgr_answer.specs.Networks.{id_links};

use crate::link_network::network_of_links;
use crate::network::Network;
use pgr_outside::{NoMemory, Side};
use pgr_points::{pointed_ends_are_few, pointed_links_fit, with_points};
use pgr_table::{EdgeTable, PointTable};
use pgr_walks::RowGraph;
use std::alloc::Global;

/// The network of the pointed links of a table of edges and a table of points.
///
/// `NoMemory` may come at any call.
pub(crate) fn pointed_network_of(
    alloc: Global,
    edges: &EdgeTable,
    points: &PointTable,
    driving: Side,
    directed: bool,
) -> Result<Network<RowGraph>, NoMemory>
    ensures links { IfOk result (λ network. (link : LinkOf ℤ) → Contains (id_links network) link ↔ IsPointed edges.now points.now driving directed link) }
{
    pointed_links_fit(edges, points);
    pointed_ends_are_few(edges, points);
    let links = with_points(alloc, edges, points, driving, directed)?;
    let network = network_of_links(alloc, links)?;
    Ok(network)
}
