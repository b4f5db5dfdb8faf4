ghost use Rattle.std.specs.Prelude.{◌<◌, ◌^◌, List, ℤ, length, IfOk};
ghost use Rattle.pgr_spans.specs.Lists.{HaveRisingEdges, AreEndsOf, AreClasses, ArePoints, AreBridges};

use crate::classed::Classed;
use crate::member::members_of;
use crate::network::Network;
use crate::results::{bridges_of, classes_of, corners, points_of};
use crate::search::depth_first;
use crate::seen::gather;
use crate::segment::segments_of;
use crate::span::Span;
use pgr_outside::NoMemory;
use std::alloc::Global;

/// The blocks, the articulation points and the bridges of some spans.
#[derive(Debug, Drop)]
pub struct BlockLists {
    /// The edge of each span with the least edge id of its block, by that id and then by edge.
    pub classes: Vec<Classed>,
    /// The articulation points, each once and rising.
    pub points: Vec<i64>,
    /// The edges of the bridges, rising.
    pub bridges: Vec<i64>,
}

/// Each span with the name of its block, the articulation points and the bridges.
///
/// Two spans are in one block where no vertex separates them: where they are equal, or where for each vertex some list
/// of spans leads from the one to the other in which each two neighbours share an end other than this vertex. A block is
/// named by its least edge id. An articulation point is a vertex without which two other vertices are no longer joined
/// that the spans join, and a bridge is a span without which its own ends are no longer joined.
///
/// The edges of the spans rise strictly, and they have fewer than 2^32 distinct ends. A self loop is a block of its own
/// and no bridge, parallel spans are in one block and no bridges, and the end of a single span is no articulation point.
/// `NoMemory` may come at any call.
/// Source: Hopcroft and Tarjan 1973, in the form of separation. Work, not proved: two sorts, and passes without recursion.
pub fn blocks(alloc: Global, spans: &[Span]) -> Result<BlockLists, NoMemory>
    requires edges { HaveRisingEdges spans.now }
    requires few { (ends : List ℤ) → AreEndsOf spans.now ends → length ends < 2 ^ 32 }
    ensures classes { IfOk result (λ lists. AreClasses spans.now lists.classes.items) }
    ensures points { IfOk result (λ lists. ArePoints spans.now lists.points.items) }
    ensures bridges { IfOk result (λ lists. AreBridges spans.now lists.bridges.items) }
{
    let network = Network::of(alloc, spans)?;
    let search = depth_first(alloc, network.names.len(), network.arrows.as_slice())?;
    let segments = segments_of(alloc, network.links.as_slice(), search.numbers.as_slice())?;
    let members = members_of(alloc, search.parents.as_slice(), segments.as_slice())?;
    let corners = corners(alloc, members.as_slice())?;
    let found = gather(alloc, network.names.len() as usize, corners.as_slice())?;
    let classes = classes_of(alloc, members.as_slice())?;
    let points = points_of(alloc, &network.names, found.as_slice())?;
    let bridges = bridges_of(alloc, members.as_slice())?;
    Ok(BlockLists {
        classes,
        points,
        bridges,
    })
}
