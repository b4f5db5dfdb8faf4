ghost use Rattle.std.specs.Prelude.{◌≡◌, ◌<◌, ◌↔◌, All, Contains, IsTrue, IfOk, IfSome, IfNone};
ghost use Rattle.std.specs.Ordering.{nat_cmp};
ghost use Rattle.pgr_outside.specs.Lists.{IsStrictlyRising};
ghost use Rattle.pgr_answer.specs.Flows.{AreArcsOf};
ghost use Rattle.pgr_answer.specs.FlowNetworks.{IsFlowNetwork, IsCommon, IsGreatestFlowCut};

use crate::driving_distance::roots_of;
use pgr_flow::{FlowCut, Net, greatest_flow};
use pgr_graph::{arcs_make_a_network, arcs_of, numbered_arcs_make_a_network};
use pgr_numbers::{Names, names_are_few, numbers_rise_with_ids};
use pgr_outside::NoMemory;
use pgr_table::CapacityTable;
use pgr_walks::NamedLink;
use std::alloc::Global;

/// Arcs between ids, the network between the numbers of their ends, and its sources and sinks.
#[derive(Drop)]
pub(crate) struct FlowNetwork {
    /// The arcs between ids, each with its capacity as its cost.
    pub arcs: Vec<NamedLink>,
    /// Their ends, each by its number.
    pub names: Names,
    /// The network of the arcs between numbers, in the same order.
    pub net: Net,
    /// The numbers of the starts that are vertices, each once and rising.
    pub sources: Vec<u32>,
    /// The numbers of the ends that are vertices, each once and rising.
    pub sinks: Vec<u32>,
}

/// The network of the arcs of a table, from the starts to the ends that are vertices in it.
///
/// `NoMemory` may come at any call.
pub(crate) fn flow_network_of(
    alloc: Global,
    capacities: &CapacityTable,
    starts: &[i64],
    ends: &[i64],
) -> Result<FlowNetwork, NoMemory>
    ensures arcs { IfOk result (λ network. AreArcsOf capacities.now network.arcs.items) }
    ensures network { IfOk result (λ network. IsFlowNetwork network.arcs.items network.names network.net
        starts.now ends.now network.sources.items network.sinks.items) }
{
    // From this call it is known that a table has few enough rows for its names to be numbered.
    let _rows = capacities.len();
    arcs_make_a_network(capacities);
    let arcs = arcs_of(alloc, capacities)?;
    names_are_few(arcs.as_slice());
    let names = Names::of(alloc, arcs.as_slice())?;
    let numbered = names.numbered(arcs.as_slice())?;
    numbers_rise_with_ids();
    numbered_arcs_make_a_network();
    let net = Net::make(names.len(), numbered);
    let sources = roots_of(alloc, &names, starts)?;
    let sinks = roots_of(alloc, &names, ends)?;
    Ok(FlowNetwork {
        arcs,
        names,
        net,
        sources,
        sinks,
    })
}

/// A greatest flow of a network with its least cut, or none where some vertex is both source and sink.
///
/// The sources rise. `NoMemory` may come at any call.
pub(crate) fn flow_cut_of(
    alloc: Global,
    net: &Net,
    sources: &[u32],
    sinks: &[u32],
) -> Result<Option<FlowCut>, NoMemory>
    requires sources { All (λ v. v < net.now.size) sources.now }
    requires sinks { All (λ v. v < net.now.size) sinks.now }
    requires rise { IsStrictlyRising nat_cmp sources.now }
    ensures none { IfOk result (λ found. IfNone found (IsCommon sources.now sinks.now)) }
    ensures some { IfOk result (λ found. IfSome found (IsGreatestFlowCut net.now sources.now sinks.now)) }
{
    if is_any_common(sources, sinks) {
        return Ok(None);
    }
    let found = greatest_flow(alloc, net, sources, sinks)?;
    Ok(Some(found))
}

/// Whether some number is both a source and a sink.
fn is_any_common(sources: &[u32], sinks: &[u32]) -> bool
    requires { IsStrictlyRising nat_cmp sources.now }
    ensures { IsTrue result ↔ IsCommon sources.now sinks.now }
{
    for sink in sinks {
        if is_among(sources, *sink) {
            return true;
        }
    }
    false
}

/// Whether a number stands in a rising list.
fn is_among(numbers: &[u32], number: u32) -> bool
    requires { IsStrictlyRising nat_cmp numbers.now }
    ensures { IsTrue result ↔ Contains numbers.now number }
{
    match numbers.binary_search(&number) {
        Ok(_) => true,
        Err(_) => false,
    }
}
