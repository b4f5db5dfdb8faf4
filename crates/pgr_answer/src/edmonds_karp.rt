ghost use Rattle.std.specs.Prelude.{◌≡◌, ◌≤◌, ◌+◌, [], ◌∷◌, ◌++◌, length, IfOk, OnOk};
ghost use Rattle.pgr_flow.specs.Flow.{AreWithin};
ghost use Rattle.pgr_answer.specs.EdmondsKarp.{IsEdmondsKarp, carriers, flow_row};
ghost use Rattle.pgr_answer.specs.Flows.{rows_from};

use crate::flow_network::{flow_cut_of, flow_network_of};
use crate::tables::Tables;
use pgr_numbers::numbers_rise_with_ids;
use pgr_outside::{Listed, NoMemory};
use pgr_rows::{FlowRow, Rows};
use pgr_walks::NamedLink;
use pgr_words::Command;
use std::alloc::Global;

/// A greatest flow from the starts of a command to its ends, arc by arc; no row where some vertex is both.
///
/// `NoMemory` may come at any call.
pub(crate) fn edmonds_karp_rows(
    alloc: Global,
    command: &Command,
    tables: &Tables,
) -> Result<Rows, NoMemory>
    ensures { IfOk result (IsEdmondsKarp command.now tables.now) }
{
    let starts = command.starts.as_slice();
    let ends = command.ends.as_slice();
    let network = flow_network_of(alloc, &tables.capacities, starts, ends)?;
    let sources = network.sources.as_slice();
    let sinks = network.sinks.as_slice();
    numbers_rise_with_ids();
    let Some(found) = flow_cut_of(alloc, &network.net, sources, sinks)? else {
        return Ok(Rows::Flows(Listed::from_vec(Vec::new(alloc))));
    };
    let rows = rows_of_flows(alloc, network.arcs.as_slice(), found.flows.as_slice())?;
    Ok(Rows::Flows(Listed::from_vec(rows)))
}

/// A row for each arc that carries flow, numbered from 1.
fn rows_of_flows(alloc: Global, arcs: &[NamedLink], flows: &[u64]) -> Result<Vec<FlowRow>, NoMemory>
    requires { AreWithin arcs.now flows.now }
    ensures { IfOk result (λ rows. rows.items ≡ rows_from flow_row 1 (carriers arcs.now flows.now)) }
{
    let mut rows = Vec::new(alloc);
    for (i, arc) in arcs.iter().enumerate() {
        push_flow(&mut rows, arc, flows[i])?;
    }
    Ok(rows)
}

/// Puts the row of an arc behind the others, if it carries flow.
fn push_flow(rows: &mut Vec<FlowRow>, arc: &NamedLink, flow: u64) -> Result<(), NoMemory>
    requires { flow ≤ arc.now.cost }
    ensures { OnOk result (rows.new.items ≡ rows.old.items
        ++ rows_from flow_row (length rows.old.items + 1) (carriers (arc.now ∷ []) (flow ∷ []))) }
{
    if flow == 0 {
        return Ok(());
    }
    let seq = rows.len() as u64 + 1;
    let row = row_of_flow(seq, arc, flow);
    rows.push(row)?;
    Ok(())
}

/// The row with this number of an arc with its flow.
fn row_of_flow(seq: u64, arc: &NamedLink, flow: u64) -> FlowRow
    requires { flow ≤ arc.now.cost }
    ensures { result ≡ flow_row seq (record { arc = arc.now; flow = flow }) }
{
    FlowRow {
        seq,
        edge: arc.edge,
        start_vid: arc.from,
        end_vid: arc.to,
        flow,
        residual_capacity: arc.cost - flow,
    }
}
