ghost use Rattle.std.specs.Prelude.{IfOk};
ghost use Rattle.pgr_answer.specs.MaxFlow.{IsMaxFlow};

use crate::flow_network::{flow_cut_of, flow_network_of};
use crate::tables::Tables;
use pgr_numbers::numbers_rise_with_ids;
use pgr_outside::NoMemory;
use pgr_rows::Rows;
use pgr_words::Command;
use std::alloc::Global;

/// The value of a greatest flow from the starts of a command to its ends; 0 where some vertex is both.
///
/// `NoMemory` may come at any call.
pub(crate) fn max_flow_rows(
    alloc: Global,
    command: &Command,
    tables: &Tables,
) -> Result<Rows, NoMemory>
    ensures { IfOk result (IsMaxFlow command.now tables.now) }
{
    let starts = command.starts.as_slice();
    let ends = command.ends.as_slice();
    let network = flow_network_of(alloc, &tables.capacities, starts, ends)?;
    let sources = network.sources.as_slice();
    let sinks = network.sinks.as_slice();
    numbers_rise_with_ids();
    let Some(found) = flow_cut_of(alloc, &network.net, sources, sinks)? else {
        return Ok(Rows::Value(0));
    };
    Ok(Rows::Value(found.value))
}
