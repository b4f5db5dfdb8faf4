ghost use Rattle.std.specs.Prelude.{◌≡◌, ◌+◌, [], ◌∷◌, ◌++◌, length, map, filter, All, IfOk, OnOk};
ghost use Rattle.pgr_flow.specs.Cut.{leads_out, marked};
ghost use Rattle.pgr_walks.specs.ListGraph.{HasEndsBelow};
ghost use Rattle.pgr_numbers.specs.Names.{IsNumbered, named};
ghost use Rattle.pgr_answer.specs.MinCut.{IsMinCut, cut_row};
ghost use Rattle.pgr_answer.specs.Flows.{rows_from};

use crate::flow_network::{flow_cut_of, flow_network_of};
use crate::tables::Tables;
use pgr_numbers::{Names, numbers_rise_with_ids};
use pgr_outside::{Listed, NoMemory};
use pgr_rows::{CutRow, Rows};
use pgr_walks::Link;
use pgr_words::Command;
use std::alloc::Global;

/// The arcs that lead out of the least source side of a least cut between the starts of a command and its ends; no row
/// where some vertex is both.
///
/// `NoMemory` may come at any call.
pub(crate) fn min_cut_rows(
    alloc: Global,
    command: &Command,
    tables: &Tables,
) -> Result<Rows, NoMemory>
    ensures { IfOk result (IsMinCut command.now tables.now) }
{
    let starts = command.starts.as_slice();
    let ends = command.ends.as_slice();
    let network = flow_network_of(alloc, &tables.capacities, starts, ends)?;
    let sources = network.sources.as_slice();
    let sinks = network.sinks.as_slice();
    numbers_rise_with_ids();
    let Some(found) = flow_cut_of(alloc, &network.net, sources, sinks)? else {
        return Ok(Rows::Cuts(Listed::from_vec(Vec::new(alloc))));
    };
    let side = found.side.as_slice();
    let rows = rows_of_cut(alloc, &network.names, network.net.arcs(), side)?;
    Ok(Rows::Cuts(Listed::from_vec(rows)))
}

/// A row for each arc that leads out of the marked vertices, numbered from 1, with the ids of its ends.
fn rows_of_cut(
    alloc: Global,
    names: &Names,
    arcs: &[Link],
    side: &[bool],
) -> Result<Vec<CutRow>, NoMemory>
    requires numbered { All (IsNumbered names.now) arcs.now }
    requires marks { length side.now ≡ length names.now }
    ensures { IfOk result (λ rows. rows.items ≡ rows_from cut_row 1 (map (named names.now) (filter (leads_out (marked side.now)) arcs.now))) }
{
    let mut rows = Vec::new(alloc);
    for arc in arcs {
        push_out(&mut rows, names, side, arc)?;
    }
    Ok(rows)
}

/// Puts the row of an arc behind the others, if it leads out of the marked vertices.
fn push_out(
    rows: &mut Vec<CutRow>,
    names: &Names,
    side: &[bool],
    arc: &Link,
) -> Result<(), NoMemory>
    requires numbered { IsNumbered names.now arc.now }
    requires marks { length side.now ≡ length names.now }
    ensures { OnOk result (rows.new.items ≡ rows.old.items
        ++ rows_from cut_row (length rows.old.items + 1) (map (named names.now) (filter (leads_out (marked side.now)) (arc.now ∷ [])))) }
{
    if !is_out(arc, side) {
        return Ok(());
    }
    let seq = rows.len() as u64 + 1;
    let row = row_of_out(seq, names, arc);
    rows.push(row)?;
    Ok(())
}

/// Whether an arc leads out of the marked vertices.
fn is_out(arc: &Link, side: &[bool]) -> bool
    requires { HasEndsBelow (length side.now) arc.now }
    ensures { result ≡ leads_out (marked side.now) arc.now }
{
    side[arc.from as usize] && !side[arc.to as usize]
}

/// The row with this number of an arc, with the ids of its ends.
fn row_of_out(seq: u64, names: &Names, arc: &Link) -> CutRow
    requires { IsNumbered names.now arc.now }
    ensures { result ≡ cut_row seq (named names.now arc.now) }
{
    CutRow {
        seq,
        edge: arc.edge,
        start_vid: names.name(arc.from),
        end_vid: names.name(arc.to),
        capacity: arc.cost,
    }
}
