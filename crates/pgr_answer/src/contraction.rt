ghost use Rattle.std.specs.Prelude.{◌≡◌, ◌++◌, map, flat_map, IfOk, OnOk};
ghost use Rattle.pgr_answer.specs.Contraction.{IsContraction, rows_left, shortcut_row, vertex_row};

use crate::tables::Tables;
use pgr_contract::{Contracted, Kept, Shortcut, contract};
use pgr_graph::links_of;
use pgr_numbers::names_are_few;
use pgr_outside::{Listed, NoMemory};
use pgr_rows::{ContractRow, Rows};
use pgr_words::Command;
use std::alloc::Global;

/// What the contraction of the links of the edges leaves: a row for each vertex that holds others, then one for each shortcut.
///
/// `NoMemory` may come at any call.
pub(crate) fn contraction_rows(
    alloc: Global,
    command: &Command,
    tables: &Tables,
) -> Result<Rows, NoMemory>
    ensures { IfOk result (IsContraction command.now tables.now) }
{
    // From this call it is known what holds of the rows of every table.
    let _rows = tables.edges.len();
    let directed = command.directed;
    let links = links_of(alloc, &tables.edges, directed)?;
    let links = links.as_slice();
    names_are_few(links);
    let order = command.order.as_slice();
    let forbidden = command.forbidden.as_slice();
    let left = contract(alloc, links, order, command.max_cycles, forbidden, directed)?;
    let rows = rows_of_contraction(alloc, left)?;
    Ok(Rows::Contractions(Listed::from_vec(rows)))
}

/// The rows of what a contraction leaves.
fn rows_of_contraction(alloc: Global, left: Contracted) -> Result<Vec<ContractRow>, NoMemory>
    ensures { IfOk result (λ rows. rows.items ≡ rows_left left.vertices.items left.shortcuts.items) }
{
    let Contracted {
        vertices,
        shortcuts,
        ..
    } = left;
    let mut rows = Vec::new(alloc);
    push_vertices(&mut rows, vertices)?;
    push_shortcuts(&mut rows, shortcuts)?;
    Ok(rows)
}

/// Appends the rows of the vertices that hold others.
fn push_vertices(rows: &mut Vec<ContractRow>, vertices: Vec<Kept>) -> Result<(), NoMemory>
    ensures { OnOk result (rows.new.items ≡ rows.old.items ++ flat_map vertex_row vertices.items) }
{
    for kept in vertices {
        push_vertex(rows, kept)?;
    }
    Ok(())
}

/// Appends the row of a vertex, if it holds others.
fn push_vertex(rows: &mut Vec<ContractRow>, kept: Kept) -> Result<(), NoMemory>
    ensures { OnOk result (rows.new.items ≡ rows.old.items ++ vertex_row kept) }
{
    let Kept { node, inside } = kept;
    if !inside.is_empty() {
        rows.push(ContractRow::Vertex { id: node, inside })?;
    }
    Ok(())
}

/// Appends the rows of the shortcuts.
fn push_shortcuts(rows: &mut Vec<ContractRow>, shortcuts: Vec<Shortcut>) -> Result<(), NoMemory>
    ensures { OnOk result (rows.new.items ≡ rows.old.items ++ map shortcut_row shortcuts.items) }
{
    for shortcut in shortcuts {
        let Shortcut {
            id,
            from,
            to,
            cost,
            inside,
        } = shortcut;
        rows.push(ContractRow::Shortcut {
            id,
            inside,
            source: from,
            target: to,
            cost,
        })?;
    }
    Ok(())
}
