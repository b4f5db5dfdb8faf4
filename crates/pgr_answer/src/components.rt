ghost use Rattle.std.specs.Prelude.{◌≡◌, ◌<◌, List, length, map, All, IfOk};
ghost use Rattle.pgr_answer.specs.Components.{IsConnectedComponents, IsStrongComponents, part_rows};
ghost use Rattle.pgr_answer.specs.Members.{AreByVertex, AreByClass, IsMemberAmong, by_ids};
ghost use Rattle.pgr_answer.specs.declared.components.NumberedMember.{NumberedMember as AMember};

use crate::edge_network::network_of;
use crate::tables::Tables;
use pgr_numbers::{Names, numbers_rise_with_ids};
use pgr_outside::{Listed, NoMemory};
use pgr_parts::{connected, strong};
use pgr_rows::{PartRow, Rows};
use std::alloc::Global;

/// A vertex and the name of its class, by their numbers: in order by class, and in one class by vertex.
#[derive(Clone, Copy, Debug, PartialEq, Eq, PartialOrd, Ord)]
pub(crate) struct NumberedMember {
    /// The number of the least vertex of the class.
    pub component: u32,
    /// The number of the vertex.
    pub node: u32,
}

/// The connected classes of the vertices, over the links of the edges in the undirected graph.
///
/// `NoMemory` may come at any call.
pub(crate) fn connected_components_rows(alloc: Global, tables: &Tables) -> Result<Rows, NoMemory>
    ensures { IfOk result (IsConnectedComponents tables.now) }
{
    let network = network_of(alloc, &tables.edges, false)?;
    let classes = connected(alloc, &network.graph)?;
    numbers_rise_with_ids();
    let rows = rows_of_classes(alloc, &network.names, classes.as_slice())?;
    Ok(Rows::Parts(Listed::from_vec(rows)))
}

/// The strongly connected classes of the vertices, over the links of the edges in the directed graph.
///
/// `NoMemory` may come at any call.
pub(crate) fn strong_components_rows(alloc: Global, tables: &Tables) -> Result<Rows, NoMemory>
    ensures { IfOk result (IsStrongComponents tables.now) }
{
    let network = network_of(alloc, &tables.edges, true)?;
    let classes = strong(alloc, &network.graph)?;
    numbers_rise_with_ids();
    let rows = rows_of_classes(alloc, &network.names, classes.as_slice())?;
    Ok(Rows::Parts(Listed::from_vec(rows)))
}

/// A row for each vertex with the name of its class, by rising class and then by rising vertex, numbered from 1.
fn rows_of_classes(alloc: Global, names: &Names, classes: &[u32]) -> Result<Vec<PartRow>, NoMemory>
    requires size { length classes.now ≡ length names.now }
    requires among { All (λ class. class < length names.now) classes.now }
    ensures { IfOk result (λ rows. (members : List AMember) × AreByClass classes.now members
        × (rows.items ≡ part_rows 1 (map (by_ids names.now) members))) }
{
    let members = members_by_class(alloc, classes, names.len())?;
    rows_of_members(alloc, names, members.as_slice())
}

/// Each vertex with the name of its class, by rising class and then by rising vertex.
fn members_by_class(
    alloc: Global,
    classes: &[u32],
    size: u32,
) -> Result<Vec<NumberedMember>, NoMemory>
    requires { size ≡ length classes.now }
    ensures { IfOk result (λ members. AreByClass classes.now members.items) }
{
    let mut members = members_by_vertex(alloc, classes, size)?;
    members.sort_unstable();
    Ok(members)
}

/// Each vertex below the size with the name of its class, in order.
fn members_by_vertex(
    alloc: Global,
    classes: &[u32],
    size: u32,
) -> Result<Vec<NumberedMember>, NoMemory>
    requires { size ≡ length classes.now }
    ensures { IfOk result (λ members. AreByVertex classes.now size members.items) }
{
    let mut members = Vec::new(alloc);
    for node in 0..size {
        members.push(NumberedMember {
            component: classes[node as usize],
            node,
        })?;
    }
    Ok(members)
}

/// A row for each member, numbered from 1, with the ids of its vertex and of the name of its class.
fn rows_of_members(
    alloc: Global,
    names: &Names,
    members: &[NumberedMember],
) -> Result<Vec<PartRow>, NoMemory>
    requires { All (IsMemberAmong (length names.now)) members.now }
    ensures { IfOk result (λ rows. rows.items ≡ part_rows 1 (map (by_ids names.now) members.now)) }
{
    let mut rows = Vec::new(alloc);
    for (i, member) in members.iter().enumerate() {
        let component = names.name(member.component);
        let node = names.name(member.node);
        rows.push(PartRow {
            seq: i as u64 + 1,
            component,
            node,
        })?;
    }
    Ok(rows)
}
