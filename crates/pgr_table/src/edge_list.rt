ghost use Rattle.std.specs.Prelude.{◌≡◌, ◌≢◌, ◌<◌, ◌↔◌, [], ◌∷◌, ◌++◌, All, false, length, IsTrue, IsNone, IfOk, IfSome, OnOk, OnErr, Some, slice_get};
ghost use Rattle.std.specs.List.{list_any};
ghost use Rattle.std.specs.Ordering.{int_cmp, int_eq};
ghost use Rattle.pgr_outside.specs.Lists.{IsStrictlyRising};
ghost use Rattle.pgr_table.specs.KeptEdges.{edge_row, ids_of};

use crate::row::{EdgeRow, Place};
use indexmap::IndexSet;
use pgr_outside::NoMemory;
use std::alloc::Global;
use std::marker::Model;

/// What is kept of an edge in a list of its own: its id, its ends and its costs, without its place.
#[derive(Clone, Copy, Debug)]
pub(crate) struct PlainEdge {
    /// The edge's id.
    pub(crate) id: i64,
    /// The vertex where the edge begins.
    pub(crate) source: i64,
    /// The vertex where the edge ends.
    pub(crate) target: i64,
    /// The cost of the link from source to target, where it isn't negative.
    pub(crate) cost: i64,
    /// The cost of the link from target to source, where it isn't negative.
    pub(crate) reverse_cost: i64,
}

impl PlainEdge {
    /// The row of the edge, with a place if there is one.
    pub(crate) fn row(&self, place: Option<Place>) -> EdgeRow
        ensures { result ≡ edge_row self.now place }
    {
        EdgeRow {
            id: self.id,
            source: self.source,
            target: self.target,
            cost: self.cost,
            reverse_cost: self.reverse_cost,
            place,
        }
    }
}

/// Edges with distinct ids, in the order in which they were put in, which contracts see as their list.
///
/// Work, not proved: as long as each id is above the one before, nothing is kept beside the edges, and an id is found by
/// bisection. From the first that isn't on, the ids stand in an index too.
#[derive(Debug, Drop)]
pub(crate) struct EdgeList {
    /// The edges in order.
    edges: Vec<PlainEdge>,
    /// Whether each id is above the one before. Then what the index has counts for nothing.
    rising: bool,
    /// The ids in the order of the edges, where they don't rise.
    index: IndexSet<i64>,
}

impl Model for EdgeList {
    ghost use Rattle.std.specs.Prelude.{List};
    ghost use Rattle.pgr_table.specs.declared.edge_list.PlainEdge.{PlainEdge as Edge};
    ghost use Rattle.pgr_table.specs.KeptEdges.{ids_of, AreFound};

    ghost Value = { List Edge };

    ghost view = { λ list. list.edges.items };

    ghost invariant = { λ list. AreFound list.rising (ids_of list.edges.items) list.index.keys };
}

impl EdgeList {
    /// A list without edges.
    pub(crate) fn new(alloc: Global) -> EdgeList
        ensures { result ≡ [] }
    {
        EdgeList {
            edges: Vec::new(alloc),
            rising: true,
            index: IndexSet::new(alloc),
        }
    }

    /// A list without edges, with room for some that are expected.
    pub(crate) fn with_capacity(alloc: Global, expected: usize) -> Result<EdgeList, NoMemory>
        ensures { IfOk result (λ list. list ≡ []) }
    {
        let edges = Vec::with_capacity(alloc, expected)?;
        Ok(EdgeList {
            edges,
            rising: true,
            index: IndexSet::new(alloc),
        })
    }

    /// The number of edges.
    pub(crate) fn len(&self) -> usize
        ensures { result ≡ length self.now }
    {
        self.edges.len()
    }

    /// Whether there is no edge.
    pub(crate) fn is_empty(&self) -> bool
        ensures { IsTrue result ↔ (self.now ≡ []) }
    {
        self.edges.is_empty()
    }

    /// The edge at a place, by value, the first being 0.
    pub(crate) fn get(&self, i: usize) -> PlainEdge
        requires { i < length self.now }
        ensures { slice_get self.now i ≡ Some result }
    {
        self.edges[i]
    }

    /// The place of the edge with an id, or none where no edge has it.
    pub(crate) fn find(&self, id: i64) -> Option<usize>
        ensures found { IfSome result (λ i. slice_get (ids_of self.now) i ≡ Some id) }
        ensures absent { IsNone result ↔ All (λ other. other ≢ id) (ids_of self.now) }
    {
        if !self.rising {
            return self.index.get_index_of(&id);
        }
        if rises_with(&self.edges, id) {
            return None;
        }
        bisected(&self.edges, id)
    }

    /// Puts an edge behind the others. Out of memory, the list stays as it was.
    pub(crate) fn push(&mut self, edge: PlainEdge) -> Result<(), NoMemory>
        requires { list_any (int_eq edge.id) (ids_of self.old) ≡ false }
        ensures ok { OnOk result (self.new ≡ self.old ++ edge ∷ []) }
        ensures err { OnErr result (self.new ≡ self.old) }
    {
        if !self.rising {
            return push_indexed(&mut self.edges, &mut self.index, edge);
        }
        if rises_with(&self.edges, edge.id) {
            self.edges.push(edge)?;
            return Ok(());
        }
        fill(&mut self.index, &self.edges)?;
        self.rising = false;
        push_indexed(&mut self.edges, &mut self.index, edge)
    }
}

/// Whether the ids still rise with one more, which is so where it is above the last.
fn rises_with(edges: &[PlainEdge], id: i64) -> bool
    requires { IsStrictlyRising int_cmp (ids_of edges.now) }
    ensures { IsTrue result ↔ IsStrictlyRising int_cmp (ids_of edges.now ++ id ∷ []) }
{
    match edges.last() {
        Some(last) => last.id < id,
        None => true,
    }
}

/// The place of an id in edges whose ids rise, or none where no edge has it.
fn bisected(edges: &[PlainEdge], id: i64) -> Option<usize>
    requires { IsStrictlyRising int_cmp (ids_of edges.now) }
    ensures found { IfSome result (λ i. slice_get (ids_of edges.now) i ≡ Some id) }
    ensures absent { IsNone result ↔ All (λ other. other ≢ id) (ids_of edges.now) }
{
    match edges.binary_search_by_key(&id, |edge| edge.id) {
        Ok(place) => Some(place),
        Err(_) => None,
    }
}

/// Puts the ids of edges, which rise, into an index in place of what it has.
fn fill(index: &mut IndexSet<i64>, edges: &[PlainEdge]) -> Result<(), NoMemory>
    requires { IsStrictlyRising int_cmp (ids_of edges.now) }
    ensures { OnOk result (index.new.keys ≡ ids_of edges.now) }
{
    index.clear();
    for edge in edges {
        index.insert(edge.id)?;
    }
    Ok(())
}

/// Puts an edge with a new id behind the others, and its id into their index. Out of memory, both stay as they were.
fn push_indexed(
    edges: &mut Vec<PlainEdge>,
    index: &mut IndexSet<i64>,
    edge: PlainEdge,
) -> Result<(), NoMemory>
    requires indexed { index.old.keys ≡ ids_of edges.old.items }
    requires new { list_any (int_eq edge.id) (ids_of edges.old.items) ≡ false }
    ensures ok { OnOk result (edges.new.items ≡ edges.old.items ++ edge ∷ []) }
    ensures err { OnErr result (edges.new.items ≡ edges.old.items) }
    ensures indexed { index.new.keys ≡ ids_of edges.new.items }
{
    index.insert(edge.id)?;
    match edges.push(edge) {
        Ok(()) => Ok(()),
        Err(_) => {
            index.pop();
            Err(NoMemory)
        }
    }
}
