ghost use Rattle.std.specs.Prelude.{◌≡◌, ◌≢◌, ◌<◌, ◌≤◌, ◌↔◌, true, false, [], ◌∷◌, ◌++◌, All, length, IsTrue, IsNone, IfOk, IfSome, OnOk, OnErr, Some, None, option_map, slice_get};
ghost use Rattle.std.specs.List.{list_any};
ghost use Rattle.std.specs.Ordering.{int_eq};
ghost use Rattle.pgr_table.specs.Judging.{IsVerdict};
ghost use Rattle.pgr_table.specs.Edges.{place_behind, judged_edges, sum_of_costs, HasIds, IsPlace, HasPlaces};
ghost use Rattle.pgr_table.specs.KeptEdges.{plain_edge_of, edge_row};
ghost use Rattle.pgr_table.specs.Rows.{most_rows, greatest};

use crate::column::Column;
use crate::edge_list::{EdgeList, PlainEdge};
use crate::fault::TableRefused;
use crate::field_value::{FieldValue, number_in};
use crate::growing::Growing;
use crate::kind::{Check, Grammar, Rule};
use crate::reading::read_table;
use crate::row::{EdgeRow, Place};
use crate::table::Table;
use pgr_outside::NoMemory;
use std::alloc::Global;
use std::marker::Model;

/// The columns of a table of edges, in the order of judging.
const EDGES: [Rule; 5] = [
    Rule {
        column: Column::Id,
        grammar: Grammar::Id,
        required: true,
        check: Check::Distinct,
    },
    Rule {
        column: Column::Source,
        grammar: Grammar::Id,
        required: true,
        check: Check::Free,
    },
    Rule {
        column: Column::Target,
        grammar: Grammar::Id,
        required: true,
        check: Check::Free,
    },
    Rule {
        column: Column::Cost,
        grammar: Grammar::Whole,
        required: true,
        check: Check::Summed,
    },
    Rule {
        column: Column::ReverseCost,
        grammar: Grammar::WholeOrEmpty,
        required: false,
        check: Check::Summed,
    },
];

/// The columns of a table of edges with places, in the order of judging.
const PLACED_EDGES: [Rule; 9] = [
    Rule {
        column: Column::Id,
        grammar: Grammar::Id,
        required: true,
        check: Check::Distinct,
    },
    Rule {
        column: Column::Source,
        grammar: Grammar::Id,
        required: true,
        check: Check::Free,
    },
    Rule {
        column: Column::Target,
        grammar: Grammar::Id,
        required: true,
        check: Check::Free,
    },
    Rule {
        column: Column::Cost,
        grammar: Grammar::Whole,
        required: true,
        check: Check::Summed,
    },
    Rule {
        column: Column::ReverseCost,
        grammar: Grammar::WholeOrEmpty,
        required: false,
        check: Check::Summed,
    },
    Rule {
        column: Column::X1,
        grammar: Grammar::Coordinate,
        required: true,
        check: Check::Free,
    },
    Rule {
        column: Column::Y1,
        grammar: Grammar::Coordinate,
        required: true,
        check: Check::Free,
    },
    Rule {
        column: Column::X2,
        grammar: Grammar::Coordinate,
        required: true,
        check: Check::Free,
    },
    Rule {
        column: Column::Y2,
        grammar: Grammar::Coordinate,
        required: true,
        check: Check::Free,
    },
];

/// The rows of an edge table that is accepted, in the order of the table, which contracts see as their list.
///
/// No id stands twice, ids and vertices are from 0 to 2^63 - 1, coordinates are from -10^15 to 10^15, there are at most
/// 4,194,304 rows, and the costs that aren't negative, of both columns, have a sum of at most 2^63 - 1.
#[derive(Debug, Drop)]
pub struct EdgeTable {
    /// The edges in the order of the rows, without their places.
    edges: EdgeList,
    /// The places of the rows in their order, if the table is read with places, else none.
    places: Vec<Place>,
}

impl Model for EdgeTable {
    ghost use Rattle.std.specs.Prelude.{List, ◌≤◌, length};
    ghost use Rattle.pgr_table.specs.declared.row.EdgeRow.{EdgeRow as Row};
    ghost use Rattle.pgr_table.specs.Edges.{AreAccepted};
    ghost use Rattle.pgr_table.specs.KeptEdges.{edge_rows};

    ghost Value = { List Row };

    ghost view = { λ table. edge_rows table.edges table.places.items };

    ghost invariant = { λ table. (length table.places.items ≤ length table.edges) × AreAccepted (edge_rows table.edges table.places.items) };
}

/// The edges that the bytes are, or why they are none.
///
/// The bytes are CSV: fields between commas, in double quotes where wanted, records by line. The first record is the
/// header. It has the columns `id`, `source`, `target` and `cost`, and `reverse_cost` if wanted, in any order; other
/// columns are ignored, and may stand twice. Each later record has as many fields as the header. Id, source and target
/// are digits, from 0 to 2^63 - 1. The costs are whole numbers in the range of `i64`: an optional hyphen and digits, and
/// if wanted a full stop and zeros; nothing is trimmed. A negative cost stays as it is. Where `reverse_cost` is absent or
/// empty it is -1. A byte order mark in front and blank lines are skipped, the last record needs no line feed, and a
/// header alone is a table without rows.
///
/// With `places` the header has to have the columns `x1`, `y1`, `x2` and `y2` too, which are judged behind the others:
/// whole numbers from -10^15 to 10^15, the coordinates of the source and of the target, and each row has them. Without,
/// these columns are ignored as others are, and no row has a place.
///
/// `Fault` comes exactly where the bytes have one, and is the first: see [`TableFault`](crate::TableFault). No id stands
/// twice, there are at most 4,194,304 rows, and the costs that aren't negative, of both columns, have a sum of at most
/// 2^63 - 1. `Memory` may come at any bytes. Work, not proved: a step for each byte. As long as each id is above the
/// one before, a row takes no look-up; from the first that isn't on, each takes two.
pub fn read_edges(alloc: Global, bytes: &[u8], places: bool) -> Result<EdgeTable, TableRefused>
    ensures verdict { IsVerdict result (judged_edges places bytes.now) }
    ensures places { IsTrue places → IfOk result HasPlaces }
{
    if places {
        return read_placed_edges(alloc, bytes);
    }
    read_plain_edges(alloc, bytes)
}

/// The edges that the bytes are, with the columns of their places.
fn read_placed_edges(alloc: Global, bytes: &[u8]) -> Result<EdgeTable, TableRefused>
    ensures verdict { IsVerdict result (judged_edges true bytes.now) }
    ensures places { IfOk result HasPlaces }
{
    match read_table::<PlacedEdges>(alloc, bytes) {
        Ok(placed) => Ok(placed.table),
        Err(refused) => Err(refused),
    }
}

/// The edges that the bytes are, without places.
fn read_plain_edges(alloc: Global, bytes: &[u8]) -> Result<EdgeTable, TableRefused>
    ensures { IsVerdict result (judged_edges false bytes.now) }
{
    read_table::<EdgeTable>(alloc, bytes)
}

impl EdgeTable {
    ghost use Rattle.pgr_table.specs.Edges.{AreAccepted};

    /// A table without rows.
    pub fn empty(alloc: Global) -> EdgeTable
        ensures { result ≡ [] }
    {
        EdgeTable {
            edges: EdgeList::new(alloc),
            places: Vec::new(alloc),
        }
    }

    /// The number of rows.
    ///
    /// From this call a caller also learns what holds of the rows of every table.
    pub fn len(&self) -> usize
        ensures len { result ≡ length self.now }
        ensures accepted { AreAccepted self.now }
    {
        self.edges.len()
    }

    /// Whether there is no row.
    pub fn is_empty(&self) -> bool
        ensures { IsTrue result ↔ (self.now ≡ []) }
    {
        self.edges.is_empty()
    }

    /// The row at a place, by value, the first being 0.
    pub fn row(&self, i: usize) -> EdgeRow
        requires { i < length self.now }
        ensures { slice_get self.now i ≡ Some result }
    {
        self.edges.get(i).row(self.places.get(i).copied())
    }

    /// The place of the row with an id, or none where no row has it.
    pub fn find(&self, id: i64) -> Option<usize>
        ensures found { IfSome result (λ i. option_map (λ row. row.id) (slice_get self.now i) ≡ Some id) }
        ensures absent { IsNone result ↔ All (λ row. row.id ≢ id) self.now }
    {
        self.edges.find(id)
    }

    /// Whether a row has this id.
    fn has_id(&self, id: i64) -> bool
        ensures { result ≡ list_any (λ row. int_eq id row.id) self.now }
    {
        self.edges.find(id).is_some()
    }

    /// Puts a row without a place behind the others. Out of memory, the table stays as it was.
    fn push(&mut self, edge: PlainEdge) -> Result<(), NoMemory>
        requires ids { HasIds (edge_row edge None) }
        requires new { list_any (λ one. int_eq edge.id one.id) self.old ≡ false }
        requires few { length self.old < most_rows }
        requires sum { sum_of_costs (self.old ++ edge_row edge None ∷ []) ≤ greatest }
        ensures ok { OnOk result (self.new ≡ self.old ++ edge_row edge None ∷ []) }
        ensures err { OnErr result (self.new ≡ self.old) }
    {
        self.edges.push(edge)?;
        Ok(())
    }

    /// Puts a row with a place behind the others, each of which has one. Out of memory, the table stays as it was.
    fn push_placed(&mut self, edge: PlainEdge, place: Place) -> Result<(), NoMemory>
        requires ids { HasIds (edge_row edge (Some place)) }
        requires place { IsPlace place }
        requires placed { HasPlaces self.old }
        requires new { list_any (λ one. int_eq edge.id one.id) self.old ≡ false }
        requires few { length self.old < most_rows }
        requires sum { sum_of_costs (self.old ++ edge_row edge (Some place) ∷ []) ≤ greatest }
        ensures ok { OnOk result (self.new ≡ self.old ++ edge_row edge (Some place) ∷ []) }
        ensures err { OnErr result (self.new ≡ self.old) }
    {
        self.places.push(place)?;
        match self.edges.push(edge) {
            Ok(()) => Ok(()),
            Err(_) => {
                self.places.pop();
                Err(NoMemory)
            }
        }
    }
}

impl Table for EdgeTable {
    ghost use Rattle.std.specs.Prelude.{false};
    ghost use Rattle.pgr_table.specs.declared.row.EdgeRow.{EdgeRow as One};
    ghost use Rattle.pgr_table.specs.Edges.{judged_edges as verdict};

    ghost Row = { One };

    ghost rows = { λ table. table };

    ghost judged = { verdict false };

    fn read(alloc: Global, bytes: &[u8]) -> Result<EdgeTable, TableRefused> {
        read_edges(alloc, bytes, false)
    }
}

impl Growing for EdgeTable {
    ghost use Rattle.std.specs.Prelude.{map};
    ghost use Rattle.pgr_table.specs.Edges.{edge_kind, values_of_edge};

    ghost kind = { edge_kind };

    ghost rows = { map values_of_edge };

    fn kind() -> &'static [Rule] {
        &EDGES
    }

    fn with_room(alloc: Global, expected: usize) -> Result<EdgeTable, NoMemory> {
        let edges = EdgeList::with_capacity(alloc, expected)?;
        let places = Vec::new(alloc);
        Ok(EdgeTable { edges, places })
    }

    fn count(&self) -> usize {
        self.edges.len()
    }

    fn knows(&self, values: &[FieldValue]) -> bool {
        self.has_id(number_in(values, 0))
    }

    fn add(&mut self, values: &mut Vec<FieldValue>) -> Result<(), NoMemory> {
        let values = values.as_slice();
        self.push(plain_edge(values))
    }
}

/// A table of edges that is read with their places.
#[derive(Drop)]
struct PlacedEdges {
    table: EdgeTable,
}

impl Model for PlacedEdges {
    ghost use Rattle.std.specs.Prelude.{List};
    ghost use Rattle.pgr_table.specs.declared.row.EdgeRow.{EdgeRow as Row};
    ghost use Rattle.pgr_table.specs.Edges.{HasPlaces};

    ghost Value = { List Row };

    ghost view = { λ placed. placed.table };

    ghost invariant = { λ placed. HasPlaces placed.table };
}

impl Growing for PlacedEdges {
    ghost use Rattle.std.specs.Prelude.{map};
    ghost use Rattle.pgr_table.specs.Edges.{placed_edge_kind, values_of_edge};

    ghost kind = { placed_edge_kind };

    ghost rows = { map values_of_edge };

    fn kind() -> &'static [Rule] {
        &PLACED_EDGES
    }

    fn with_room(alloc: Global, expected: usize) -> Result<PlacedEdges, NoMemory> {
        let edges = EdgeList::with_capacity(alloc, expected)?;
        let places = Vec::with_capacity(alloc, expected)?;
        let table = EdgeTable { edges, places };
        Ok(PlacedEdges { table })
    }

    fn count(&self) -> usize {
        self.table.len()
    }

    fn knows(&self, values: &[FieldValue]) -> bool {
        self.table.has_id(number_in(values, 0))
    }

    fn add(&mut self, values: &mut Vec<FieldValue>) -> Result<(), NoMemory> {
        let values = values.as_slice();
        self.table.push_placed(plain_edge(values), place(values))?;
        Ok(())
    }
}

/// What is kept of the edge with these values, but for its place.
fn plain_edge(values: &[FieldValue]) -> PlainEdge
    requires { 5 ≤ length values.now }
    ensures { result ≡ plain_edge_of values.now }
{
    PlainEdge {
        id: number_in(values, 0),
        source: number_in(values, 1),
        target: number_in(values, 2),
        cost: number_in(values, 3),
        reverse_cost: number_in(values, 4),
    }
}

/// The place that the values behind the first five make.
fn place(values: &[FieldValue]) -> Place
    requires { 9 ≤ length values.now }
    ensures { result ≡ place_behind values.now }
{
    Place {
        x1: number_in(values, 5),
        y1: number_in(values, 6),
        x2: number_in(values, 7),
        y2: number_in(values, 8),
    }
}
