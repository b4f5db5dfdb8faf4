ghost use Rattle.std.specs.Prelude.{◌≡◌};
ghost use Rattle.pgr_table.specs.Columns.{name_of};

use std::fmt;

/// A column of a table.
#[derive(Clone, Copy, Debug, PartialEq, Eq)]
pub enum Column {
    /// The id of an edge.
    Id,
    /// The vertex where an edge or a pair begins.
    Source,
    /// The vertex where an edge or a pair ends.
    Target,
    /// The cost from source to target.
    Cost,
    /// The cost from target to source.
    ReverseCost,
    /// The first coordinate of the source.
    X1,
    /// The second coordinate of the source.
    Y1,
    /// The first coordinate of the target.
    X2,
    /// The second coordinate of the target.
    Y2,
    /// The capacity from source to target.
    Capacity,
    /// The capacity from target to source.
    ReverseCapacity,
    /// The id of a point.
    Pid,
    /// The id of the edge that a point lies on.
    EdgeId,
    /// How far along its edge a point lies.
    Fraction,
    /// The side of its edge that a point lies on.
    SideOf,
    /// The edges of a restriction.
    Path,
}

impl Column {
    /// The column's name, as a header has it.
    pub fn name(self) -> &'static str
        ensures { result.now ≡ name_of self }
    {
        match self {
            Column::Id => "id",
            Column::Source => "source",
            Column::Target => "target",
            Column::Cost => "cost",
            Column::ReverseCost => "reverse_cost",
            Column::X1 => "x1",
            Column::Y1 => "y1",
            Column::X2 => "x2",
            Column::Y2 => "y2",
            Column::Capacity => "capacity",
            Column::ReverseCapacity => "reverse_capacity",
            Column::Pid => "pid",
            Column::EdgeId => "edge_id",
            Column::Fraction => "fraction",
            Column::SideOf => "side",
            Column::Path => "path",
        }
    }
}

impl fmt::Display for Column {
    fn fmt<W: fmt::Write>(&self, f: &mut fmt::Formatter<W>) -> fmt::Result {
        f.write_str(self.name())
    }
}
