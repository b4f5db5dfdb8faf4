ghost use Rattle.std.specs.Prelude.{◌≡◌, ◌≢◌};
ghost use Rattle.pgr_table.specs.Edges.{HasPlaces};
ghost use Rattle.pgr_answer.specs.Tables.{no_tables, judged_as};
ghost use Rattle.pgr_answer.specs.Reading.{IsTableRead};

use crate::role::Kind;
use pgr_table::{
    CapacityTable, EdgeTable, PairTable, PointTable, RestrictionTable, TableRefused,
    read_capacities, read_combinations, read_edges, read_points, read_restrictions,
};
use std::alloc::Global;

/// The tables that a command asks about, one of each kind; a table without a file has no row.
#[derive(Drop)]
pub(crate) struct Tables {
    /// The edges.
    pub edges: EdgeTable,
    /// The points on edges.
    pub points: PointTable,
    /// The restrictions.
    pub restrictions: RestrictionTable,
    /// The asked pairs.
    pub combinations: PairTable,
    /// The edges with capacities.
    pub capacities: CapacityTable,
}

impl Tables {
    /// Tables without a row.
    pub(crate) fn empty(alloc: Global) -> Tables
        ensures { result ≡ no_tables }
    {
        Tables {
            edges: EdgeTable::empty(alloc),
            points: PointTable::empty(alloc),
            restrictions: RestrictionTable::empty(alloc),
            combinations: PairTable::empty(alloc),
            capacities: CapacityTable::empty(alloc),
        }
    }

    /// Reads bytes as a table of this kind, which takes the place of the one before.
    ///
    /// Where it is refused the tables stay as they are. Edges that are read with places have them.
    pub(crate) fn read(
        &mut self,
        alloc: Global,
        kind: Kind,
        bytes: &[u8],
    ) -> Result<(), TableRefused>
        ensures read { IsTableRead result (judged_as kind bytes.now) self.old self.new }
        ensures places { kind ≢ Kind.Edges → HasPlaces self.old.edges → HasPlaces self.new.edges }
    {
        match kind {
            Kind::Edges => self.edges = read_edges(alloc, bytes, false)?,
            Kind::Points => self.points = read_points(alloc, bytes)?,
            Kind::Restrictions => self.restrictions = read_restrictions(alloc, bytes)?,
            Kind::Combinations => self.combinations = read_combinations(alloc, bytes)?,
            Kind::PlacedEdges => self.edges = read_edges(alloc, bytes, true)?,
            Kind::Capacities => self.capacities = read_capacities(alloc, bytes)?,
        }
        Ok(())
    }
}
