ghost use Rattle.std.specs.Prelude.{◌≡◌, ◌↔◌, ◌*◌, ◌<◌, ◌≤◌, ℤ, Some, true, false, Contains, length, slice_get};
ghost use Rattle.pgr_outside.specs.Lists.{IsWithoutRepeats};
ghost use Rattle.pgr_walks.specs.declared.link.LinkOf.{LinkOf};
ghost use Rattle.pgr_numbers.specs.Slots.{links_in};
ghost use Rattle.pgr_graph.specs.Links.{IsLinkOfTable};
ghost use Rattle.pgr_graph.specs.RowLinks.{links_of_rows};
ghost use Rattle.pgr_graph.specs.RowSlots.{second_along, slots_of_row, slots_of_table};

use crate::links::{Direction, link_of_sense};
use pgr_numbers::LinkSource;
use pgr_table::{EdgeRow, EdgeTable};
use pgr_walks::NamedLink;

/// The links of a table, given one at a time, row by row.
///
/// They are the links that [`links_by_row`](crate::links_by_row) lists, in its order, without a list. A row has two slots in the
/// directed graph and four in the undirected one.
#[derive(Clone, Copy)]
pub struct LinksByRow<'a> {
    edges: &'a EdgeTable,
    directed: bool,
}

impl<'a> LinksByRow<'a> {
    /// The links of the table in the directed graph or the undirected one, each once.
    pub fn of(edges: &'a EdgeTable, directed: bool) -> LinksByRow<'a>
        ensures links { (link : LinkOf ℤ)
            → Contains (links_in (⟦<LinksByRow<'a> as LinkSource>⟧.slots result)) link ↔ IsLinkOfTable edges.now directed link }
        ensures once { IsWithoutRepeats (links_in (⟦<LinksByRow<'a> as LinkSource>⟧.slots result)) }
        ensures few { length (⟦<LinksByRow<'a> as LinkSource>⟧.slots result) ≤ 4 * length edges.now }

        // In this order, and in these slots.
        ensures rows { links_in (⟦<LinksByRow<'a> as LinkSource>⟧.slots result) ≡ links_of_rows directed edges.now }
        ensures slots { ⟦<LinksByRow<'a> as LinkSource>⟧.slots result ≡ slots_of_table directed edges.now }
    {
        // From this call it is known that no two rows of a table have one id.
        let _rows = edges.len();
        LinksByRow { edges, directed }
    }
}

impl LinkSource for LinksByRow<'_> {
    ghost slots = { λ source. slots_of_table source.directed source.edges.now };

    fn slot_count(&self) -> usize {
        let rows = self.edges.len();
        if self.directed { 2 * rows } else { 4 * rows }
    }

    fn link(&self, slot: usize) -> Option<NamedLink> {
        if self.directed {
            return directed_link(self.edges.row(slot / 2), slot % 2);
        }
        undirected_link(self.edges.row(slot / 4), slot % 4)
    }
}

/// The link in a slot of a row in the directed graph: there with its cost, and back with its reverse cost.
///
/// A self loop has the same links both ways, so its second slot is empty where its costs are equal.
fn directed_link(row: EdgeRow, slot: usize) -> Option<NamedLink>
    requires { slot < 2 }
    ensures { slice_get (slots_of_row true row) slot ≡ Some result }
{
    if slot == 0 {
        return link_of_sense(row, Direction::Forward, row.cost);
    }
    if row.source == row.target {
        return second_along(row, Direction::Forward);
    }
    link_of_sense(row, Direction::Backward, row.reverse_cost)
}

/// The link in a slot of a row in the undirected graph: there with each of its costs, and back with each.
///
/// A self loop has the same links both ways, so its last two slots are empty.
fn undirected_link(row: EdgeRow, slot: usize) -> Option<NamedLink>
    requires { slot < 4 }
    ensures { slice_get (slots_of_row false row) slot ≡ Some result }
{
    if slot == 0 {
        return link_of_sense(row, Direction::Forward, row.cost);
    }
    if slot == 1 {
        return second_along(row, Direction::Forward);
    }
    if row.source == row.target {
        return None;
    }
    if slot == 2 {
        return link_of_sense(row, Direction::Backward, row.cost);
    }
    second_along(row, Direction::Backward)
}

/// The link along the row with its reverse cost, or none where the reverse cost is negative or equals the cost.
fn second_along(row: EdgeRow, direction: Direction) -> Option<NamedLink>
    ensures { result ≡ second_along row direction }
{
    if row.cost == row.reverse_cost {
        return None;
    }
    link_of_sense(row, direction, row.reverse_cost)
}

#[cfg(test)]
mod tests {
    use super::*;
    use pgr_table::read_edges;
    use std::test::Fail;

    /// The link with the edge 1 between these ends.
    fn link(from: i64, cost: u64, to: i64) -> Option<NamedLink> {
        Some(NamedLink {
            from,
            edge: 1,
            cost,
            to,
        })
    }

    #[test]
    fn a_slot_is_empty_where_its_cost_is_negative(rt: HostRuntime) -> Result<(), Fail> {
        let bytes = b"id,source,target,cost,reverse_cost\n1,10,20,5,-1\n";
        let table = read_edges(rt.alloc(), bytes, false)?;
        let one_way = LinksByRow::of(&table, true);
        assert_eq!(rt; one_way.slot_count(), 2);
        for (slot, expected) in [(0, link(10, 5, 20)), (1, None)] {
            assert!(rt; slot < one_way.slot_count());
            assert_eq!(rt; one_way.link(slot), expected, "at {slot}");
        }
        let both_ways = LinksByRow::of(&table, false);
        assert_eq!(rt; both_ways.slot_count(), 4);
        for (slot, expected) in [
            (0, link(10, 5, 20)),
            (1, None),
            (2, link(20, 5, 10)),
            (3, None),
        ] {
            assert!(rt; slot < both_ways.slot_count());
            assert_eq!(rt; both_ways.link(slot), expected, "at {slot}");
        }
        Ok(())
    }

    #[test]
    fn a_table_with_no_row_has_no_slot(rt: HostRuntime) -> Result<(), Fail> {
        let table = read_edges(rt.alloc(), b"id,source,target,cost\n", false)?;
        for directed in [true, false] {
            assert_eq!(rt; LinksByRow::of(&table, directed).slot_count(), 0);
        }
        Ok(())
    }
}
