ghost use Rattle.std.specs.Prelude.{◌≡◌, ◌↔◌, ◌++◌, ◌+◌, ◌*◌, ◌≤◌, ℤ, Contains, IfOk, OnOk, length, vec_len};
ghost use Rattle.std.specs.Option.{option_to_list};
ghost use Rattle.std.specs.Ordering.{int_cmp};
ghost use Rattle.pgr_outside.specs.Lists.{IsWithoutRepeats};
ghost use Rattle.pgr_walks.specs.declared.link.LinkOf.{LinkOf};
ghost use Rattle.pgr_walks.specs.Link.{link_cmp};
ghost use Rattle.pgr_walks.specs.Graph.{IsStrictlyRising};
ghost use Rattle.pgr_graph.specs.Links.{IsLinkOfTable};
ghost use Rattle.pgr_graph.specs.Senses.{link_of_sense};
ghost use Rattle.pgr_graph.specs.RowLinks.{links_of_rows};

use crate::by_row::LinksByRow;
use pgr_numbers::LinkSource;
use pgr_outside::NoMemory;
use pgr_table::{EdgeRow, EdgeTable};
use pgr_walks::NamedLink;
use std::alloc::Global;

/// Which way along an edge.
#[derive(Clone, Copy, Debug, PartialEq, Eq)]
pub enum Direction {
    /// From its source to its target.
    Forward,
    /// From its target to its source.
    Backward,
}

/// The links of a table, each once, rising by where they begin, then by edge, cost and where they lead.
///
/// In the directed graph a row gives the link from its source to its target with its cost, and the link from its
/// target to its source with its reverse cost; a cost that is negative gives none. In the undirected graph each of
/// these stands together with its opposite at the same cost. A self loop with equal costs both ways gives one link.
/// `NoMemory` may come at any call.
pub fn links_of(
    alloc: Global,
    table: &EdgeTable,
    directed: bool,
) -> Result<Vec<NamedLink>, NoMemory>
    ensures links { IfOk result
        (λ links. (link : LinkOf ℤ) → Contains links.items link ↔ IsLinkOfTable table.now directed link) }
    ensures rising { IfOk result (λ links. IsStrictlyRising (link_cmp int_cmp) links.items) }
    ensures few { IfOk result (λ links. vec_len links ≤ 4 * length table.now) }
{
    let mut links = links_by_row(alloc, table, directed)?;
    links.sort_unstable();
    Ok(links)
}

/// The links of a table, each once, row by row.
///
/// They are the links that [`links_of`] lists, for a caller that needs no sorted list. Two rows never give the same link, since
/// their ids differ, so a repeat could stand only within a row, and nothing is sorted. `NoMemory` may come at any call.
pub fn links_by_row(
    alloc: Global,
    table: &EdgeTable,
    directed: bool,
) -> Result<Vec<NamedLink>, NoMemory>
    ensures links { IfOk result
        (λ links. (link : LinkOf ℤ) → Contains links.items link ↔ IsLinkOfTable table.now directed link) }
    ensures once { IfOk result (λ links. IsWithoutRepeats links.items) }
    ensures few { IfOk result (λ links. vec_len links ≤ 4 * length table.now) }

    // In this order.
    ensures rows { IfOk result (λ links. links.items ≡ links_of_rows directed table.now) }
{
    let source = LinksByRow::of(table, directed);
    let slots = source.slot_count();
    let mut links = Vec::with_capacity(alloc, slots)?;
    for slot in 0..slots {
        push(&mut links, source.link(slot))?;
    }
    Ok(links)
}

/// The link along the row with the cost, or none where the cost is negative.
pub(crate) fn link_of_sense(row: EdgeRow, direction: Direction, cost: i64) -> Option<NamedLink>
    ensures { result ≡ link_of_sense row direction cost }
{
    let cost = u64::try_from(cost).ok()?;
    let (from, to) = match direction {
        Direction::Forward => (row.source, row.target),
        Direction::Backward => (row.target, row.source),
    };
    Some(NamedLink {
        from,
        edge: row.id,
        cost,
        to,
    })
}

/// Appends the link, if there is one.
pub(crate) fn push(links: &mut Vec<NamedLink>, link: Option<NamedLink>) -> Result<(), NoMemory>
    ensures items { OnOk result (links.new.items ≡ links.old.items ++ option_to_list link) }
    ensures few { OnOk result (vec_len links.new ≤ vec_len links.old + 1) }
{
    if let Some(link) = link {
        links.push(link)?;
    }
    Ok(())
}

#[cfg(test)]
mod tests {
    use super::*;
    use pgr_table::read_edges;
    use std::test::Fail;

    const TABLE: &[u8] =
        b"id,source,target,cost,reverse_cost\n3,10,20,5,-1\n1,20,10,0,7\n2,30,30,4,4\n4,40,50,-1,-1\n";

    fn link(from: i64, edge: i64, cost: u64, to: i64) -> NamedLink {
        NamedLink {
            from,
            edge,
            cost,
            to,
        }
    }

    #[test]
    fn a_negative_cost_gives_no_link_and_a_loop_with_equal_costs_gives_one(
        rt: HostRuntime,
    ) -> Result<(), Fail> {
        let table = read_edges(rt.alloc(), TABLE, false)?;
        let one_way = links_of(rt.alloc(), &table, true)?;
        let expected = [
            link(10, 1, 7, 20),
            link(10, 3, 5, 20),
            link(20, 1, 0, 10),
            link(30, 2, 4, 30),
        ];
        assert_eq!(rt; one_way.as_slice(), expected.as_slice());
        let both_ways = links_of(rt.alloc(), &table, false)?;
        let expected = [
            link(10, 1, 0, 20),
            link(10, 1, 7, 20),
            link(10, 3, 5, 20),
            link(20, 1, 0, 10),
            link(20, 1, 7, 10),
            link(20, 3, 5, 10),
            link(30, 2, 4, 30),
        ];
        assert_eq!(rt; both_ways.as_slice(), expected.as_slice());
        Ok(())
    }

    #[test]
    fn links_by_row_stand_in_the_order_of_the_table_and_equal_costs_give_one_each_way(
        rt: HostRuntime,
    ) -> Result<(), Fail> {
        let bytes =
            b"id,source,target,cost,reverse_cost\n9,60,50,6,6\n2,30,30,4,4\n1,20,10,0,7\n3,10,20,5,-1\n";
        let table = read_edges(rt.alloc(), bytes, false)?;
        let one_way = links_by_row(rt.alloc(), &table, true)?;
        let expected = [
            link(60, 9, 6, 50),
            link(50, 9, 6, 60),
            link(30, 2, 4, 30),
            link(20, 1, 0, 10),
            link(10, 1, 7, 20),
            link(10, 3, 5, 20),
        ];
        assert_eq!(rt; one_way.as_slice(), expected.as_slice());
        let both_ways = links_by_row(rt.alloc(), &table, false)?;
        let expected = [
            link(60, 9, 6, 50),
            link(50, 9, 6, 60),
            link(30, 2, 4, 30),
            link(20, 1, 0, 10),
            link(20, 1, 7, 10),
            link(10, 1, 0, 20),
            link(10, 1, 7, 20),
            link(10, 3, 5, 20),
            link(20, 3, 5, 10),
        ];
        assert_eq!(rt; both_ways.as_slice(), expected.as_slice());
        Ok(())
    }
}
