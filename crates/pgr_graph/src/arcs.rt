ghost use Rattle.std.specs.Prelude.{◌≡◌, ◌↔◌, ◌++◌, ◌+◌, ◌*◌, ◌≤◌, ℤ, Contains, IfOk, OnOk, length, vec_len};
ghost use Rattle.std.specs.Option.{option_to_list};
ghost use Rattle.std.specs.Ordering.{int_cmp};
ghost use Rattle.pgr_walks.specs.declared.link.LinkOf.{LinkOf};
ghost use Rattle.pgr_walks.specs.Link.{arc_cmp};
ghost use Rattle.pgr_walks.specs.Graph.{IsStrictlyRising};
ghost use Rattle.pgr_graph.specs.declared.links.Direction.TheVariants.{Forward, Backward};
ghost use Rattle.pgr_graph.specs.Arcs.{IsArcOfTable};
ghost use Rattle.pgr_graph.specs.ArcSenses.{arc_of_sense};

use crate::links::{Direction, push};
use pgr_outside::NoMemory;
use pgr_table::{CapacityRow, CapacityTable};
use pgr_walks::NamedLink;
use std::alloc::Global;

/// The arcs of a table of capacities, each once, rising by edge, then by where they begin and where they lead.
///
/// An arc is a link of the flow network whose cost is its capacity. A row gives the arc from its source to its target with its
/// capacity where that is positive, and the arc from its target to its source with its reverse capacity where that is
/// positive. A row whose ends are equal gives none. `NoMemory` may come at any call.
pub fn arcs_of(alloc: Global, table: &CapacityTable) -> Result<Vec<NamedLink>, NoMemory>
    ensures arcs { IfOk result
        (λ arcs. (arc : LinkOf ℤ) → Contains arcs.items arc ↔ IsArcOfTable table.now arc) }
    ensures rising { IfOk result (λ arcs. IsStrictlyRising (arc_cmp int_cmp) arcs.items) }
    ensures few { IfOk result (λ arcs. vec_len arcs ≤ 2 * length table.now) }
{
    let rows = table.len();
    let mut arcs = Vec::with_capacity(alloc, 2 * rows)?;
    for i in 0..rows {
        push_arcs_of(&mut arcs, table.row(i))?;
    }
    arcs.sort_unstable_by_key(|arc| (arc.edge, arc.from, arc.to));
    Ok(arcs)
}

/// Appends the arcs that the row gives.
fn push_arcs_of(arcs: &mut Vec<NamedLink>, row: CapacityRow) -> Result<(), NoMemory>
    ensures items { OnOk result (arcs.new.items ≡ (arcs.old.items ++ option_to_list (arc_of_sense row Forward row.capacity))
        ++ option_to_list (arc_of_sense row Backward row.reverse_capacity)) }
    ensures few { OnOk result (vec_len arcs.new ≤ vec_len arcs.old + 2) }
{
    push(arcs, arc_of_sense(row, Direction::Forward, row.capacity))?;
    push(
        arcs,
        arc_of_sense(row, Direction::Backward, row.reverse_capacity),
    )
}

/// The arc along the row with the capacity, or none where the capacity isn't positive or the row's ends are equal.
fn arc_of_sense(row: CapacityRow, direction: Direction, capacity: i64) -> Option<NamedLink>
    ensures { result ≡ arc_of_sense row direction capacity }
{
    let cost = u64::try_from(capacity).ok()?;
    if cost == 0 {
        return None;
    }
    if row.source == row.target {
        return None;
    }
    let (from, to) = match direction {
        Direction::Forward => (row.source, row.target),
        Direction::Backward => (row.target, row.source),
    };
    Some(NamedLink {
        from,
        edge: row.id,
        cost,
        to,
    })
}

#[cfg(test)]
mod tests {
    use super::*;
    use pgr_table::read_capacities;
    use std::test::Fail;

    #[test]
    fn a_row_gives_an_arc_for_each_positive_capacity_unless_its_ends_are_equal(
        rt: HostRuntime,
    ) -> Result<(), Fail> {
        let bytes =
            b"id,source,target,capacity,reverse_capacity\n3,20,10,5,7\n1,10,20,0,4\n2,30,30,4,4\n4,40,50,-1,-1\n";
        let table = read_capacities(rt.alloc(), bytes)?;
        let arcs = arcs_of(rt.alloc(), &table)?;
        let expected = [
            NamedLink {
                from: 20,
                edge: 1,
                cost: 4,
                to: 10,
            },
            NamedLink {
                from: 10,
                edge: 3,
                cost: 7,
                to: 20,
            },
            NamedLink {
                from: 20,
                edge: 3,
                cost: 5,
                to: 10,
            },
        ];
        assert_eq!(rt; arcs.as_slice(), expected.as_slice());
        Ok(())
    }
}
