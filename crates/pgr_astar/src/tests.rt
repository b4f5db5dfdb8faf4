ghost use Rattle.std.specs.Prelude.{◌≡◌, ◌≤◌, All, IfOk};
ghost use Rattle.pgr_walks.specs.Graph.{Fits};
ghost use Rattle.pgr_walks.specs.LinksOf.{LinksOf};
ghost use Rattle.pgr_walks.specs.ListGraph.{HasEndsBelow};
ghost use Rattle.pgr_walks.specs.Walk.{IsWithoutRepeats};

use super::{AstarRoom, Potential, astar_route, first_inconsistent};
use pgr_numbers::{Names, names_are_few};
use pgr_outside::NoMemory;
use pgr_table::read_edges;
use pgr_walks::{Graph, Link, NamedLink, RowGraph, small_costs_fit};
use pgr_words::{Factor, Heuristic};
use std::alloc::Global;
use std::test::Fail;

/// Two walks of cost 3 and two links lead from 0 to 3, by 1 and by 2.
const TO_ONE: Link = Link {
    from: 0,
    edge: 7,
    cost: 2,
    to: 1,
};

const TO_TWO: Link = Link {
    from: 0,
    edge: 3,
    cost: 2,
    to: 2,
};

const ONE_ON: Link = Link {
    from: 1,
    edge: 1,
    cost: 1,
    to: 3,
};

const TWO_ON: Link = Link {
    from: 2,
    edge: 9,
    cost: 1,
    to: 3,
};

/// A graph of four vertices whose links cost at most 9, so that it fits.
fn graph_of_four(alloc: Global, links: Vec<Link>) -> Result<RowGraph, NoMemory>
    requires ends { All (HasEndsBelow 4) links.items }
    requires once { IsWithoutRepeats links.items }
    requires costs { All (λ link. link.cost ≤ 9) links.items }
    ensures size { IfOk result (λ graph. ⟦<RowGraph as Graph>⟧.count graph ≡ 4) }
    ensures fits { IfOk result (λ graph. Fits (LinksOf ⟦<RowGraph as Graph>⟧ graph)) }
{
    let graph = RowGraph::from_links(alloc, 4, links)?;
    small_costs_fit(&graph);
    Ok(graph)
}

#[test]
fn estimates_are_distances_from_the_start_times_the_factor(rt: HostRuntime) -> Result<(), Fail> {
    let bytes = b"id,source,target,cost,x1,y1,x2,y2\n1,5,7,3,0,0,3,-4\n";
    let table = read_edges(rt.alloc(), bytes, true)?;
    assert!(rt; table.len() == 1);
    let row = table.row(0);
    assert!(rt; row.source == 5);
    assert!(rt; row.target == 7);
    let link = NamedLink {
        from: 5,
        edge: 1,
        cost: 3,
        to: 7,
    };
    names_are_few(&[link]);
    let names = Names::of(rt.alloc(), &[link])?;
    assert!(rt; names.len() == 2);
    assert!(rt; names.name(0) == 5);
    assert!(rt; names.name(1) == 7);
    let factor = Factor { over: 3, under: 2 };
    let potential = Potential::make(rt.alloc(), &table, &names, 5, Heuristic::H5, factor)?;
    assert_eq!(rt; potential.value(0), 0);
    assert_eq!(rt; potential.value(1), 10);
    Ok(())
}

#[test]
fn the_least_route_is_found_and_where_no_walk_leads_none_is(rt: HostRuntime) -> Result<(), Fail> {
    let links = vec![in rt.alloc(); TO_ONE, TO_TWO, ONE_ON, TWO_ON]?;
    let graph = graph_of_four(rt.alloc(), links)?;
    let potential = Potential::zero(rt.alloc(), 4)?;
    let mut room = AstarRoom::for_size(rt.alloc(), 4)?;
    assert!(rt; first_inconsistent(&graph, &potential).is_none());
    let there = astar_route(rt.alloc(), &graph, 0, 3, &potential, &mut room)?;
    let there = there.expect(&rt, "a walk leads from 0 to 3");
    assert_eq!(rt; there.links(), [TO_TWO, TWO_ON].as_slice());
    let back = astar_route(rt.alloc(), &graph, 3, 0, &potential, &mut room)?;
    assert!(rt; back.is_none());
    Ok(())
}
