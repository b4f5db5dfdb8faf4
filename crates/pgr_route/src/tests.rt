ghost use Rattle.std.specs.Prelude.{◌≡◌, ◌≤◌, All, IfOk};
ghost use Rattle.pgr_walks.specs.Graph.{Fits};
ghost use Rattle.pgr_walks.specs.LinksOf.{LinksOf};
ghost use Rattle.pgr_walks.specs.ListGraph.{HasEndsBelow};
ghost use Rattle.pgr_walks.specs.Walk.{IsWithoutRepeats};

use super::*;
use pgr_numbers::{Names, names_are_few};
use pgr_outside::NoMemory;
use pgr_search::{Room, labels_to};
use pgr_walks::{Graph, Link, ListGraph, NamedLink, small_costs_fit};
use std::alloc::Global;
use std::test::Fail;

// Vertices 0 to 4. Two walks of cost 3 and two links lead from 0 to 3, by 1 and by 2.
const TO_ONE: Link = Link {
    from: 0,
    edge: 7,
    cost: 2,
    to: 1,
};

const TO_TWO: Link = Link {
    from: 0,
    edge: 3,
    cost: 2,
    to: 2,
};

const SLOWER: Link = Link {
    from: 0,
    edge: 2,
    cost: 9,
    to: 2,
};

const ONE_ON: Link = Link {
    from: 1,
    edge: 1,
    cost: 1,
    to: 3,
};

const TWO_ON: Link = Link {
    from: 2,
    edge: 9,
    cost: 1,
    to: 3,
};

const ROUND: Link = Link {
    from: 2,
    edge: 0,
    cost: 0,
    to: 2,
};

// A graph of five vertices whose links cost at most 9, so that it fits.
fn graph_of_five(alloc: Global, links: Vec<Link>) -> Result<ListGraph, NoMemory>
    requires ends { All (HasEndsBelow 5) links.items }
    requires once { IsWithoutRepeats links.items }
    requires costs { All (λ link. link.cost ≤ 9) links.items }
    ensures size { IfOk result (λ graph. ⟦<ListGraph as Graph>⟧.count graph ≡ 5) }
    ensures fits { IfOk result (λ graph. Fits (LinksOf ⟦<ListGraph as Graph>⟧ graph)) }
{
    let graph = ListGraph::from_links(alloc, 5, links)?;
    small_costs_fit(&graph);
    Ok(graph)
}

#[test]
fn the_lesser_first_edge_decides_at_equal_cost_and_hops(rt: HostRuntime) -> Result<(), Fail> {
    let links = vec![in rt.alloc(); TO_ONE, TWO_ON, SLOWER, ROUND, ONE_ON, TO_TWO]?;
    let graph = graph_of_five(rt.alloc(), links)?;
    let mut room = Room::for_size(rt.alloc(), 5)?;
    labels_to(&graph, [3].as_slice(), &mut room);
    match least_route(rt.alloc(), &graph, 0, &room)? {
        Some(route) => {
            assert_eq!(rt; route.links(), [TO_TWO, TWO_ON].as_slice());
            assert_eq!(rt; route.cost(), 3);
        }
        None => assert!(rt; false, "a walk leads from 0 to 3"),
    }
    match least_route(rt.alloc(), &graph, 3, &room)? {
        Some(route) => assert!(rt; route.links().is_empty()),
        None => assert!(rt; false, "3 is a target"),
    }
    assert!(rt; least_route(rt.alloc(), &graph, 4, &room)?.is_none());
    Ok(())
}

#[test]
fn a_step_has_the_cost_up_to_its_vertex(rt: HostRuntime) -> Result<(), Fail> {
    let first = NamedLink {
        from: 10,
        edge: 7,
        cost: 2,
        to: 20,
    };
    let second = NamedLink {
        from: 20,
        edge: 1,
        cost: 5,
        to: -30,
    };
    let named = [first, second];
    names_are_few(named.as_slice());
    let names = Names::of(rt.alloc(), named.as_slice())?;
    assert_eq!(rt; names.len(), 3);
    let links = vec![in rt.alloc();
        Link {
            from: 1,
            edge: 7,
            cost: 2,
            to: 2
        },
        Link {
            from: 2,
            edge: 1,
            cost: 5,
            to: 0
        },
    ]?;
    let route = Route::of(links);
    let steps = steps(rt.alloc(), &route, &names)?;
    let want = [
        Step {
            node: 10,
            edge: 7,
            cost: 2,
            agg: 0,
        },
        Step {
            node: 20,
            edge: 1,
            cost: 5,
            agg: 2,
        },
        Step {
            node: -30,
            edge: -1,
            cost: 0,
            agg: 7,
        },
    ];
    assert_eq!(rt; steps.as_slice(), want.as_slice());
    Ok(())
}
