ghost use Rattle.std.specs.Prelude.{◌≡◌, ◌≤◌, All, IfOk};
ghost use Rattle.pgr_walks.specs.Graph.{Fits};
ghost use Rattle.pgr_walks.specs.LinksOf.{LinksOf};
ghost use Rattle.pgr_walks.specs.ListGraph.{HasEndsBelow};
ghost use Rattle.pgr_walks.specs.Walk.{IsWithoutRepeats};

use super::Paths;
use pgr_outside::NoMemory;
use pgr_route::Route;
use pgr_walks::{Graph, Link, RowGraph, small_costs_fit};
use std::alloc::Global;
use std::test::Fail;

/// Vertices 0 to 2. Routes of cost 3 and 5 lead from 0 to 2 by 1, over two parallel links of one edge, and one of
/// cost 5 leads there at once, with fewer links; a loop is in no route.
const TO_ONE: Link = Link {
    from: 0,
    edge: 7,
    cost: 2,
    to: 1,
};

const TO_ONE_SLOWER: Link = Link {
    from: 0,
    edge: 7,
    cost: 4,
    to: 1,
};

const ONE_ON: Link = Link {
    from: 1,
    edge: 1,
    cost: 1,
    to: 2,
};

const AT_ONCE: Link = Link {
    from: 0,
    edge: 8,
    cost: 5,
    to: 2,
};

const LOOP: Link = Link {
    from: 1,
    edge: 0,
    cost: 0,
    to: 1,
};

/// A graph of three vertices whose links cost at most 9, so that it fits.
fn graph_of_three(alloc: Global, links: Vec<Link>) -> Result<RowGraph, NoMemory>
    requires ends { All (HasEndsBelow 3) links.items }
    requires once { IsWithoutRepeats links.items }
    requires costs { All (λ link. link.cost ≤ 9) links.items }
    ensures size { IfOk result (λ graph. ⟦<RowGraph as Graph>⟧.count graph ≡ 3) }
    ensures fits { IfOk result (λ graph. Fits (LinksOf ⟦<RowGraph as Graph>⟧ graph)) }
{
    let graph = RowGraph::from_links(alloc, 3, links)?;
    small_costs_fit(&graph);
    Ok(graph)
}

/// Whether a route was given, and has these links.
fn is_route(found: Option<Route>, links: &[Link]) -> bool {
    match found {
        Some(route) => route.links() == links,
        None => false,
    }
}

#[test]
fn routes_come_in_order_until_none_is_left(rt: HostRuntime) -> Result<(), Fail> {
    let links = vec![in rt.alloc(); TO_ONE_SLOWER, LOOP, AT_ONCE, TO_ONE, ONE_ON]?;
    let graph = graph_of_three(rt.alloc(), links)?;
    let mut paths = Paths::start(rt.alloc(), &graph, 0, 2)?;
    assert!(rt; is_route(paths.next()?, [TO_ONE, ONE_ON].as_slice()));
    assert!(rt; is_route(paths.next()?, [AT_ONCE].as_slice()));
    assert!(rt; is_route(paths.next()?, [TO_ONE_SLOWER, ONE_ON].as_slice()));
    assert!(rt; paths.next()?.is_none());
    assert!(rt; paths.next()?.is_none());
    Ok(())
}
