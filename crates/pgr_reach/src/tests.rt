ghost use Rattle.std.specs.Prelude.{◌≡◌, ◌≤◌, All, IfOk};
ghost use Rattle.pgr_walks.specs.Graph.{Fits};
ghost use Rattle.pgr_walks.specs.LinksOf.{LinksOf};
ghost use Rattle.pgr_walks.specs.ListGraph.{HasEndsBelow};
ghost use Rattle.pgr_walks.specs.Walk.{IsWithoutRepeats};

use super::{Reached, within};
use pgr_outside::NoMemory;
use pgr_walks::{Graph, Label, Link, RowGraph, small_costs_fit};
use std::alloc::Global;
use std::test::Fail;

/// Two walks of cost 3 and two links lead from 0 to 3, by 1 and by 2, and a loop of cost 0 comes back to 0.
const LOOP: Link = Link {
    from: 0,
    edge: 0,
    cost: 0,
    to: 0,
};

const TO_ONE: Link = Link {
    from: 0,
    edge: 7,
    cost: 2,
    to: 1,
};

const TO_TWO: Link = Link {
    from: 0,
    edge: 3,
    cost: 2,
    to: 2,
};

const ONE_ON: Link = Link {
    from: 1,
    edge: 1,
    cost: 1,
    to: 3,
};

const TWO_ON: Link = Link {
    from: 2,
    edge: 9,
    cost: 1,
    to: 3,
};

/// A graph of five vertices whose links cost at most 9, so that it fits.
fn graph_of_five(alloc: Global, links: Vec<Link>) -> Result<RowGraph, NoMemory>
    requires ends { All (HasEndsBelow 5) links.items }
    requires once { IsWithoutRepeats links.items }
    requires costs { All (λ link. link.cost ≤ 9) links.items }
    ensures size { IfOk result (λ graph. ⟦<RowGraph as Graph>⟧.count graph ≡ 5) }
    ensures fits { IfOk result (λ graph. Fits (LinksOf ⟦<RowGraph as Graph>⟧ graph)) }
{
    let graph = RowGraph::from_links(alloc, 5, links)?;
    small_costs_fit(&graph);
    Ok(graph)
}

fn reached(node: u32, cost: u64, hops: u32, pred: u32, edge: i64, link_cost: u64) -> Reached {
    Reached {
        node,
        label: Label { cost, hops },
        pred,
        edge,
        cost: link_cost,
    }
}

#[test]
fn a_vertex_exactly_at_the_limit_is_within_it(rt: HostRuntime) -> Result<(), Fail> {
    let links = vec![in rt.alloc(); TO_ONE, TWO_ON, LOOP, ONE_ON, TO_TWO]?;
    let graph = graph_of_five(rt.alloc(), links)?;
    let rows = [
        reached(0, 0, 0, 0, -1, 0),
        reached(1, 2, 1, 0, 7, 2),
        reached(2, 2, 1, 0, 3, 2),
        reached(3, 3, 2, 1, 1, 1),
    ];
    let reach = within(rt.alloc(), &graph, 0, 3)?;
    assert_eq!(rt; reach.root, 0);
    assert_eq!(rt; reach.rows.as_slice(), rows.as_slice());
    let nearer = within(rt.alloc(), &graph, 0, 2)?;
    assert_eq!(rt; nearer.rows.as_slice(), &rows[..3]);
    Ok(())
}
