use super::*;
use crate::link::Link;
use crate::list_graph::ListGraph;
use std::test::Fail;

// Two links lead from 0 to 1, one from 2 to 1, and one from 1 to itself.
const SLOW: Link = Link {
    from: 0,
    edge: 3,
    cost: 9,
    to: 1,
};

const QUICK: Link = Link {
    from: 0,
    edge: 3,
    cost: 1,
    to: 1,
};

const BACK: Link = Link {
    from: 2,
    edge: 2,
    cost: 1,
    to: 1,
};

const LOOP: Link = Link {
    from: 1,
    edge: 4,
    cost: 0,
    to: 1,
};

#[test]
fn each_link_has_its_far_end_in_the_list_of_a_vertex(rt: HostRuntime) -> Result<(), Fail> {
    let links = vec![in rt.alloc(); SLOW, QUICK, BACK, LOOP]?;
    let graph = ListGraph::from_links(rt.alloc(), 3, links)?;
    let heads = Adjacency::heads(rt.alloc(), &graph)?;
    assert_eq!(rt; heads.size(), 3);
    assert_eq!(rt; heads.of(0), [1, 1].as_slice());
    assert_eq!(rt; heads.of(1), [1].as_slice());
    assert_eq!(rt; heads.of(2), [1].as_slice());
    let neighbours = Adjacency::neighbours(rt.alloc(), &graph)?;
    assert_eq!(rt; neighbours.of(0), [1, 1].as_slice());
    assert_eq!(rt; neighbours.of(1), [1, 2, 0, 0, 1].as_slice());
    assert_eq!(rt; neighbours.of(2), [1].as_slice());
    Ok(())
}
