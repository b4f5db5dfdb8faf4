use super::{connected, strong};
use pgr_walks::{Link, ListGraph};
use std::test::Fail;

// A cycle of 2 and 3, from which a link leads to 1, which has a self loop. No link leads to 0 or from it.
const THREE_TO_TWO: Link = Link {
    from: 3,
    edge: 1,
    cost: 1,
    to: 2,
};

const TWO_TO_THREE: Link = Link {
    from: 2,
    edge: 1,
    cost: 1,
    to: 3,
};

const TWO_TO_ONE: Link = Link {
    from: 2,
    edge: 2,
    cost: 1,
    to: 1,
};

const ONE_TO_ONE: Link = Link {
    from: 1,
    edge: 3,
    cost: 1,
    to: 1,
};

#[test]
fn each_vertex_has_the_least_of_its_class(rt: HostRuntime) -> Result<(), Fail> {
    let links = vec![in rt.alloc(); THREE_TO_TWO, TWO_TO_THREE, TWO_TO_ONE, ONE_TO_ONE]?;
    let graph = ListGraph::from_links(rt.alloc(), 4, links)?;
    assert_eq!(rt;
        connected(rt.alloc(), &graph)?.as_slice(),
        [0, 1, 1, 1].as_slice()
    );
    assert_eq!(rt;
        strong(rt.alloc(), &graph)?.as_slice(),
        [0, 1, 2, 2].as_slice()
    );
    Ok(())
}
