use super::*;
use pgr_walks::Link;
use std::test::Fail;

/// Vertices 1 to 4: from 1 two walks lead to 4, one by 2 and one by 3, and an arc leads from 2 to 3.
const TO_TWO: Link = Link {
    from: 1,
    edge: 1,
    cost: 1,
    to: 2,
};

const TO_THREE: Link = Link {
    from: 1,
    edge: 2,
    cost: 1,
    to: 3,
};

const ACROSS: Link = Link {
    from: 2,
    edge: 3,
    cost: 1,
    to: 3,
};

const TWO_ON: Link = Link {
    from: 2,
    edge: 4,
    cost: 1,
    to: 4,
};

const THREE_ON: Link = Link {
    from: 3,
    edge: 5,
    cost: 1,
    to: 4,
};

#[test]
fn a_network_has_the_size_and_the_arcs_it_was_made_of(rt: HostRuntime) -> Result<(), Fail> {
    let net = Net::make(4, vec![in rt.alloc(); TO_THREE]?);
    assert_eq!(rt; net.size(), 4);
    assert_eq!(rt; net.arcs(), [TO_THREE].as_slice());
    Ok(())
}

#[test]
fn a_flow_of_two_walks_and_its_cut(rt: HostRuntime) -> Result<(), Fail> {
    let arcs = vec![in rt.alloc(); TO_TWO, TO_THREE, ACROSS, TWO_ON, THREE_ON]?;
    let net = Net::make(5, arcs);
    let found = greatest_flow(rt.alloc(), &net, &[1], &[4])?;
    assert_eq!(rt; found.value, 2);
    assert_eq!(rt; found.flows.as_slice(), [1, 1, 0, 1, 1].as_slice());
    assert_eq!(rt;
        found.side.as_slice(),
        [false, true, false, false, false].as_slice()
    );
    Ok(())
}

#[test]
fn lists_may_repeat_a_vertex_and_may_be_empty(rt: HostRuntime) -> Result<(), Fail> {
    let net = Net::make(4, vec![in rt.alloc(); TO_TWO]?);
    let found = greatest_flow(rt.alloc(), &net, &[1, 1], &[2, 2])?;
    assert_eq!(rt; found.value, 1);
    let found = greatest_flow(rt.alloc(), &net, &[1], &[])?;
    assert_eq!(rt; found.value, 0);
    assert_eq!(rt;
        found.side.as_slice(),
        [false, true, true, false].as_slice()
    );
    let found = greatest_flow(rt.alloc(), &net, &[], &[1])?;
    assert_eq!(rt; found.value, 0);
    assert_eq!(rt;
        found.side.as_slice(),
        [false, false, false, false].as_slice()
    );
    Ok(())
}
