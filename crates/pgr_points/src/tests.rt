use super::{collapse, with_points};
use pgr_outside::Side;
use pgr_route::Step;
use pgr_table::{read_edges, read_points};
use pgr_walks::NamedLink;
use std::test::Fail;

const EDGES: &[u8] = b"id,source,target,cost,reverse_cost\n1,1,2,3,3\n2,5,5,1,-1\n3,2,9,4,4\n";

fn link(from: i64, edge: i64, cost: u64, to: i64) -> NamedLink {
    NamedLink {
        from,
        edge,
        cost,
        to,
    }
}

#[test]
fn parts_are_measured_from_the_source_of_the_edge_both_ways(rt: HostRuntime) -> Result<(), Fail> {
    let edges = read_edges(
        rt.alloc(),
        b"id,source,target,cost,reverse_cost\n1,1,2,3,3\n",
        false,
    )?;
    let points = read_points(rt.alloc(), b"pid,edge_id,fraction,side\n1,1,0.5,b\n")?;
    let links = with_points(rt.alloc(), &edges, &points, Side::B, true)?;
    let expected = [
        link(-1, 1, 1, 1),
        link(-1, 1, 2, 2),
        link(1, 1, 1, -1),
        link(2, 1, 2, -1),
    ];
    assert_eq!(rt; links.as_slice(), expected.as_slice());
    Ok(())
}

#[test]
fn points_that_no_link_sees_are_no_vertices_and_equal_fractions_stand_by_id(
    rt: HostRuntime,
) -> Result<(), Fail> {
    let edges = read_edges(rt.alloc(), EDGES, false)?;
    // Points 8 and 7 at half of the loop, 4 to the left of edge 3, and 6 on no edge.
    let table = b"fraction,pid,edge_id,side\n1/2,8,2,\n0.5,7,2,b\n3/4,4,3,l\n0.5,6,77,b\n";
    let points = read_points(rt.alloc(), table)?;
    let links = with_points(rt.alloc(), &edges, &points, Side::R, true)?;
    let expected = [
        link(-8, 2, 1, 5),
        link(-7, 2, 0, -8),
        link(-4, 3, 3, 2),
        link(1, 1, 3, 2),
        link(2, 1, 3, 1),
        link(2, 3, 4, 9),
        link(5, 2, 0, -7),
        link(9, 3, 1, -4),
    ];
    assert_eq!(rt; links.as_slice(), expected.as_slice());
    Ok(())
}

fn step(node: i64, edge: i64, cost: u64, agg: u64) -> Step {
    Step {
        node,
        edge,
        cost,
        agg,
    }
}

#[test]
fn inner_points_leave_their_costs_to_the_row_before_them(rt: HostRuntime) -> Result<(), Fail> {
    let mut rows = Vec::from_array(
        rt.alloc(),
        [
            Step {
                node: -3,
                edge: 1,
                cost: 1,
                agg: 0,
            },
            Step {
                node: -1,
                edge: 1,
                cost: 2,
                agg: 1,
            },
            Step {
                node: 2,
                edge: -1,
                cost: 0,
                agg: 3,
            },
        ],
    )?;
    collapse(&mut rows);
    let expected = [step(-3, 1, 3, 0), step(2, -1, 0, 3)];
    assert_eq!(rt; rows.as_slice(), expected.as_slice());
    Ok(())
}
