use crate::case::Case;
use crate::tables::{CLASSES, EDGES, NODES};
use pgr_run::Status;
use std::process::Abort;
use std::test::Fail;

/// Two triangles at vertex 3, a tail from one of them to 6, and a self loop there.
const TRIANGLES: &[u8] = b"id,source,target,cost\n\
    1,1,2,1\n\
    2,2,3,1\n\
    3,1,3,1\n\
    4,3,4,1\n\
    5,4,5,1\n\
    6,5,3,1\n\
    7,5,6,1\n\
    8,6,6,1\n";

/// A triangle at vertex 3, an edge from there to 4, a self loop at 4, and two edges between 4 and 5.
const TRIANGLE: &[u8] = b"id,source,target,cost\n\
    1,1,2,1\n\
    2,2,3,1\n\
    3,1,3,1\n\
    4,3,4,1\n\
    5,4,4,1\n\
    6,4,5,1\n\
    7,4,5,1\n";

/// What is said of a third word with an option that the function doesn't have.
const UNKNOWN: &str = "pgr: unknown option in word 3\n";

/// The three functions answer these rows.
fn answer(
    rt: &(impl Abort + AllocGlobal),
    edges: &[u8],
    classes: &str,
    points: &str,
    bridges: &str,
) -> Result<(), Fail> {
    let case = Case::over(edges);
    case.answers(
        rt,
        "pgr_biconnectedComponents --edges=a.csv",
        CLASSES,
        classes,
    )?;
    case.answers(rt, "pgr_articulationPoints --edges=a.csv", NODES, points)?;
    case.answers(rt, "pgr_bridges --edges=a.csv", EDGES, bridges)
}

#[test]
fn two_triangles_at_a_vertex_a_tail_and_a_self_loop(rt: HostRuntime) -> Result<(), Fail> {
    answer(
        &rt,
        TRIANGLES,
        "1,1,1\n\
         2,1,2\n\
         3,1,3\n\
         4,4,4\n\
         5,4,5\n\
         6,4,6\n\
         7,7,7\n\
         8,8,8\n",
        "3\n5\n",
        "7\n",
    )
}

#[test]
fn a_triangle_a_bridge_a_self_loop_and_parallel_edges(rt: HostRuntime) -> Result<(), Fail> {
    answer(
        &rt,
        TRIANGLE,
        "1,1,1\n\
         2,1,2\n\
         3,1,3\n\
         4,4,4\n\
         5,5,5\n\
         6,6,6\n\
         7,6,7\n",
        "3\n4\n",
        "4\n",
    )
}

#[test]
fn a_row_whose_directions_cost_differently_is_one_edge_and_a_bridge(
    rt: HostRuntime,
) -> Result<(), Fail> {
    answer(
        &rt,
        b"id,source,target,cost,reverse_cost\n1,1,2,1,3\n",
        "1,1,1\n",
        "",
        "1\n",
    )
}

#[test]
fn a_row_that_leads_back_alone_is_an_edge_and_one_that_leads_neither_way_is_none(
    rt: HostRuntime,
) -> Result<(), Fail> {
    answer(
        &rt,
        b"id,source,target,cost,reverse_cost\n1,1,2,-1,3\n2,2,3,-1,-1\n3,3,2,0,-1\n",
        "1,1,1\n2,3,3\n",
        "2\n",
        "1\n3\n",
    )
}

#[test]
fn one_self_loop_is_a_block_and_no_bridge(rt: HostRuntime) -> Result<(), Fail> {
    answer(&rt, b"id,source,target,cost\n4,1,1,1\n", "1,4,4\n", "", "")
}

#[test]
fn parallel_edges_are_one_block_and_rows_are_by_block_and_then_by_edge(
    rt: HostRuntime,
) -> Result<(), Fail> {
    answer(
        &rt,
        b"id,source,target,cost\n5,2,1,7\n2,2,3,1\n1,1,2,1\n",
        "1,1,1\n2,1,5\n3,2,2\n",
        "2\n",
        "2\n",
    )
}

#[test]
fn no_row_has_no_block(rt: HostRuntime) -> Result<(), Fail> {
    answer(&rt, b"id,source,target,cost\n", "", "", "")
}

#[test]
fn blocks_have_no_directions(rt: HostRuntime) -> Result<(), Fail> {
    for line in [
        "pgr_biconnectedComponents --edges=a.csv --directed=true",
        "pgr_articulationPoints --edges=a.csv --directed=true",
        "pgr_bridges --edges=a.csv --directed=true",
    ] {
        Case::over(TRIANGLE).refuses(&rt, line, Status::Words, UNKNOWN)?;
    }
    Ok(())
}
