use crate::case::Case;
use crate::tables::{A, B, REACHES};
use pgr_run::Status;
use std::test::Fail;

#[test]
fn a_vertex_at_the_distance_is_within_it(rt: HostRuntime) -> Result<(), Fail> {
    Case::over(A).answers(
        &rt,
        "pgr_drivingDistance --edges=a.csv --start=1 --distance=7",
        REACHES,
        "1,0,1,1,1,-1,0,0\n\
         2,1,1,1,2,1,3,3\n\
         3,2,1,2,3,2,4,7\n\
         4,3,1,3,4,4,0,7\n",
    )
}

#[test]
fn a_vertex_beyond_the_distance_is_not_within_it(rt: HostRuntime) -> Result<(), Fail> {
    Case::over(A).answers(
        &rt,
        "pgr_drivingDistance --edges=a.csv --start=1 --distance=4",
        REACHES,
        "1,0,1,1,1,-1,0,0\n\
         2,1,1,1,2,1,3,3\n",
    )
}

#[test]
fn of_tight_links_the_least_edge_is_the_tree_link(rt: HostRuntime) -> Result<(), Fail> {
    Case::over(B).answers(
        &rt,
        "pgr_drivingDistance --edges=a.csv --start=1 --distance=5",
        REACHES,
        "1,0,1,1,1,-1,0,0\n\
         2,1,1,1,3,2,1,1\n\
         3,1,1,1,5,0,1,1\n\
         4,1,1,1,2,1,2,2\n\
         5,2,1,5,6,5,1,2\n\
         6,2,1,3,4,3,4,5\n",
    )
}

#[test]
fn each_vertex_is_under_its_closest_start_of_all(rt: HostRuntime) -> Result<(), Fail> {
    Case::over(A).answers(
        &rt,
        "pgr_drivingDistance --edges=a.csv --start=1,3 --distance=3 --equicost=true",
        REACHES,
        "1,0,1,1,1,-1,0,0\n\
         2,1,1,1,2,1,3,3\n\
         3,0,3,3,3,-1,0,0\n\
         4,1,3,3,4,4,0,0\n",
    )
}

/// Vertex 2 is as far from 1 as from 3.
const BETWEEN: &[u8] = b"id,source,target,cost\n1,1,2,2\n2,3,2,2\n";

#[test]
fn a_vertex_as_close_to_two_starts_is_under_the_less(rt: HostRuntime) -> Result<(), Fail> {
    Case::over(BETWEEN).answers(
        &rt,
        "pgr_drivingDistance --edges=a.csv --start=3,1 --distance=2 --equicost=true",
        REACHES,
        "1,0,1,1,1,-1,0,0\n\
         2,1,1,1,2,1,2,2\n\
         3,0,3,3,3,-1,0,0\n",
    )?;
    Case::over(BETWEEN).answers(
        &rt,
        "pgr_drivingDistance --edges=a.csv --start=3,1 --distance=2",
        REACHES,
        "1,0,1,1,1,-1,0,0\n\
         2,1,1,1,2,1,2,2\n\
         3,0,3,3,3,-1,0,0\n\
         4,1,3,3,2,2,2,2\n",
    )
}

#[test]
fn a_start_that_a_lesser_start_is_at_has_no_row(rt: HostRuntime) -> Result<(), Fail> {
    Case::over(A).answers(
        &rt,
        "pgr_drivingDistance --edges=a.csv --start=3,4 --distance=0 --equicost=true",
        REACHES,
        "1,0,3,3,3,-1,0,0\n\
         2,1,3,3,4,4,0,0\n",
    )
}

#[test]
fn a_start_that_is_no_vertex_has_no_row(rt: HostRuntime) -> Result<(), Fail> {
    Case::over(A).answers(
        &rt,
        "pgr_drivingDistance --edges=a.csv --start=9 --distance=7",
        REACHES,
        "",
    )
}

#[test]
fn a_loop_of_cost_0_is_no_way_to_a_start(rt: HostRuntime) -> Result<(), Fail> {
    Case::over(b"id,source,target,cost\n7,1,1,0\n8,1,2,5\n").answers(
        &rt,
        "pgr_drivingDistance --edges=a.csv --start=1 --distance=5",
        REACHES,
        "1,0,1,1,1,-1,0,0\n\
         2,1,1,1,2,8,5,5\n",
    )
}

#[test]
fn driving_distance_takes_no_combinations(rt: HostRuntime) -> Result<(), Fail> {
    Case::over(A).refuses(
        &rt,
        "pgr_drivingDistance --edges=a.csv --start=1 --distance=1 --combinations=p.csv",
        Status::Words,
        "pgr: unknown option in word 5\n",
    )
}
