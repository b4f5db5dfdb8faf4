use crate::case::Case;
use crate::tables::{A, A_EXPORTED, B, C, PATHS};
use std::test::Fail;

#[test]
fn the_least_path_is_printed_link_by_link(rt: HostRuntime) -> Result<(), Fail> {
    Case::over(A).answers(
        &rt,
        "pgr_dijkstra --edges=a.csv --start=1 --end=4",
        PATHS,
        "1,1,1,4,1,1,3,0\n\
         2,2,1,4,2,2,4,3\n\
         3,3,1,4,3,4,0,7\n\
         4,4,1,4,4,-1,0,7\n",
    )
}

#[test]
fn an_edge_has_another_cost_on_the_way_back(rt: HostRuntime) -> Result<(), Fail> {
    Case::over(A).answers(
        &rt,
        "pgr_dijkstra --edges=a.csv --start=4 --end=2",
        PATHS,
        "1,1,4,2,4,4,0,0\n\
         2,2,4,2,3,3,1,0\n\
         3,3,4,2,1,1,3,1\n\
         4,4,4,2,2,-1,0,4\n",
    )
}

#[test]
fn the_undirected_graph_has_each_cost_both_ways(rt: HostRuntime) -> Result<(), Fail> {
    Case::over(A).answers(
        &rt,
        "pgr_dijkstra --edges=a.csv --start=1 --end=4 --directed=false",
        PATHS,
        "1,1,1,4,1,3,1,0\n\
         2,2,1,4,3,4,0,1\n\
         3,3,1,4,4,-1,0,1\n",
    )
}

#[test]
fn of_least_paths_that_of_fewest_links_and_then_of_least_edges_is_printed(
    rt: HostRuntime,
) -> Result<(), Fail> {
    Case::over(B).answers(
        &rt,
        "pgr_dijkstra --edges=a.csv --start=1 --end=4",
        PATHS,
        "1,1,1,4,1,1,2,0\n\
         2,2,1,4,2,9,3,2\n\
         3,3,1,4,4,-1,0,5\n",
    )
}

#[test]
fn a_cycle_of_cost_zero_is_on_no_path(rt: HostRuntime) -> Result<(), Fail> {
    Case::over(C).answers(
        &rt,
        "pgr_dijkstra --edges=a.csv --start=1 --end=4",
        PATHS,
        "1,1,1,4,1,1,0,0\n\
         2,2,1,4,2,2,0,0\n\
         3,3,1,4,3,3,5,0\n\
         4,4,1,4,4,-1,0,5\n",
    )
}

#[test]
fn paths_come_by_rising_pairs_and_rows_are_numbered_over_all(rt: HostRuntime) -> Result<(), Fail> {
    Case::over(A).answers(
        &rt,
        "pgr_dijkstra --edges=a.csv --start=4,1 --end=4,2",
        PATHS,
        "1,1,1,2,1,1,3,0\n\
         2,2,1,2,2,-1,0,3\n\
         3,1,1,4,1,1,3,0\n\
         4,2,1,4,2,2,4,3\n\
         5,3,1,4,3,4,0,7\n\
         6,4,1,4,4,-1,0,7\n\
         7,1,4,2,4,4,0,0\n\
         8,2,4,2,3,3,1,0\n\
         9,3,4,2,1,1,3,1\n\
         10,4,4,2,2,-1,0,4\n",
    )
}

#[test]
fn no_path_leads_from_a_vertex_to_itself(rt: HostRuntime) -> Result<(), Fail> {
    let line = "pgr_dijkstra --edges=a.csv --start=1 --end=1";
    Case::over(A).answers(&rt, line, PATHS, "")?;
    let line = "pgr_dijkstra --edges=a.csv --start=1,9 --end=1";
    Case::over(A).answers(&rt, line, PATHS, "")
}

#[test]
fn no_path_leads_from_or_to_a_number_that_is_no_vertex(rt: HostRuntime) -> Result<(), Fail> {
    let line = "pgr_dijkstra --edges=a.csv --start=9 --end=1";
    Case::over(A).answers(&rt, line, PATHS, "")?;
    let line = "pgr_dijkstra --edges=a.csv --start=-1,9 --end=1";
    Case::over(A).answers(&rt, line, PATHS, "")?;
    let line = "pgr_dijkstra --edges=a.csv --start=1 --end=9223372036854775807";
    Case::over(A).answers(&rt, line, PATHS, "")
}

#[test]
fn no_path_leads_against_an_edge_without_a_way_back(rt: HostRuntime) -> Result<(), Fail> {
    let line = "pgr_dijkstra --edges=a.csv --start=4 --end=1";
    Case::over(C).answers(&rt, line, PATHS, "")
}

#[test]
fn options_come_in_any_order_and_numbers_with_zeros_in_front(rt: HostRuntime) -> Result<(), Fail> {
    Case::over(A).answers(
        &rt,
        "pgr_dijkstra --end=4 --start=003 --edges=a.csv",
        PATHS,
        "1,1,3,4,3,4,0,0\n\
         2,2,3,4,4,-1,0,0\n",
    )
}

#[test]
fn columns_are_found_by_name_among_others(rt: HostRuntime) -> Result<(), Fail> {
    Case::over(A_EXPORTED).answers(
        &rt,
        "pgr_dijkstra --edges=a.csv --start=1 --end=4",
        PATHS,
        "1,1,1,4,1,1,3,0\n\
         2,2,1,4,2,2,4,3\n\
         3,3,1,4,3,4,0,7\n\
         4,4,1,4,4,-1,0,7\n",
    )
}

#[test]
fn a_path_may_cost_the_greatest_number(rt: HostRuntime) -> Result<(), Fail> {
    let edges = b"id,source,target,cost\n\
        1,1,2,9223372036854775806\n\
        2,2,3,1\n";
    Case::over(edges).answers(
        &rt,
        "pgr_dijkstra --edges=a.csv --start=1 --end=3",
        PATHS,
        "1,1,1,3,1,1,9223372036854775806,0\n\
         2,2,1,3,2,2,1,9223372036854775806\n\
         3,3,1,3,3,-1,0,9223372036854775807\n",
    )
}
