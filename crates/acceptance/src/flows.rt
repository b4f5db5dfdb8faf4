//! Flows and cuts.

use crate::case::Case;
use crate::tables::{CUTS, FLOWS, H, VALUE};
use pgr_run::Status;
use std::process::Abort;
use std::test::Fail;

/// The value and the cut that are answered between these starts and ends.
fn has(
    rt: &(impl Abort + AllocGlobal),
    edges: &[u8],
    between: &str,
    value: &str,
    cut: &str,
) -> Result<(), Fail> {
    let mut line = String::from_str(rt.alloc(), "pgr_maxFlow --edges=a.csv ")?;
    line.push_str(between)?;
    Case::over(edges).answers(rt, line.as_str(), VALUE, value)?;
    let mut line = String::from_str(rt.alloc(), "minCut --edges=a.csv ")?;
    line.push_str(between)?;
    Case::over(edges).answers(rt, line.as_str(), CUTS, cut)
}

#[test]
fn flow_over_the_edge_across_is_taken_back(rt: HostRuntime) -> Result<(), Fail> {
    has(&rt, H, "--start=1 --end=4", "2\n", "1,1,1,2,1\n2,2,1,3,1\n")?;
    Case::over(H).answers(
        &rt,
        "pgr_edmondsKarp --edges=a.csv --start=1 --end=4",
        FLOWS,
        "1,1,1,2,1,0\n2,2,1,3,1,0\n3,4,2,4,1,0\n4,5,3,4,1,0\n",
    )
}

#[test]
fn a_vertex_that_is_source_and_sink_leaves_no_flow(rt: HostRuntime) -> Result<(), Fail> {
    has(&rt, H, "--start=1,4 --end=4", "0\n", "")?;
    Case::over(H).answers(
        &rt,
        "pgr_edmondsKarp --edges=a.csv --start=1,4 --end=4",
        FLOWS,
        "",
    )
}

#[test]
fn flow_from_a_source_to_another_cancels_out(rt: HostRuntime) -> Result<(), Fail> {
    let edges = b"id,source,target,capacity\n1,1,2,5\n2,2,3,3\n3,1,3,2\n";
    has(
        &rt,
        edges,
        "--start=1,2 --end=3",
        "5\n",
        "1,2,2,3,3\n2,3,1,3,2\n",
    )
}

#[test]
fn the_greatest_value_is_the_limit_of_the_sum(rt: HostRuntime) -> Result<(), Fail> {
    let edges = b"id,source,target,capacity,reverse_capacity\n7,2,1,0,9223372036854775807\n";
    let value = "9223372036854775807\n";
    has(
        &rt,
        edges,
        "--start=1 --end=2",
        value,
        "1,7,1,2,9223372036854775807\n",
    )?;
    Case::over(edges).answers(
        &rt,
        "pgr_edmondsKarp --edges=a.csv --start=1 --end=2",
        FLOWS,
        "1,7,1,2,9223372036854775807,0\n",
    )
}

#[test]
fn a_self_loop_makes_no_vertex_and_a_name_that_is_none_changes_nothing(
    rt: HostRuntime,
) -> Result<(), Fail> {
    let edges = b"id,source,target,capacity\n1,1,1,5\n2,1,2,4\n3,3,3,7\n";
    has(
        &rt,
        edges,
        "--start=1,3,9 --end=2,3,9",
        "4\n",
        "1,2,1,2,4\n",
    )?;
    has(&rt, edges, "--start=3 --end=2", "0\n", "")
}

#[test]
fn a_table_of_capacities_is_judged_by_its_own_columns(rt: HostRuntime) -> Result<(), Fail> {
    let line = "pgr_maxFlow --edges=a.csv --start=1 --end=2";
    Case::over(b"id,source,target,cost\n1,1,2,3\n").refuses(
        &rt,
        line,
        Status::Table,
        "pgr: edges: column capacity missing\n",
    )?;
    Case::over(b"id,source,target,capacity,reverse_capacity\n1,1,2,3,x\n").refuses(
        &rt,
        line,
        Status::Table,
        "pgr: edges: record 2: bad reverse_capacity\n",
    )?;
    // Capacities of a self loop count in the sum.
    Case::over(b"id,source,target,capacity\n1,1,2,9223372036854775807\n2,3,3,1\n").refuses(
        &rt,
        line,
        Status::Limit,
        "pgr: edges: record 3: sum too large\n",
    )?;
    Case::over(H).refuses(
        &rt,
        "minCut --edges=a.csv --start=1 --end=4 --directed=true",
        Status::Words,
        "pgr: unknown option in word 5\n",
    )
}
