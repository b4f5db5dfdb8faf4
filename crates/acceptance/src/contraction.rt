//! What a contraction leaves.

use crate::case::Case;
use crate::tables::CONTRACTIONS;
use std::alloc::{AllocError, Global};
use std::process::Abort;
use std::test::Fail;

/// Three edges in a row.
const ROW: &[u8] = b"id,source,target,cost\n1,1,2,2\n2,2,3,3\n3,3,4,4\n";

/// Three edges between three vertices.
const TRIANGLE: &[u8] = b"id,source,target,cost\n1,1,2,1\n2,2,3,1\n3,1,3,1\n";

/// A row from 1 over 2 to 3, and a row of two edges that hangs on 2.
const BRANCH: &[u8] = b"id,source,target,cost\n1,1,2,1\n2,2,3,2\n3,2,4,3\n4,4,5,1\n";

/// The line is answered over the edges with these rows.
fn leaves(
    rt: &(impl Abort + AllocGlobal),
    edges: &[u8],
    options: &str,
    rows: &str,
) -> Result<(), Fail> {
    let line = format!(in rt.alloc(); "pgr_contraction --edges=a.csv {options}")?;
    Case::over(edges).answers(rt, line.as_str(), CONTRACTIONS, rows)
}

#[test]
fn dead_ends_are_held_by_the_last_and_a_shortcut_holds_a_shortcut(
    rt: HostRuntime,
) -> Result<(), Fail> {
    leaves(
        &rt,
        ROW,
        "--order=1 --directed=false",
        "v,4,\"{1,2,3}\",-1,-1,-1\n",
    )?;
    leaves(
        &rt,
        ROW,
        "--order=2,1 --forbidden=1,4 --directed=false",
        "e,-1,\"{2,3}\",1,4,9\n",
    )?;
    leaves(&rt, ROW, "--order=2", "e,-1,\"{2,3}\",1,4,9\n")
}

#[test]
fn a_way_costs_its_least_links_and_each_way_has_a_shortcut(rt: HostRuntime) -> Result<(), Fail> {
    let parallel = b"id,source,target,cost,reverse_cost\n1,1,2,2,3\n2,2,3,4,5\n3,1,2,1,-1\n";
    leaves(
        &rt,
        parallel,
        "--order=2 --forbidden=1,3",
        "e,-1,{2},1,3,5\ne,-2,{2},3,1,8\n",
    )?;
    let no_way = b"id,source,target,cost\n1,1,2,2\n2,3,2,3\n";
    leaves(&rt, no_way, "--order=2", "")?;
    let two_ways = b"id,source,target,cost\n1,1,2,1\n2,2,4,1\n3,1,3,5\n4,3,4,5\n";
    leaves(
        &rt,
        two_ways,
        "--order=2 --forbidden=1,4 --directed=false",
        "e,-1,{2},1,4,2\ne,-2,{3},1,4,10\n",
    )
}

#[test]
fn what_is_left_depends_on_the_order_of_methods(rt: HostRuntime) -> Result<(), Fail> {
    for (options, rows) in [
        ("--order=1", "v,2,\"{4,5}\",-1,-1,-1\n"),
        ("--order=2", "e,-1,{4},2,5,4\n"),
        ("--order=1,2", "e,-1,\"{2,4,5}\",1,3,3\n"),
        ("--order=2,1", "v,2,\"{4,5}\",-1,-1,-1\n"),
        ("--order=2,1 --max_cycles=2", "e,-1,\"{2,4,5}\",1,3,3\n"),
    ] {
        let options = format!(in rt.alloc(); "{options} --forbidden=1,3 --directed=false")?;
        leaves(&rt, BRANCH, options.as_str(), rows)?;
    }
    Ok(())
}

#[test]
fn a_triangle_folds_in_two_cycles(rt: HostRuntime) -> Result<(), Fail> {
    let once = "--order=1,2 --directed=false";
    leaves(&rt, TRIANGLE, once, "e,-1,{1},2,3,2\n")?;
    let twice = "--order=1,2 --directed=false --max_cycles=2";
    leaves(&rt, TRIANGLE, twice, "v,3,\"{1,2}\",-1,-1,-1\n")
}

#[test]
fn a_self_loop_goes_with_its_vertex_and_a_forbidden_vertex_stays(
    rt: HostRuntime,
) -> Result<(), Fail> {
    let ended = b"id,source,target,cost\n1,1,2,5\n2,1,1,7\n";
    leaves(&rt, ended, "--order=1", "v,2,{1},-1,-1,-1\n")?;
    let passed = b"id,source,target,cost\n1,1,2,5\n2,2,2,7\n3,2,3,1\n";
    leaves(&rt, passed, "--order=2", "e,-1,{2},1,3,6\n")?;
    let all = "--order=1,2 --forbidden=4,3,2,1,-7";
    leaves(&rt, ROW, all, "")?;
    let held = "--order=1 --forbidden=2,99";
    leaves(&rt, ROW, held, "v,2,\"{1,3,4}\",-1,-1,-1\n")
}

/// The edges of a row of 300.
fn long_row(alloc: Global) -> Result<String, AllocError> {
    let mut edges = String::from_str(alloc, "id,source,target,cost\n")?;
    for k in 1..301u64 {
        let next = k + 1;
        edges.push_str(format!(in alloc; "{k},{k},{next},1\n")?.as_str())?;
    }
    Ok(edges)
}

/// The row of its last vertex, which holds the others.
fn held_by_the_last(alloc: Global) -> Result<String, AllocError> {
    let mut row = String::from_str(alloc, "v,301,\"{1")?;
    for k in 2..301u64 {
        row.push_str(format!(in alloc; ",{k}")?.as_str())?;
    }
    row.push_str("}\",-1,-1,-1\n")?;
    Ok(row)
}

#[test]
fn a_long_row_of_dead_ends_is_held_by_its_last_vertex(rt: HostRuntime) -> Result<(), Fail> {
    let edges = long_row(rt.alloc())?;
    let row = held_by_the_last(rt.alloc())?;
    leaves(&rt, edges.as_bytes(), "--order=1", row.as_str())
}
