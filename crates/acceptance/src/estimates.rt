//! Routes by searches that estimates guide, and the notes of estimates that links break.

use crate::case::Case;
use crate::tables::{A, PATHS, PLACED};
use pgr_run::Status;
use std::test::Fail;

/// The route from 1 to 3 over the table with places.
const ROUTE: &str = "seq,path_seq,start_vid,end_vid,node,edge,cost,agg_cost\n\
    1,1,1,3,1,1,3,0\n\
    2,2,1,3,2,2,4,3\n\
    3,3,1,3,3,-1,0,7\n";

/// The note of the start 1 there.
const NOTE: &str = "pgr: note: start 1: edge 1 from 1 to 2 with cost 3 breaks the estimate\n";

/// The notes of the starts 1 and 3 there.
const NOTES: &str = "pgr: note: start 1: edge 1 from 1 to 2 with cost 3 breaks the estimate\n\
    pgr: note: start 3: edge 1 from 2 to 1 with cost 3 breaks the estimate\n";

#[test]
fn the_least_route_comes_whatever_the_estimate_and_one_that_breaks_is_noted(
    rt: HostRuntime,
) -> Result<(), Fail> {
    let case = Case::over(PLACED);
    let line = "pgr_aStar --edges=a.csv --start=1 --end=3";
    case.ends(&rt, line, Status::Done, ROUTE, "")?;
    let line = "pgr_aStar --edges=a.csv --start=1 --end=3 --heuristic=3";
    case.ends(&rt, line, Status::Done, ROUTE, NOTE)
}

#[test]
fn each_start_whose_estimate_breaks_is_noted_once_by_rising_start(
    rt: HostRuntime,
) -> Result<(), Fail> {
    let line = "pgr_aStar --edges=a.csv --start=3,1 --end=3,1,2 --heuristic=3";
    let rows = "seq,path_seq,start_vid,end_vid,node,edge,cost,agg_cost\n\
        1,1,1,2,1,1,3,0\n\
        2,2,1,2,2,-1,0,3\n\
        3,1,1,3,1,1,3,0\n\
        4,2,1,3,2,2,4,3\n\
        5,3,1,3,3,-1,0,7\n";
    Case::over(PLACED).ends(&rt, line, Status::Done, rows, NOTES)?;
    let line = "pgr_aStar --edges=a.csv --start=1,3 --end=3,1 --heuristic=3";
    Case::over(PLACED).ends(&rt, line, Status::Done, ROUTE, NOTES)
}

#[test]
fn a_start_without_an_answer_is_noted_and_one_without_a_pair_or_a_vertex_is_not(
    rt: HostRuntime,
) -> Result<(), Fail> {
    let case = Case::over(PLACED);
    for line in [
        "pgr_aStar --edges=a.csv --start=1 --end=9 --heuristic=3",
        "pgr_aStar --edges=a.csv --start=1,9 --end=1 --heuristic=3",
    ] {
        case.ends(&rt, line, Status::Done, PATHS, NOTE)?;
    }
    let case = Case {
        pairs: b"source,target\n2,3\n9,1\n",
        ..case
    };
    case.ends(
        &rt,
        "pgr_aStar --edges=a.csv --start=1 --combinations=p.csv --heuristic=3",
        Status::Done,
        "seq,path_seq,start_vid,end_vid,node,edge,cost,agg_cost\n1,1,2,3,2,2,4,0\n2,2,2,3,3,-1,0,4\n",
        "pgr: note: start 2: edge 1 from 2 to 1 with cost 3 breaks the estimate\n",
    )
}

#[test]
fn a_vertex_lies_where_the_first_row_puts_it_that_names_it(rt: HostRuntime) -> Result<(), Fail> {
    let line = "pgr_aStar --edges=a.csv --start=1 --end=3";
    let edges = b"id,source,target,cost,reverse_cost,x1,y1,x2,y2\n\
        1,1,2,3,3,0,0,3,0\n\
        2,2,3,4,-1,100,0,3,4\n";
    Case::over(edges).ends(&rt, line, Status::Done, ROUTE, "")?;
    // A row without a link names it too.
    let edges = b"id,source,target,cost,reverse_cost,x1,y1,x2,y2\n\
        5,9,2,-1,-1,0,0,50,0\n\
        1,1,2,3,3,0,0,3,0\n\
        2,2,3,4,-1,100,0,3,4\n";
    Case::over(edges).ends(&rt, line, Status::Done, ROUTE, NOTE)
}

#[test]
fn a_factor_is_applied_before_the_estimate_is_rounded_down(rt: HostRuntime) -> Result<(), Fail> {
    let line = "pgr_aStar --edges=a.csv --start=1 --end=3 --factor=3/2";
    Case::over(PLACED).ends(&rt, line, Status::Done, ROUTE, NOTE)?;
    let edges = b"id,source,target,cost,reverse_cost,x1,y1,x2,y2\n\
        1,1,2,4,4,0,0,3,0\n\
        2,2,3,6,-1,3,0,3,4\n";
    let rows = "1,1,1,3,1,1,4,0\n2,2,1,3,2,2,6,4\n3,3,1,3,3,-1,0,10\n";
    Case::over(edges).answers(&rt, line, PATHS, rows)
}

#[test]
fn a_distance_that_is_no_whole_number_is_rounded_down(rt: HostRuntime) -> Result<(), Fail> {
    let edges = b"id,source,target,cost,x1,y1,x2,y2\n\
        1,1,2,1,0,0,1,1\n\
        2,2,3,1,1,1,2,2\n";
    let line = "pgr_aStar --edges=a.csv --start=1 --end=3 --heuristic=4";
    let rows = "1,1,1,3,1,1,1,0\n2,2,1,3,2,2,1,1\n3,3,1,3,3,-1,0,2\n";
    Case::over(edges).answers(&rt, line, PATHS, rows)
}

#[test]
fn coordinates_reach_their_bounds_and_no_further(rt: HostRuntime) -> Result<(), Fail> {
    let edges = b"id,source,target,cost,x1,y1,x2,y2\n\
        1,1,2,5,-1000000000000000,-1000000000000000,1000000000000000,1000000000000000\n";
    Case::over(edges).ends(
        &rt,
        "pgr_aStar --edges=a.csv --start=1 --end=2 --heuristic=3 --factor=1000000",
        Status::Done,
        "seq,path_seq,start_vid,end_vid,node,edge,cost,agg_cost\n1,1,1,2,1,1,5,0\n2,2,1,2,2,-1,0,5\n",
        "pgr: note: start 1: edge 1 from 1 to 2 with cost 5 breaks the estimate\n",
    )?;
    Case::over(b"id,source,target,cost,x1,y1,x2,y2\n1,1,2,5,0,0,1000000000000001,0\n").refuses(
        &rt,
        "pgr_aStar --edges=a.csv --start=1 --end=2",
        Status::Table,
        "pgr: edges: record 2: bad x2\n",
    )
}

#[test]
fn a_table_that_is_refused_has_no_notes(rt: HostRuntime) -> Result<(), Fail> {
    Case::over(A).refuses(
        &rt,
        "pgr_aStar --edges=a.csv --start=1 --end=3 --heuristic=3",
        Status::Table,
        "pgr: edges: column x1 missing\n",
    )?;
    Case::over(PLACED).refuses(
        &rt,
        "pgr_aStar --edges=a.csv --start=1 --end=3 --combinations=p.csv --heuristic=3",
        Status::Table,
        "pgr: combinations: no header\n",
    )
}

#[test]
fn a_failed_write_comes_behind_the_notes(rt: HostRuntime) -> Result<(), Fail> {
    let case = Case {
        failing_writes: &[2],
        ..Case::over(PLACED)
    };
    case.ends(
        &rt,
        "pgr_aStar --edges=a.csv --start=1 --end=3 --heuristic=3",
        Status::Outside,
        PATHS,
        "pgr: note: start 1: edge 1 from 1 to 2 with cost 3 breaks the estimate\npgr: write failed\n",
    )
}

#[test]
fn behind_a_note_that_fails_nothing_more_is_told(rt: HostRuntime) -> Result<(), Fail> {
    let line = "pgr_aStar --edges=a.csv --start=1,3 --end=3,1 --heuristic=3";
    let case = Case {
        failing_messages: &[1],
        ..Case::over(PLACED)
    };
    case.ends(&rt, line, Status::Done, ROUTE, "")?;
    let case = Case {
        failing_writes: &[2],
        ..case
    };
    case.ends(&rt, line, Status::Outside, PATHS, "")
}
