//! Sequences of edges that no walk may have.

use crate::case::Case;
use crate::tables::PATHS;
use pgr_run::Status;
use std::process::Abort;
use std::test::Fail;

/// A chain from 1 over 2 to 3, and a side road from 2 to 5 and back.
const SIDE_ROAD: &[u8] = b"id,source,target,cost,reverse_cost\n\
    1,1,2,1,-1\n\
    2,2,3,1,-1\n\
    3,2,5,1,1\n";

/// A chain from 1 over 2 to 3, and from there to 4 and to 5.
const FORK: &[u8] = b"id,source,target,cost,reverse_cost\n\
    1,1,2,1,-1\n\
    2,2,3,1,-1\n\
    3,3,4,1,-1\n\
    4,3,5,1,-1\n";

/// A chain from 1 to 4, and beside each of its edges a dearer one.
const DOUBLED: &[u8] = b"id,source,target,cost\n\
    1,1,2,1\n\
    2,2,3,1\n\
    3,3,4,1\n\
    11,1,2,5\n\
    12,2,3,5\n\
    13,3,4,5\n";

/// An edge of the cost 2^62 - 1: the sum for one id is 2^63 - 2.
const DEAR: &[u8] = b"id,source,target,cost,reverse_cost\n1,1,2,4611686018427387903,-1\n";

/// What the walk that takes the side road is, with vertex 2 twice.
const BY_THE_SIDE_ROAD: &str = "1,1,1,3,1,1,1,0\n\
    2,2,1,3,2,3,1,1\n\
    3,3,1,3,5,3,1,2\n\
    4,4,1,3,2,2,1,3\n\
    5,5,1,3,3,-1,0,4\n";

/// The words that ask for the path from 1 to 3.
const TO_3: &str = "pgr_trsp --edges=a.csv --restrictions=r.csv --start=1 --end=3";

/// The words that ask for the path from 1 to 2.
const TO_2: &str = "pgr_trsp --edges=a.csv --restrictions=r.csv --start=1 --end=2";

/// The words that ask for the path from 1 to 4.
const TO_4: &str = "pgr_trsp --edges=a.csv --restrictions=r.csv --start=1 --end=4";

/// A case over these edges and restrictions.
fn over<'a>(edges: &'a [u8], restrictions: &'a [u8]) -> Case<'a> {
    Case {
        restrictions,
        ..Case::over(edges)
    }
}

#[test]
fn a_walk_may_come_to_a_vertex_twice(rt: HostRuntime) -> Result<(), Fail> {
    over(SIDE_ROAD, b"path\n\"{1,2}\"\n").answers(&rt, TO_3, PATHS, BY_THE_SIDE_ROAD)?;
    let twice = over(SIDE_ROAD, b"path\n\"{1,2}\"\n{}\n\"{1,2}\"\n");
    twice.answers(&rt, TO_3, PATHS, BY_THE_SIDE_ROAD)
}

#[test]
fn a_restriction_may_begin_inside_another(rt: HostRuntime) -> Result<(), Fail> {
    over(FORK, b"path\n\"{1,2,3}\"\n\"{2,4}\"\n").answers(
        &rt,
        "pgr_trsp --edges=a.csv --restrictions=r.csv --start=1,2 --end=4,5",
        PATHS,
        "1,1,2,4,2,2,1,0\n\
         2,2,2,4,3,3,1,1\n\
         3,3,2,4,4,-1,0,2\n",
    )
}

#[test]
fn one_edge_may_be_restricted_and_a_restriction_stand_inside_another(
    rt: HostRuntime,
) -> Result<(), Fail> {
    over(DOUBLED, b"path\n{2}\n{99}\n{-1}\n").answers(
        &rt,
        TO_4,
        PATHS,
        "1,1,1,4,1,1,1,0\n\
         2,2,1,4,2,12,5,1\n\
         3,3,1,4,3,3,1,6\n\
         4,4,1,4,4,-1,0,7\n",
    )?;
    over(DOUBLED, b"path\n\"{1,2,3}\"\n\"{2,3}\"\n").answers(
        &rt,
        TO_4,
        PATHS,
        "1,1,1,4,1,1,1,0\n\
         2,2,1,4,2,2,1,1\n\
         3,3,1,4,3,13,5,2\n\
         4,4,1,4,4,-1,0,7\n",
    )
}

#[test]
fn a_restriction_may_overlap_itself(rt: HostRuntime) -> Result<(), Fail> {
    over(SIDE_ROAD, b"path\n\"{1,2}\"\n\"{3,3}\"\n").answers(&rt, TO_3, PATHS, "")?;
    let thrice = over(SIDE_ROAD, b"path\n\"{1,2}\"\n\"{3,3,3}\"\n");
    thrice.answers(&rt, TO_3, PATHS, BY_THE_SIDE_ROAD)
}

#[test]
fn the_sum_with_restrictions_is_judged_at_each_record(rt: HostRuntime) -> Result<(), Fail> {
    let rows = "1,1,1,2,1,1,4611686018427387903,0\n\
                2,2,1,2,2,-1,0,4611686018427387903\n";
    over(DEAR, b"path\n{7}\n").answers(&rt, TO_2, PATHS, rows)?;
    let refused = over(DEAR, b"path\n{7}\n{8}\n");
    let message = "pgr: restrictions: record 3: sum too large\n";
    refused.refuses(&rt, TO_2, Status::Limit, message)?;
    let behind_empty = over(DEAR, b"path\n{}\n{7}\n{}\n{8}\n{9}\n");
    let message = "pgr: restrictions: record 5: sum too large\n";
    behind_empty.refuses(&rt, TO_2, Status::Limit, message)
}

#[test]
fn the_sum_may_be_the_limit_and_not_one_above(rt: HostRuntime) -> Result<(), Fail> {
    let list = b"path\n\"{2,3,4,5,6,7}\"\n";
    let at_the_limit = b"id,source,target,cost\n1,1,2,1317624576693539401\n";
    let rows = "1,1,1,2,1,1,1317624576693539401,0\n\
                2,2,1,2,2,-1,0,1317624576693539401\n";
    over(at_the_limit, list).answers(&rt, TO_2, PATHS, rows)?;
    let above = b"id,source,target,cost\n1,1,2,1317624576693539402\n";
    let message = "pgr: restrictions: record 2: sum too large\n";
    over(above, list).refuses(&rt, TO_2, Status::Limit, message)
}

#[test]
fn the_sum_is_judged_after_the_combinations(rt: HostRuntime) -> Result<(), Fail> {
    let case = over(DEAR, b"path\n\"{7,8}\"\n");
    let line = "pgr_trsp --edges=a.csv --restrictions=r.csv --combinations=p.csv";
    let message = "pgr: combinations: no header\n";
    case.refuses(&rt, line, Status::Table, message)?;
    let line = "pgr_trsp --edges=a.csv --restrictions=r.csv --combinations=absent.csv";
    let message = "pgr: combinations: read failed\n";
    case.refuses(&rt, line, Status::Outside, message)?;
    let pairs = Case {
        pairs: b"source,target\n",
        ..case
    };
    let line = "pgr_trsp --edges=a.csv --restrictions=r.csv --combinations=p.csv";
    let message = "pgr: restrictions: record 2: sum too large\n";
    pairs.refuses(&rt, line, Status::Limit, message)
}

/// The restrictions are refused with this status and this message.
fn refuses(
    rt: &(impl Abort + AllocGlobal),
    restrictions: &[u8],
    message: &str,
) -> Result<(), Fail> {
    over(DOUBLED, restrictions).refuses(rt, TO_4, Status::Table, message)
}

#[test]
fn restrictions_have_a_path_in_braces(rt: HostRuntime) -> Result<(), Fail> {
    refuses(
        &rt,
        b"paths\n{1}\n",
        "pgr: restrictions: column path missing\n",
    )?;
    refuses(
        &rt,
        b"path\n{1}\n\"{1,}\"\n",
        "pgr: restrictions: record 3: bad path\n",
    )?;
    over(DOUBLED, b"path\n{1}\n").refuses(
        &rt,
        "pgr_trsp --edges=a.csv --start=1 --end=4",
        Status::Words,
        "pgr: option restrictions missing\n",
    )
}
