use crate::case::Case;
use crate::tables::{A, A_EXPORTED_AND_CUT};
use pgr_run::Status;
use std::process::Abort;
use std::test::Fail;

/// The edges are refused with this status and this message.
fn refuses(
    rt: &(impl Abort + AllocGlobal),
    edges: &[u8],
    status: Status,
    message: &str,
) -> Result<(), Fail> {
    let line = "pgr_dijkstra --edges=a.csv --start=1 --end=4";
    Case::over(edges).refuses(rt, line, status, message)
}

#[test]
fn a_header_without_a_column_or_with_it_twice_is_refused(rt: HostRuntime) -> Result<(), Fail> {
    refuses(&rt, b"", Status::Table, "pgr: edges: no header\n")?;
    refuses(
        &rt,
        b"id,source,cost",
        Status::Table,
        "pgr: edges: column target missing\n",
    )?;
    refuses(
        &rt,
        b"id,source,target,cost,cost",
        Status::Table,
        "pgr: edges: column cost repeated\n",
    )
}

#[test]
fn a_record_of_another_length_than_the_header_is_refused(rt: HostRuntime) -> Result<(), Fail> {
    refuses(
        &rt,
        A_EXPORTED_AND_CUT,
        Status::Table,
        "pgr: edges: record 5 is uneven\n",
    )
}

#[test]
fn a_cost_that_is_no_whole_number_is_refused(rt: HostRuntime) -> Result<(), Fail> {
    refuses(
        &rt,
        b"id,source,target,cost,reverse_cost\n1,1,2,1e3,-1\n",
        Status::Table,
        "pgr: edges: record 2: bad cost\n",
    )?;
    refuses(
        &rt,
        b"id,source,target,cost,reverse_cost\n1,1,2,3.5,3\n",
        Status::Table,
        "pgr: edges: record 2: bad cost\n",
    )?;
    refuses(
        &rt,
        b"id,source,target,cost,reverse_cost\n1,1,2,,3\n",
        Status::Table,
        "pgr: edges: record 2: bad cost\n",
    )
}

#[test]
fn a_negative_vertex_is_refused(rt: HostRuntime) -> Result<(), Fail> {
    refuses(
        &rt,
        b"id,source,target,cost,reverse_cost\n1,-1,2,3,3\n",
        Status::Table,
        "pgr: edges: record 2: bad source\n",
    )
}

#[test]
fn an_id_that_stands_twice_is_refused(rt: HostRuntime) -> Result<(), Fail> {
    refuses(
        &rt,
        b"id,source,target,cost,reverse_cost\n1,1,2,3,3\n1,1,2,3,3\n",
        Status::Table,
        "pgr: edges: record 3: id repeated\n",
    )
}

#[test]
fn a_sum_past_the_greatest_number_is_refused(rt: HostRuntime) -> Result<(), Fail> {
    refuses(
        &rt,
        b"id,source,target,cost\n1,1,2,9223372036854775806\n2,2,3,2\n",
        Status::Limit,
        "pgr: edges: record 3: sum too large\n",
    )?;
    refuses(
        &rt,
        b"id,source,target,cost,reverse_cost\n1,1,2,9223372036854775807,1\n",
        Status::Limit,
        "pgr: edges: record 2: sum too large\n",
    )
}

#[test]
fn the_edges_are_judged_before_the_combinations(rt: HostRuntime) -> Result<(), Fail> {
    let line = "pgr_dijkstraCost --edges=a.csv --combinations=p.csv";
    let case = Case {
        pairs: b"source,target\n1,x\n",
        ..Case::over(A)
    };
    case.refuses(
        &rt,
        line,
        Status::Table,
        "pgr: combinations: record 2: bad target\n",
    )?;
    let case = Case {
        edges: Some(b"id,source,cost"),
        ..case
    };
    case.refuses(
        &rt,
        line,
        Status::Table,
        "pgr: edges: column target missing\n",
    )
}
