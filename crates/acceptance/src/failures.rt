use crate::case::Case;
use crate::tables::{A, PATHS};
use pgr_run::Status;
use std::test::Fail;

#[test]
fn a_file_that_is_not_there_is_a_failed_read(rt: HostRuntime) -> Result<(), Fail> {
    let case = Case {
        edges: None,
        ..Case::over(A)
    };
    case.refuses(
        &rt,
        "pgr_dijkstra --edges=a.csv --start=1 --end=4",
        Status::Outside,
        "pgr: edges: read failed\n",
    )?;
    let case = Case::over(A);
    case.refuses(
        &rt,
        "pgr_dijkstra --edges=b.csv --start=1 --end=4",
        Status::Outside,
        "pgr: edges: read failed\n",
    )?;
    case.refuses(
        &rt,
        "pgr_dijkstra --edges=a.csv --combinations=q.csv",
        Status::Outside,
        "pgr: combinations: read failed\n",
    )
}

#[test]
fn a_failed_read_is_no_end_of_the_file(rt: HostRuntime) -> Result<(), Fail> {
    let line = "pgr_dijkstra --edges=a.csv --start=1 --end=4";
    let case = Case {
        failing_reads: &[1],
        ..Case::over(A)
    };
    case.refuses(&rt, line, Status::Outside, "pgr: edges: read failed\n")?;
    let case = Case {
        failing_reads: &[3],
        ..case
    };
    case.refuses(&rt, line, Status::Outside, "pgr: edges: read failed\n")
}

#[test]
fn a_failed_write_leaves_the_lines_before_it(rt: HostRuntime) -> Result<(), Fail> {
    let case = Case {
        failing_writes: &[2],
        ..Case::over(A)
    };
    case.ends(
        &rt,
        "pgr_dijkstra --edges=a.csv --start=1 --end=4",
        Status::Outside,
        PATHS,
        "pgr: write failed\n",
    )
}

#[test]
fn a_failed_message_leaves_the_status(rt: HostRuntime) -> Result<(), Fail> {
    let case = Case {
        failing_messages: &[1],
        ..Case::over(A)
    };
    case.ends(&rt, "pgr_tsp", Status::Words, "", "")
}
