use crate::case::Case;
use crate::tables::PARTS;
use pgr_run::Status;
use std::test::Fail;

/// Two pairs of rows that join, a row that leads back alone, and a row without a link.
const ROWS: &[u8] = b"id,source,target,cost,reverse_cost\n\
    1,1,2,1,-1\n\
    2,2,1,1,-1\n\
    3,2,3,1,-1\n\
    4,5,6,-1,1\n\
    5,7,8,-1,-1\n";

/// What is said of a third word with an option that the function doesn't have.
const UNKNOWN: &str = "pgr: unknown option in word 3\n";

#[test]
fn a_row_joins_its_ends_and_one_without_a_link_makes_no_vertex(
    rt: HostRuntime,
) -> Result<(), Fail> {
    Case::over(ROWS).answers(
        &rt,
        "pgr_connectedComponents --edges=a.csv",
        PARTS,
        "1,1,1\n\
         2,1,2\n\
         3,1,3\n\
         4,5,5\n\
         5,5,6\n",
    )
}

#[test]
fn a_strong_class_has_walks_each_way(rt: HostRuntime) -> Result<(), Fail> {
    Case::over(ROWS).answers(
        &rt,
        "pgr_strongComponents --edges=a.csv",
        PARTS,
        "1,1,1\n\
         2,1,2\n\
         3,3,3\n\
         4,5,5\n\
         5,6,6\n",
    )
}

#[test]
fn rows_are_by_class_and_then_by_vertex(rt: HostRuntime) -> Result<(), Fail> {
    let case = Case::over(b"id,source,target,cost\n1,1,10,1\n2,4,10,1\n3,3,2,1\n");
    case.answers(
        &rt,
        "pgr_connectedComponents --edges=a.csv",
        PARTS,
        "1,1,1\n\
         2,1,4\n\
         3,1,10\n\
         4,2,2\n\
         5,2,3\n",
    )
}

#[test]
fn no_row_has_no_class(rt: HostRuntime) -> Result<(), Fail> {
    for line in [
        "pgr_connectedComponents --edges=a.csv",
        "pgr_strongComponents --edges=a.csv",
    ] {
        Case::over(b"id,source,target,cost\n").answers(&rt, line, PARTS, "")?;
    }
    Ok(())
}

#[test]
fn the_graph_of_a_function_of_classes_is_not_chosen(rt: HostRuntime) -> Result<(), Fail> {
    for line in [
        "pgr_connectedComponents --edges=a.csv --directed=true",
        "pgr_strongComponents --edges=a.csv --directed=true",
    ] {
        Case::over(ROWS).refuses(&rt, line, Status::Words, UNKNOWN)?;
    }
    Ok(())
}
