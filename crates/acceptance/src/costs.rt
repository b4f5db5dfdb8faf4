use crate::case::Case;
use crate::tables::{A, COSTS};
use std::test::Fail;

#[test]
fn each_pair_of_the_combinations_has_one_row(rt: HostRuntime) -> Result<(), Fail> {
    let case = Case {
        pairs: b"source,target\n4,2\n1,4\n1,4\n1,1\n",
        ..Case::over(A)
    };
    case.answers(
        &rt,
        "pgr_dijkstraCost --edges=a.csv --combinations=p.csv",
        COSTS,
        "1,4,7\n\
         4,2,4\n",
    )
}

#[test]
fn a_matrix_has_each_vertex_with_each_other(rt: HostRuntime) -> Result<(), Fail> {
    Case::over(A).answers(
        &rt,
        "pgr_dijkstraCostMatrix --edges=a.csv --vids=4,1,2",
        COSTS,
        "1,2,3\n\
         1,4,7\n\
         2,1,3\n\
         2,4,4\n\
         4,1,1\n\
         4,2,4\n",
    )
}

#[test]
fn one_file_may_be_both_the_edges_and_the_combinations(rt: HostRuntime) -> Result<(), Fail> {
    Case::over(A).answers(
        &rt,
        "pgr_dijkstraCost --edges=a.csv --combinations=a.csv",
        COSTS,
        "1,2,3\n\
         1,3,7\n\
         2,3,4\n\
         3,4,0\n",
    )
}
