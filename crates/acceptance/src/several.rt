//! Several routes for each pair.

ghost use Rattle.std.specs.Prelude.{◌≤◌};

use crate::case::Case;
use crate::tables::{A, B, D, SEVERAL};
use std::alloc::{AllocError, Global};
use std::test::Fail;

#[test]
fn parallel_links_of_one_row_give_two_routes(rt: HostRuntime) -> Result<(), Fail> {
    Case::over(D).answers(
        &rt,
        "pgr_KSP --edges=a.csv --start=1 --end=2 --K=2 --directed=false",
        SEVERAL,
        "1,1,1,1,2,1,1,1,0\n\
         2,1,2,1,2,2,-1,0,1\n\
         3,2,1,1,2,1,1,3,0\n\
         4,2,2,1,2,2,-1,0,3\n",
    )
}

#[test]
fn where_there_are_fewer_than_k_routes_all_come(rt: HostRuntime) -> Result<(), Fail> {
    Case::over(A).answers(
        &rt,
        "pgr_KSP --edges=a.csv --start=1 --end=4 --K=5",
        SEVERAL,
        "1,1,1,1,4,1,1,3,0\n\
         2,1,2,1,4,2,2,4,3\n\
         3,1,3,1,4,3,4,0,7\n\
         4,1,4,1,4,4,-1,0,7\n\
         5,2,1,1,4,1,3,10,0\n\
         6,2,2,1,4,3,4,0,10\n\
         7,2,3,1,4,4,-1,0,10\n",
    )
}

#[test]
fn routes_of_equal_cost_come_by_links_and_then_by_edges(rt: HostRuntime) -> Result<(), Fail> {
    Case::over(B).answers(
        &rt,
        "pgr_KSP --edges=a.csv --start=1 --end=4 --K=3",
        SEVERAL,
        "1,1,1,1,4,1,1,2,0\n\
         2,1,2,1,4,2,9,3,2\n\
         3,1,3,1,4,4,-1,0,5\n\
         4,2,1,1,4,1,2,1,0\n\
         5,2,2,1,4,3,3,4,1\n\
         6,2,3,1,4,4,-1,0,5\n\
         7,3,1,1,4,1,0,1,0\n\
         8,3,2,1,4,5,5,1,1\n\
         9,3,3,1,4,6,6,3,2\n\
         10,3,4,1,4,4,-1,0,5\n",
    )
}

#[test]
fn a_self_loop_is_in_no_route_and_paths_are_numbered_in_each_pair(
    rt: HostRuntime,
) -> Result<(), Fail> {
    let edges = b"id,source,target,cost\n1,1,1,0\n2,1,2,1\n3,2,2,0\n4,2,3,5\n";
    Case::over(edges).answers(
        &rt,
        "pgr_KSP --edges=a.csv --start=1,2 --end=3 --K=9",
        SEVERAL,
        "1,1,1,1,3,1,2,1,0\n\
         2,1,2,1,3,2,4,5,1\n\
         3,1,3,1,3,3,-1,0,6\n\
         4,1,1,2,3,2,4,5,0\n\
         5,1,2,2,3,3,-1,0,5\n",
    )
}

/// A vertex and its two links to the next, with the edges `2 * k - 1` and `2 * k`, of the costs 1 and 2.
fn doubled_edges(alloc: Global) -> Result<String, AllocError> {
    let mut edges = String::from_str(alloc, "id,source,target,cost\n")?;
    for k in 1..65u64 {
        let (odd, even, next) = (2 * k - 1, 2 * k, k + 1);
        edges.push_str(format!(in alloc; "{odd},{k},{next},1\n{even},{k},{next},2\n")?.as_str())?;
    }
    Ok(edges)
}

/// The rows of the path with this number, where the edge of the dearer link at this vertex is taken, or of none at 65.
fn path(alloc: Global, id: u64, dear: u64) -> Result<String, AllocError>
    requires few { (1 ≤ id) × (id ≤ 3) }
{
    let mut rows = String::new(alloc);
    for k in 1..65u64 {
        let seq = 65 * (id - 1) + k;
        let (edge, cost) = if k == dear {
            (2 * k, 2)
        } else {
            (2 * k - 1, 1)
        };
        let agg = if dear < k { k } else { k - 1 };
        rows.push_str(format!(in alloc;
            "{seq},{id},{k},1,65,{k},{edge},{cost},{agg}\n"
        )?.as_str())?;
    }
    let seq = 65 * id;
    let agg = if dear < 65 { 65 } else { 64 };
    rows.push_str(format!(in alloc; "{seq},{id},65,1,65,65,-1,0,{agg}\n")?.as_str())?;
    Ok(rows)
}

#[test]
fn three_of_many_routes_over_doubled_edges_come_at_once(rt: HostRuntime) -> Result<(), Fail> {
    let alloc = rt.alloc();
    let edges = doubled_edges(alloc)?;
    let mut rows = path(alloc, 1, 65)?;
    rows.push_str(path(alloc, 2, 64)?.as_str())?;
    rows.push_str(path(alloc, 3, 63)?.as_str())?;
    Case::over(edges.as_bytes()).answers(
        &rt,
        "pgr_KSP --edges=a.csv --start=1 --end=65 --K=3",
        SEVERAL,
        rows.as_str(),
    )
}
