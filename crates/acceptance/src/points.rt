use crate::case::Case;
use crate::tables::PATHS;
use pgr_run::Status;
use std::process::Abort;
use std::test::Fail;

/// An edge of cost 3 both ways, and a point at half of it.
const STREET: &[u8] = b"id,source,target,cost,reverse_cost\n1,1,2,3,3\n";

const HALF: &[u8] = b"pid,edge_id,fraction,side\n1,1,0.5,b\n";

/// A run over these edges and points gives these rows.
fn answers(
    rt: &(impl Abort + AllocGlobal),
    edges: &[u8],
    points: &[u8],
    options: &str,
    rows: &str,
) -> Result<(), Fail> {
    let mut line = String::from_str(
        rt.alloc(),
        "pgr_withPoints --edges=a.csv --points=points.csv ",
    )?;
    line.push_str(options)?;
    let case = Case {
        points,
        ..Case::over(edges)
    };
    case.answers(rt, line.as_str(), PATHS, rows)
}

/// The points are refused with this status and this message.
fn refuses(rt: &(impl Abort + AllocGlobal), points: &[u8], message: &str) -> Result<(), Fail> {
    let line = "pgr_withPoints --edges=a.csv --points=points.csv --start=1 --end=2";
    let case = Case {
        points,
        ..Case::over(STREET)
    };
    case.refuses(rt, line, Status::Table, message)
}

#[test]
fn a_point_lies_from_the_source_of_its_edge_both_ways(rt: HostRuntime) -> Result<(), Fail> {
    answers(
        &rt,
        STREET,
        HALF,
        "--start=-1,1,2 --end=-1,2",
        "1,1,-1,2,-1,1,2,0\n\
         2,2,-1,2,2,-1,0,2\n\
         3,1,1,-1,1,1,1,0\n\
         4,2,1,-1,-1,-1,0,1\n\
         5,1,1,2,1,1,3,0\n\
         6,2,1,2,2,-1,0,3\n\
         7,1,2,-1,2,1,2,0\n\
         8,2,2,-1,-1,-1,0,2\n",
    )?;
    answers(
        &rt,
        STREET,
        HALF,
        "--start=1 --end=2 --details=true",
        "1,1,1,2,1,1,1,0\n\
         2,2,1,2,-1,1,2,1\n\
         3,3,1,2,2,-1,0,3\n",
    )
}

#[test]
fn combinations_name_points(rt: HostRuntime) -> Result<(), Fail> {
    let case = Case {
        pairs: b"source,target\n-1,2\n-9,1\n",
        points: HALF,
        ..Case::over(STREET)
    };
    case.answers(
        &rt,
        "pgr_withPoints --edges=a.csv --points=points.csv --combinations=p.csv",
        PATHS,
        "1,1,-1,2,-1,1,2,0\n2,2,-1,2,2,-1,0,2\n",
    )
}

/// An edge of cost 4 both ways, and a point at a quarter of it, on its right.
const AVENUE: &[u8] = b"id,source,target,cost,reverse_cost\n1,1,2,4,4\n";

const ON_THE_RIGHT: &[u8] = b"pid,edge_id,fraction,side\n1,1,1/4,r\n";

/// To the point from both ends, where links of both directions see it.
const SEEN_BOTH_WAYS: &str = "1,1,1,-1,1,1,1,0\n\
    2,2,1,-1,-1,-1,0,1\n\
    3,1,2,-1,2,1,3,0\n\
    4,2,2,-1,-1,-1,0,3\n";

#[test]
fn a_direction_sees_the_side_that_one_drives_on(rt: HostRuntime) -> Result<(), Fail> {
    answers(
        &rt,
        AVENUE,
        ON_THE_RIGHT,
        "--start=1,2 --end=-1 --driving_side=r --details=true",
        "1,1,1,-1,1,1,1,0\n\
         2,2,1,-1,-1,-1,0,1\n\
         3,1,2,-1,2,1,4,0\n\
         4,2,2,-1,1,1,1,4\n\
         5,3,2,-1,-1,-1,0,5\n",
    )?;
    answers(
        &rt,
        AVENUE,
        ON_THE_RIGHT,
        "--start=1,2 --end=-1 --driving_side=l --details=true",
        "1,1,1,-1,1,1,4,0\n\
         2,2,1,-1,2,1,3,4\n\
         3,3,1,-1,-1,-1,0,7\n\
         4,1,2,-1,2,1,3,0\n\
         5,2,2,-1,-1,-1,0,3\n",
    )
}

#[test]
fn driving_on_both_sides_and_undirected_links_see_all_points(rt: HostRuntime) -> Result<(), Fail> {
    let options = "--start=1,2 --end=-1 --driving_side=b";
    answers(&rt, AVENUE, ON_THE_RIGHT, options, SEEN_BOTH_WAYS)?;
    let options = "--start=1,2 --end=-1 --driving_side=l --directed=false";
    answers(&rt, AVENUE, ON_THE_RIGHT, options, SEEN_BOTH_WAYS)
}

#[test]
fn a_point_that_no_link_sees_is_no_vertex(rt: HostRuntime) -> Result<(), Fail> {
    answers(
        &rt,
        b"id,source,target,cost\n1,1,2,3\n",
        b"pid,edge_id,fraction,side\n1,1,0.5,l\n",
        "--start=1 --end=-1 --driving_side=r",
        "",
    )?;
    answers(
        &rt,
        STREET,
        b"pid,edge_id,fraction\n6,77,1/2\n",
        "--start=-6 --end=1",
        "",
    )
}

#[test]
fn equal_fractions_stand_by_id(rt: HostRuntime) -> Result<(), Fail> {
    answers(
        &rt,
        b"id,source,target,cost\n1,1,2,2\n",
        b"pid,edge_id,fraction\n8,1,0.5\n7,1,1/2\n",
        "--start=1 --end=-8 --details=true",
        "1,1,1,-8,1,1,1,0\n\
         2,2,1,-8,-7,1,0,1\n\
         3,3,1,-8,-8,-1,0,1\n",
    )
}

#[test]
fn points_of_one_offset_stand_by_fraction(rt: HostRuntime) -> Result<(), Fail> {
    answers(
        &rt,
        b"id,source,target,cost\n1,1,2,1\n",
        b"pid,edge_id,fraction\n5,1,1/2\n6,1,1/3\n",
        "--start=1 --end=2 --details=true",
        "1,1,1,2,1,1,0,0\n\
         2,2,1,2,-6,1,0,0\n\
         3,3,1,2,-5,1,1,0\n\
         4,4,1,2,2,-1,0,1\n",
    )
}

#[test]
fn an_edge_of_cost_0_has_points(rt: HostRuntime) -> Result<(), Fail> {
    answers(
        &rt,
        b"id,source,target,cost\n1,1,2,0\n",
        HALF,
        "--start=1 --end=2 --details=true",
        "1,1,1,2,1,1,0,0\n\
         2,2,1,2,-1,1,0,0\n\
         3,3,1,2,2,-1,0,0\n",
    )
}

#[test]
fn routes_lead_between_two_points_of_one_edge_both_ways(rt: HostRuntime) -> Result<(), Fail> {
    answers(
        &rt,
        b"id,source,target,cost,reverse_cost\n1,1,2,8,8\n",
        b"pid,edge_id,fraction\n1,1,1/4\n2,1,3/4\n",
        "--start=-1,-2 --end=-1,-2",
        "1,1,-2,-1,-2,1,4,0\n\
         2,2,-2,-1,-1,-1,0,4\n\
         3,1,-1,-2,-1,1,4,0\n\
         4,2,-1,-2,-2,-1,0,4\n",
    )
}

#[test]
fn a_twentieth_digit_is_dropped(rt: HostRuntime) -> Result<(), Fail> {
    answers(
        &rt,
        STREET,
        b"pid,edge_id,fraction\n1,1,0.50000000000000000009\n",
        "--start=1 --end=-1",
        "1,1,1,-1,1,1,1,0\n2,2,1,-1,-1,-1,0,1\n",
    )?;
    refuses(
        &rt,
        b"pid,edge_id,fraction\n1,1,0.00000000000000000005\n",
        "pgr: points: record 2: bad fraction\n",
    )
}

#[test]
fn a_table_of_points_is_refused_with_its_first_fault(rt: HostRuntime) -> Result<(), Fail> {
    let faults = [
        (b"".as_slice(), "pgr: points: no header\n"),
        (
            b"pid,fraction\n".as_slice(),
            "pgr: points: column edge_id missing\n",
        ),
        (
            b"pid,edge_id,fraction,side,side\n".as_slice(),
            "pgr: points: column side repeated\n",
        ),
        (
            b"pid,edge_id,fraction\n1,1\n".as_slice(),
            "pgr: points: record 2 is uneven\n",
        ),
        (
            b"pid,edge_id,fraction\n0,1,0.5\n".as_slice(),
            "pgr: points: record 2: bad pid\n",
        ),
        (
            b"pid,edge_id,fraction\n1,-1,0.5\n".as_slice(),
            "pgr: points: record 2: bad edge_id\n",
        ),
        (
            b"pid,edge_id,fraction\n1,1,0.0\n".as_slice(),
            "pgr: points: record 2: bad fraction\n",
        ),
        (
            b"pid,edge_id,fraction\n1,1,1/1\n".as_slice(),
            "pgr: points: record 2: bad fraction\n",
        ),
        (
            b"pid,edge_id,fraction,side\n1,1,0.5,x\n".as_slice(),
            "pgr: points: record 2: bad side\n",
        ),
        (
            b"pid,edge_id,fraction\n1,1,0.5\n1,2,0.5\n".as_slice(),
            "pgr: points: record 3: id repeated\n",
        ),
    ];
    for (points, message) in faults {
        refuses(&rt, points, message)?;
    }
    Ok(())
}

#[test]
fn points_are_judged_behind_edges_and_before_combinations(rt: HostRuntime) -> Result<(), Fail> {
    let line = "pgr_withPoints --edges=a.csv --points=points.csv --combinations=p.csv";
    let case = Case {
        pairs: b"source\n",
        points: b"pid\n",
        ..Case::over(b"id\n")
    };
    let message = "pgr: edges: column source missing\n";
    case.refuses(&rt, line, Status::Table, message)?;
    let case = Case {
        edges: Some(STREET),
        ..case
    };
    let message = "pgr: points: column edge_id missing\n";
    case.refuses(&rt, line, Status::Table, message)?;
    let case = Case {
        points: HALF,
        ..case
    };
    let message = "pgr: combinations: column target missing\n";
    case.refuses(&rt, line, Status::Table, message)
}

#[test]
fn points_are_needed_behind_edges_and_a_side_is_one_of_three(rt: HostRuntime) -> Result<(), Fail> {
    let case = Case::over(STREET);
    let line = "pgr_withPoints --start=1 --end=2";
    case.refuses(&rt, line, Status::Words, "pgr: option edges missing\n")?;
    let line = "pgr_withPoints --edges=a.csv --end=2";
    case.refuses(&rt, line, Status::Words, "pgr: option points missing\n")?;
    let line = "pgr_withPoints --edges=a.csv --driving_side=R";
    let message = "pgr: bad value for driving_side\n";
    case.refuses(&rt, line, Status::Words, message)
}
