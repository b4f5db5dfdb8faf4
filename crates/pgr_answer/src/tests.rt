use crate::{Answered, Refused, Role, answer};
use pgr_outside::MemoryStore;
use pgr_rows::{CostRow, PathRow, ReachRow, Rows};
use pgr_table::TableFault;
use pgr_words::read_words;
use std::alloc::{AllocError, Global};
use std::process::Abort;
use std::test::Fail;

/// A link of cost 0 on the way from 1 to 4, a way back that costs less than the way there, and one that isn't there.
const EDGES: &[u8] =
    b"id,source,target,cost,reverse_cost\n1,1,2,3,3\n2,2,3,4,-1\n3,1,3,10,1\n4,3,4,0,0\n";

/// A pair that stands twice, and one of equal ends.
const PAIRS: &[u8] = b"source,target\n4,2\n1,4\n1,4\n1,1\n";

/// What words are answered with over the edges in the file `a.csv` and these pairs in the file `p.csv`.
fn answer_to(
    alloc: Global,
    words: &[&str],
    pairs: &[u8],
) -> Result<Result<Answered, Refused>, Fail> {
    let mut texts = Vec::new(alloc);
    for word in words {
        texts.push(String::from_str(alloc, *word)?)?;
    }
    let command = read_words(alloc, texts.as_slice())?;
    let mut files = Vec::new(alloc);
    let name = String::from_str(alloc, "a.csv")?;
    files.push((name, Vec::from_slice(alloc, EDGES)?))?;
    let name = String::from_str(alloc, "p.csv")?;
    files.push((name, Vec::from_slice(alloc, pairs)?))?;
    let mut store = MemoryStore::new(files, 16, Vec::new(alloc));
    Ok(answer(alloc, &command, &mut store))
}

/// Stops where the words aren't answered with these costs, each behind its start and its end.
fn assert_costs(
    rt: &impl Abort,
    alloc: Global,
    words: &[&str],
    costs: &[(i64, i64, u64)],
) -> Result<(), Fail> {
    let answered = answer_to(alloc, words, PAIRS)??;
    let Rows::Costs(rows) = &answered.rows else {
        panic!(rt; "a table of costs")
    };
    let rows: Vec<(i64, i64, u64)> = rows
        .as_slice()
        .iter()
        .map(|row| (row.start_vid, row.end_vid, row.agg_cost))
        .collect(alloc)?;
    assert_eq!(rt; rows.as_slice(), costs);
    assert!(rt; answered.notes.is_empty());
    Ok(())
}

/// The text of a refusal.
fn shown(alloc: Global, refused: Refused) -> Result<String, AllocError> {
    format!(in alloc; "{refused}")
}

/// The row with this number of the path from 1 to 4.
fn row(seq: u64, node: i64, edge: i64, cost: u64, agg_cost: u64) -> PathRow {
    PathRow {
        seq,
        path_seq: seq,
        start_vid: 1,
        end_vid: 4,
        node,
        edge,
        cost,
        agg_cost,
    }
}

#[test]
fn a_path_has_a_row_for_each_link_and_one_for_its_end(rt: HostRuntime) -> Result<(), Fail> {
    let words = ["pgr_dijkstra", "--edges=a.csv", "--start=1", "--end=4"];
    let answered = answer_to(rt.alloc(), &words, PAIRS)??;
    let Rows::Paths(rows) = &answered.rows else {
        panic!(rt; "a table of paths")
    };
    let expected = [
        row(1, 1, 1, 3, 0),
        row(2, 2, 2, 4, 3),
        row(3, 3, 4, 0, 7),
        row(4, 4, -1, 0, 7),
    ];
    assert_eq!(rt; rows.as_slice(), expected.as_slice());
    assert!(rt; answered.notes.is_empty());
    Ok(())
}

#[test]
fn a_pair_asked_twice_is_answered_once_and_equal_ends_are_not(rt: HostRuntime) -> Result<(), Fail> {
    let words = ["pgr_dijkstraCost", "--edges=a.csv", "--combinations=p.csv"];
    assert_costs(&rt, rt.alloc(), &words, &[(1, 4, 7), (4, 2, 4)])
}

#[test]
fn a_matrix_has_the_costs_both_ways(rt: HostRuntime) -> Result<(), Fail> {
    let words = ["pgr_dijkstraCostMatrix", "--edges=a.csv", "--vids=4,1,2"];
    let costs = [
        (1, 2, 3),
        (1, 4, 7),
        (2, 1, 3),
        (2, 4, 4),
        (4, 1, 1),
        (4, 2, 4),
    ];
    assert_costs(&rt, rt.alloc(), &words, &costs)
}

#[test]
fn a_vertex_within_the_distance_is_under_its_closest_start(rt: HostRuntime) -> Result<(), Fail> {
    let words = [
        "pgr_drivingDistance",
        "--edges=a.csv",
        "--start=3,1",
        "--distance=3",
        "--equicost=true",
    ];
    let answered = answer_to(rt.alloc(), &words, PAIRS)??;
    let Rows::Reaches(rows) = &answered.rows else {
        panic!(rt; "a table of reached vertices")
    };
    let shown: Vec<(u64, u32, i64, i64)> = rows
        .as_slice()
        .iter()
        .map(|row| (row.seq, row.depth, row.start_vid, row.node))
        .collect(rt.alloc())?;
    let expected = [(1, 0, 1, 1), (2, 1, 1, 2), (3, 0, 3, 3), (4, 1, 3, 4)];
    assert_eq!(rt; shown.as_slice(), expected.as_slice());
    let last = ReachRow {
        seq: 4,
        depth: 1,
        start_vid: 3,
        pred: 3,
        node: 4,
        edge: 4,
        cost: 0,
        agg_cost: 0,
    };
    assert_eq!(rt; rows.as_slice()[3], last);
    assert!(rt; answered.notes.is_empty());
    Ok(())
}

#[test]
fn a_file_that_is_not_there_is_a_failed_read(rt: HostRuntime) -> Result<(), Fail> {
    let words = ["pgr_dijkstra", "--edges=b.csv", "--start=1", "--end=4"];
    let refused = answer_to(rt.alloc(), &words, PAIRS)?.err();
    assert_eq!(rt; refused, Some(Refused::ReadFailed(Role::Edges)));
    Ok(())
}

#[test]
fn bad_combinations_are_told_behind_good_edges(rt: HostRuntime) -> Result<(), Fail> {
    let words = ["pgr_dijkstraCost", "--edges=a.csv", "--combinations=p.csv"];
    let refused = answer_to(rt.alloc(), &words, b"source,target\n4\n")?.err();
    let fault = TableFault::UnevenRecord(2);
    assert_eq!(rt; refused, Some(Refused::Table(Role::Combinations, fault)));
    Ok(())
}

#[test]
fn a_role_is_called_as_the_option_that_names_its_file(rt: HostRuntime) -> Result<(), Fail> {
    assert_eq!(rt; Role::Edges.name(), "edges");
    assert_eq!(rt; Role::Combinations.name(), "combinations");
    Ok(())
}

#[test]
fn a_refusal_is_shown_behind_its_role(rt: HostRuntime) -> Result<(), Fail> {
    let failed = shown(rt.alloc(), Refused::ReadFailed(Role::Combinations))?;
    assert_eq!(rt; failed.as_str(), "combinations: read failed");
    let long = shown(rt.alloc(), Refused::TooLong(Role::Edges))?;
    assert_eq!(rt; long.as_str(), "edges: file too long");
    let bad = shown(
        rt.alloc(),
        Refused::Table(Role::Edges, TableFault::NoHeader),
    )?;
    assert_eq!(rt; bad.as_str(), "edges: no header");
    let memory = shown(rt.alloc(), Refused::Memory)?;
    assert_eq!(rt; memory.as_str(), "want of memory");
    Ok(())
}
