use crate::{
    CapacityRow, CapacityTable, Column, EdgeRow, PairRow, PairTable, Place, PointRow, PointTable,
    RestrictionTable, Table, TableFault, TableRefused, read_capacities, read_combinations,
    read_edges, read_points, read_restrictions,
};
use pgr_outside::{MemorySink, Side, write_parts};
use std::test::Fail;

// A table, and its number of rows or its fault.
type Case<'a> = (&'a [u8], Result<usize, TableFault>);

const fn edge(id: i64, source: i64, target: i64, cost: i64, reverse_cost: i64) -> EdgeRow {
    EdgeRow {
        id,
        source,
        target,
        cost,
        reverse_cost,
        place: None,
    }
}

// As a planner's tool writes it: columns in its own order, quoted names with commas, CR LF, no LF at the end.
const EXPORT: &[u8] =
    b"cost,name,reverse_cost,target,name,source,id\r\n3.0,\"Main St, north\",,2,x,1,7\r\n0.0,\"a \"\"b\"\"\",-4,3,,2,005\r\n12,z,6,1,,3,9";

// Four edges, three of them both ways.
const TABLE: &[u8] =
    b"id,source,target,cost,reverse_cost\n1,1,2,3,3\n2,2,3,4,-1\n3,1,3,10,1\n4,3,4,0,0\n";

#[test]
fn an_export_is_read_whole(rt: HostRuntime) -> Result<(), Fail> {
    let table = read_edges(rt.alloc(), EXPORT, false)?;
    assert_eq!(rt; table.len(), 3);
    assert!(rt; !table.is_empty());
    assert_eq!(rt; table.row(0), edge(7, 1, 2, 3, -1));
    assert_eq!(rt; table.row(1), edge(5, 2, 3, 0, -4));
    assert_eq!(rt; table.row(2), edge(9, 3, 1, 12, 6));
    assert_eq!(rt; table.find(5), Some(1));
    assert_eq!(rt; table.find(2), None);
    Ok(())
}

#[test]
fn the_first_fault_is_named(rt: HostRuntime) {
    let cases: [Case<'_>; 12] = [
        (b"", Err(TableFault::NoHeader)),
        (b"\n\n", Err(TableFault::NoHeader)),
        (
            b"id,source,cost",
            Err(TableFault::MissingColumn(Column::Target)),
        ),
        (
            b"id,source,target,cost,cost",
            Err(TableFault::RepeatedColumn(Column::Cost)),
        ),
        (
            b"id,source,target,cost,reverse_cost\n1,1,2,1e3,-1\n",
            Err(TableFault::BadField(2, Column::Cost)),
        ),
        (
            b"id,source,target,cost\n1,1,2,\n",
            Err(TableFault::BadField(2, Column::Cost)),
        ),
        (
            b"id,source,target,cost\n1,-1,2,3\n",
            Err(TableFault::BadField(2, Column::Source)),
        ),
        (
            b"id,source,target,cost\n1,1,2,3\n2,1,2,3\n1,1,2,3\n",
            Err(TableFault::DuplicateId(4)),
        ),
        (
            b"id,source,target,cost,reverse_cost\n1,1,2,9223372036854775800,3\n2,1,2,4,-9\n",
            Ok(2),
        ),
        (
            b"id,source,target,cost,reverse_cost\n1,1,2,9223372036854775800,3\n2,1,2,-9,5\n",
            Err(TableFault::CostSum(3)),
        ),
        (
            &EXPORT[..EXPORT.len() - 2],
            Err(TableFault::UnevenRecord(4)),
        ),
        (
            &EXPORT[..EXPORT.len() - 1],
            Err(TableFault::BadField(4, Column::Id)),
        ),
    ];
    for (bytes, answer) in cases {
        let rows = read_edges(rt.alloc(), bytes, false).map(|table| table.len());
        assert_eq!(rt; rows, answer.map_err(TableRefused::Fault));
    }
}

#[test]
fn ids_that_rise_are_found(rt: HostRuntime) -> Result<(), Fail> {
    let bytes = b"id,source,target,cost\n2,1,2,3\n5,2,3,4\n6,1,3,10\n90,3,4,0\n";
    let table = read_edges(rt.alloc(), bytes, false)?;
    assert_eq!(rt; table.len(), 4);
    assert_eq!(rt; table.row(3), edge(90, 3, 4, 0, -1));
    assert_eq!(rt; table.find(2), Some(0));
    assert_eq!(rt; table.find(5), Some(1));
    assert_eq!(rt; table.find(6), Some(2));
    assert_eq!(rt; table.find(90), Some(3));
    assert_eq!(rt; table.find(1), None);
    assert_eq!(rt; table.find(7), None);
    assert_eq!(rt; table.find(91), None);
    Ok(())
}

#[test]
fn ids_in_any_order_are_found(rt: HostRuntime) -> Result<(), Fail> {
    let bytes = b"id,source,target,cost\n3,1,2,3\n9,2,3,4\n1,1,3,10\n7,3,4,0\n";
    let table = read_edges(rt.alloc(), bytes, false)?;
    assert_eq!(rt; table.len(), 4);
    assert_eq!(rt; table.row(2), edge(1, 1, 3, 10, -1));
    assert_eq!(rt; table.find(3), Some(0));
    assert_eq!(rt; table.find(9), Some(1));
    assert_eq!(rt; table.find(1), Some(2));
    assert_eq!(rt; table.find(7), Some(3));
    assert_eq!(rt; table.find(2), None);
    assert_eq!(rt; table.find(10), None);
    Ok(())
}

#[test]
fn an_id_stands_once_whether_ids_rise_or_not(rt: HostRuntime) {
    let cases: [Case<'_>; 6] = [
        (
            b"id,source,target,cost\n2,1,2,3\n5,1,2,3\n5,1,2,3\n",
            Err(TableFault::DuplicateId(4)),
        ),
        (
            b"id,source,target,cost\n2,1,2,3\n5,1,2,3\n8,1,2,3\n2,1,2,3\n",
            Err(TableFault::DuplicateId(5)),
        ),
        (
            b"id,source,target,cost\n2,1,2,3\n5,1,2,3\n8,1,2,3\n7,1,2,3\n",
            Ok(4),
        ),
        (
            b"id,source,target,cost\n5,1,2,3\n2,1,2,3\n2,1,2,3\n",
            Err(TableFault::DuplicateId(4)),
        ),
        (
            b"id,source,target,cost\n5,1,2,3\n2,1,2,3\n9,1,2,3\n5,1,2,3\n",
            Err(TableFault::DuplicateId(5)),
        ),
        (
            b"id,source,target,cost\n5,1,2,3\n2,1,2,3\n9,1,2,3\n8,1,2,3\n10,1,2,3\n",
            Ok(5),
        ),
    ];
    for (bytes, answer) in cases {
        let rows = read_edges(rt.alloc(), bytes, false).map(|table| table.len());
        assert_eq!(rt; rows, answer.map_err(TableRefused::Fault));
    }
}

// The number of rows of the front of the table with this many bytes, or its fault.
const fn answer_of_front(end: usize) -> Result<usize, TableFault> {
    match end {
        0 => Err(TableFault::NoHeader),
        1 => Err(TableFault::MissingColumn(Column::Id)),
        2..=8 => Err(TableFault::MissingColumn(Column::Source)),
        9..=15 => Err(TableFault::MissingColumn(Column::Target)),
        16..=20 => Err(TableFault::MissingColumn(Column::Cost)),
        21..=35 => Ok(0),
        36..=42 => Err(TableFault::UnevenRecord(2)),
        43..=45 => Ok(1),
        46..=52 => Err(TableFault::UnevenRecord(3)),
        53 => Ok(2),
        54 => Err(TableFault::BadField(3, Column::ReverseCost)),
        55..=56 => Ok(2),
        57..=64 => Err(TableFault::UnevenRecord(4)),
        65..=67 => Ok(3),
        68..=74 => Err(TableFault::UnevenRecord(5)),
        _ => Ok(4),
    }
}

#[test]
fn every_front_of_a_table_has_its_answer(rt: HostRuntime) {
    assert_eq!(rt; TABLE.len(), 77);
    for end in 0..=TABLE.len() {
        let rows = read_edges(rt.alloc(), &TABLE[..end], false).map(|table| table.len());
        assert_eq!(rt;
            rows,
            answer_of_front(end).map_err(TableRefused::Fault),
            "at {end}"
        );
    }
}

#[test]
fn a_pair_may_stand_twice(rt: HostRuntime) -> Result<(), Fail> {
    let table = read_combinations(rt.alloc(), b"target,source\n-2,1\n-2,1\n3,04\n")?;
    assert_eq!(rt; table.len(), 3);
    assert!(rt; !table.is_empty());
    let pair = PairRow {
        source: 1,
        target: -2,
    };
    assert_eq!(rt; table.row(0), pair);
    assert_eq!(rt; table.row(1), pair);
    assert_eq!(rt; table.row(2).source, 4);
    let refused = PairTable::read(rt.alloc(), b"source,target\n1,2\n1,2.0\n").err();
    assert_eq!(rt;
        refused,
        Some(TableRefused::Fault(TableFault::BadField(3, Column::Target)))
    );
    assert_eq!(rt; Column::ReverseCost.name(), "reverse_cost");
    Ok(())
}

#[test]
fn places_are_read_where_they_are_wanted(rt: HostRuntime) -> Result<(), Fail> {
    let bytes = b"y2,id,source,target,cost,x1,y1,x2\n4.0,7,1,2,3,-1,2,1000000000000000\n";
    let place = Place {
        x1: -1,
        y1: 2,
        x2: 1_000_000_000_000_000,
        y2: 4,
    };
    let row = EdgeRow {
        place: Some(place),
        ..edge(7, 1, 2, 3, -1)
    };
    let table = read_edges(rt.alloc(), bytes, true)?;
    assert_eq!(rt; table.len(), 1);
    assert_eq!(rt; table.row(0), row);
    assert_eq!(rt; table.find(7), Some(0));
    let plain = read_edges(rt.alloc(), bytes, false)?;
    assert_eq!(rt; plain.len(), 1);
    assert_eq!(rt; plain.row(0), edge(7, 1, 2, 3, -1));
    Ok(())
}

#[test]
fn coordinates_are_judged_behind_the_costs(rt: HostRuntime) {
    let cases: [Case<'_>; 5] = [
        (
            b"id,source,target,cost,x1,y1,x2\n",
            Err(TableFault::MissingColumn(Column::Y2)),
        ),
        (
            b"id,source,target,cost,x1,y1,x1,y1,reverse_cost,reverse_cost,x2,y2\n",
            Err(TableFault::RepeatedColumn(Column::ReverseCost)),
        ),
        (
            b"x1,y1,x2,y2,id,source,target,cost\nx,,,,1,1,2,x\n",
            Err(TableFault::BadField(2, Column::Cost)),
        ),
        (
            b"x1,y1,x2,y2,id,source,target,cost\n1,1000000000000001,1,1,1,1,2,1\n",
            Err(TableFault::BadField(2, Column::Y1)),
        ),
        (
            b"x1,y1,x2,y2,id,source,target,cost\n1,1,,1,1,1,2,1\n",
            Err(TableFault::BadField(2, Column::X2)),
        ),
    ];
    for (bytes, answer) in cases {
        let rows = read_edges(rt.alloc(), bytes, true).map(|table| table.len());
        assert_eq!(rt; rows, answer.map_err(TableRefused::Fault));
    }
}

#[test]
fn capacities_are_summed_over_both_columns(rt: HostRuntime) -> Result<(), Fail> {
    let table = read_capacities(
        rt.alloc(),
        b"capacity,id,source,target,cost\n3.0,7,1,2,x\n-4,5,2,2,x\n",
    )?;
    assert_eq!(rt; table.len(), 2);
    assert!(rt; !table.is_empty());
    let row = CapacityRow {
        id: 5,
        source: 2,
        target: 2,
        capacity: -4,
        reverse_capacity: -1,
    };
    assert_eq!(rt; table.row(1), row);
    assert_eq!(rt; table.row(0).capacity, 3);
    for (bytes, fault) in [
        (
            b"id,source,target,cost\n".as_slice(),
            TableFault::MissingColumn(Column::Capacity),
        ),
        (
            b"id,source,target,capacity,reverse_capacity\n1,1,1,9223372036854775807,1\n",
            TableFault::CostSum(2),
        ),
        (
            b"id,source,target,capacity\n1,1,2,1\n1,1,2,1\n",
            TableFault::DuplicateId(3),
        ),
        (
            b"id,source,target,capacity,reverse_capacity\n1,1,2,1,x\n",
            TableFault::BadField(2, Column::ReverseCapacity),
        ),
    ] {
        let refused = CapacityTable::read(rt.alloc(), bytes).err();
        assert_eq!(rt; refused, Some(TableRefused::Fault(fault)));
    }
    Ok(())
}

#[test]
fn a_point_has_a_fraction_and_a_side(rt: HostRuntime) -> Result<(), Fail> {
    let table = read_points(
        rt.alloc(),
        b"side,pid,edge_id,fraction\nr,1,0,0.50\n,2,7,2/4\n",
    )?;
    assert_eq!(rt; table.len(), 2);
    assert!(rt; !table.is_empty());
    let first = PointRow {
        pid: 1,
        edge_id: 0,
        over: 50,
        under: 100,
        side: Side::R,
    };
    let second = PointRow {
        pid: 2,
        edge_id: 7,
        over: 2,
        under: 4,
        side: Side::B,
    };
    assert_eq!(rt; table.row(0), first);
    assert_eq!(rt; table.row(1), second);
    let sideless = read_points(rt.alloc(), b"pid,edge_id,fraction\n1,1,0.5\n")?;
    assert_eq!(rt; sideless.len(), 1);
    assert_eq!(rt; sideless.row(0).side, Side::B);
    for (bytes, fault) in [
        (
            b"pid,edge_id,fraction\n0,1,0.5\n".as_slice(),
            TableFault::BadField(2, Column::Pid),
        ),
        (
            b"pid,edge_id,fraction\n1,-1,0.5\n",
            TableFault::BadField(2, Column::EdgeId),
        ),
        (
            b"pid,edge_id,fraction\n1,1,1.0\n",
            TableFault::BadField(2, Column::Fraction),
        ),
        (
            b"pid,edge_id,fraction,side\n1,1,0.5,B\n",
            TableFault::BadField(2, Column::SideOf),
        ),
        (
            b"pid,edge_id,fraction\n1,1,0.5\n1,2,0.5\n",
            TableFault::DuplicateId(3),
        ),
    ] {
        let refused = PointTable::read(rt.alloc(), bytes).err();
        assert_eq!(rt; refused, Some(TableRefused::Fault(fault)));
    }
    Ok(())
}

#[test]
fn restrictions_keep_the_empty_list(rt: HostRuntime) -> Result<(), Fail> {
    let table = read_restrictions(
        rt.alloc(),
        b"cost,path,cost\nx,\"{1,-2,1}\",\nx,{},\n,,y\n1,{7},1\n",
    )?;
    assert_eq!(rt; table.len(), 4);
    assert!(rt; !table.is_empty());
    assert_eq!(rt; table.row(0), [1, -2, 1].as_slice());
    assert!(rt; table.row(1).is_empty());
    assert!(rt; table.row(2).is_empty());
    assert_eq!(rt; table.row(3), [7].as_slice());
    for (bytes, fault) in [
        (
            b"cost\n".as_slice(),
            TableFault::MissingColumn(Column::Path),
        ),
        (b"path,path\n", TableFault::RepeatedColumn(Column::Path)),
        (
            b"path\n{1}\n\"{1, 2}\"\n",
            TableFault::BadField(3, Column::Path),
        ),
    ] {
        let refused = RestrictionTable::read(rt.alloc(), bytes).err();
        assert_eq!(rt; refused, Some(TableRefused::Fault(fault)));
    }
    Ok(())
}

#[test]
fn display_says_what_the_parts_say(rt: HostRuntime) -> Result<(), Fail> {
    for fault in [
        TableFault::NoHeader,
        TableFault::UnevenRecord(5),
        TableFault::MissingColumn(Column::Target),
        TableFault::RepeatedColumn(Column::Cost),
        TableFault::BadField(u64::MAX, Column::ReverseCost),
        TableFault::DuplicateId(3),
        TableFault::TooManyRows(4194306),
        TableFault::CostSum(2),
    ] {
        let mut said = MemorySink::with_room(rt.alloc(), 100, 100, Vec::new(rt.alloc()))?;
        write_parts(&mut said, &fault.parts())?;
        let shown = format!(in rt.alloc(); "{fault}")?;
        assert_eq!(rt; said.bytes(), shown.as_str().as_bytes());
    }
    Ok(())
}
