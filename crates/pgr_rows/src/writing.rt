ghost use Rattle.std.specs.Prelude.{◌≡◌, ◌≤◌, [], ◌∷◌, ◌++◌, OnOk, OnErr};
ghost use Rattle.pgr_outside.specs.Faults.{HasRisen};
ghost use Rattle.pgr_outside.specs.Sink.{with_added, AddsPrefix};
ghost use Rattle.pgr_rows.specs.Layout.{lines_of, table_text};
ghost use Rattle.pgr_rows.specs.Text.{text_of, values};

use crate::line::Piece;
use crate::record::Record;
use crate::rows::Rows;
use pgr_outside::{Failed, Listed, Sink, hand_on, write_all};

/// Writes the text of a table: the header line, then one line for each row.
///
/// `Failed` comes only where the sink's count of faults rose in this call, and then a prefix of the text
/// was added. The first piece that the sink is handed is the whole header line with its line feed; the lines
/// behind it are handed over in pieces of up to 16 KiB. It takes no memory.
pub fn write_table<O: Sink>(out: &mut O, rows: &Rows) -> Result<(), Failed>
    ensures text { OnOk result (O.written out.new ≡ with_added (O.written out.old) (text_of rows.now)) }
    ensures failed { OnErr result (HasRisen (O.faults out.old) (O.faults out.new)) }
    ensures front { OnErr result (AddsPrefix (O.written out.old) (O.written out.new) (text_of rows.now)) }
    ensures faults { O.faults out.old ≤ O.faults out.new }
{
    match rows {
        Rows::Paths(rows) => write_records(out, rows),
        Rows::Parts(rows) => write_records(out, rows),
        Rows::Classes(rows) => write_records(out, rows),
        Rows::Nodes(ids) => write_under(out, "node\n", ids),
        Rows::Edges(ids) => write_under(out, "edge\n", ids),
        Rows::Costs(rows) => write_records(out, rows),
        Rows::Reaches(rows) => write_records(out, rows),
        Rows::Ksp(rows) => write_records(out, rows),
        Rows::Contractions(rows) => write_records(out, rows),
        Rows::Value(value) => write_value(out, *value),
        Rows::Flows(rows) => write_records(out, rows),
        Rows::Cuts(rows) => write_records(out, rows),
    }
}

/// Writes the header line of a value, and then its line.
fn write_value<O: Sink>(out: &mut O, value: u64) -> Result<(), Failed>
    ensures text { OnOk result (O.written out.new ≡ with_added (O.written out.old) (table_text values (value ∷ []))) }
    ensures failed { OnErr result (HasRisen (O.faults out.old) (O.faults out.new)) }
    ensures front { OnErr result (AddsPrefix (O.written out.old) (O.written out.new) (table_text values (value ∷ []))) }
    ensures faults { O.faults out.old ≤ O.faults out.new }
{
    write_rows(out, <u64 as Record>::header(), &[value])
}

/// Writes the header line of a kind of row, and then the lines of rows.
fn write_records<O: Sink, R: Record>(out: &mut O, rows: &Listed<R>) -> Result<(), Failed>
    ensures text { OnOk result (O.written out.new ≡ with_added (O.written out.old) (table_text R.layout rows.now)) }
    ensures failed { OnErr result (HasRisen (O.faults out.old) (O.faults out.new)) }
    ensures front { OnErr result (AddsPrefix (O.written out.old) (O.written out.new) (table_text R.layout rows.now)) }
    ensures faults { O.faults out.old ≤ O.faults out.new }
{
    write_under(out, R::header(), rows)
}

/// Writes a header line, and then the lines of rows.
fn write_under<O: Sink, R: Record>(
    out: &mut O,
    header: &str,
    rows: &Listed<R>,
) -> Result<(), Failed>
    ensures text { OnOk result (O.written out.new ≡ with_added (O.written out.old) (header.now ++ lines_of R.layout rows.now)) }
    ensures failed { OnErr result (HasRisen (O.faults out.old) (O.faults out.new)) }
    ensures front { OnErr result (AddsPrefix (O.written out.old) (O.written out.new) (header.now ++ lines_of R.layout rows.now)) }
    ensures faults { O.faults out.old ≤ O.faults out.new }
{
    write_rows(out, header, rows.as_slice())
}

/// Writes a header line, and then the lines of rows.
fn write_rows<O: Sink, R: Record>(out: &mut O, header: &str, rows: &[R]) -> Result<(), Failed>
    ensures text { OnOk result (O.written out.new ≡ with_added (O.written out.old) (header.now ++ lines_of R.layout rows.now)) }
    ensures failed { OnErr result (HasRisen (O.faults out.old) (O.faults out.new)) }
    ensures front { OnErr result (AddsPrefix (O.written out.old) (O.written out.new) (header.now ++ lines_of R.layout rows.now)) }
    ensures faults { O.faults out.old ≤ O.faults out.new }
{
    write_all(out, header.as_bytes())?;
    write_lines(out, rows)?;
    Ok(())
}

/// Writes the lines of rows, gathered into large pieces.
fn write_lines<O: Sink, R: Record>(out: &mut O, rows: &[R]) -> Result<(), Failed>
    ensures text { OnOk result (O.written out.new ≡ with_added (O.written out.old) (lines_of R.layout rows.now)) }
    ensures failed { OnErr result (HasRisen (O.faults out.old) (O.faults out.new)) }
    ensures front { OnErr result (AddsPrefix (O.written out.old) (O.written out.new) (lines_of R.layout rows.now)) }
    ensures faults { O.faults out.old ≤ O.faults out.new }
{
    let mut piece = Piece::new();
    for row in rows {
        row.gather(out, &mut piece)?;
    }
    hand_on(out, &mut piece)?;
    Ok(())
}

#[cfg(test)]
mod tests {
    use super::*;
    use crate::rows::{
        ClassRow, ContractRow, CostRow, CutRow, FlowRow, KspRow, PartRow, PathRow, ReachRow,
    };
    use pgr_outside::MemorySink;
    use std::test::Fail;

    const ROW: PathRow = PathRow {
        seq: 1,
        path_seq: 2,
        start_vid: 0,
        end_vid: 9223372036854775807,
        node: -5,
        edge: -1,
        cost: 0,
        agg_cost: 18446744073709551615,
    };

    #[test]
    fn numbers_are_decimal_and_a_table_without_rows_is_its_header(
        rt: HostRuntime,
    ) -> Result<(), Fail> {
        let line = "1,2,0,9223372036854775807,-5,-1,0,18446744073709551615\n";
        for (count, lines) in [(0usize, ""), (1, line)] {
            let mut rows = Vec::new(rt.alloc());
            for _ in 0..count {
                rows.push(ROW)?;
            }
            let mut out = MemorySink::with_room(rt.alloc(), 256, 7, Vec::new(rt.alloc()))?;
            write_table(&mut out, &Rows::Paths(Listed::from_vec(rows)))?;
            let mut want = Vec::from_slice(rt.alloc(), PathRow::header().as_bytes())?;
            want.extend_from_slice(lines.as_bytes())?;
            assert_eq!(rt; out.bytes(), want.as_slice());
        }
        Ok(())
    }

    #[test]
    fn a_row_of_several_paths_has_the_number_of_its_path(rt: HostRuntime) -> Result<(), Fail> {
        let mut rows = Vec::new(rt.alloc());
        rows.push(KspRow {
            seq: 1,
            path_id: 2,
            path_seq: 3,
            start_vid: -4,
            end_vid: 5,
            node: -6,
            edge: -1,
            cost: 8,
            agg_cost: 9,
        })?;
        let mut out = MemorySink::with_room(rt.alloc(), 128, 7, Vec::new(rt.alloc()))?;
        write_table(&mut out, &Rows::Ksp(Listed::from_vec(rows)))?;
        assert_eq!(rt;
            out.bytes(),
            b"seq,path_id,path_seq,start_vid,end_vid,node,edge,cost,agg_cost\n1,2,3,-4,5,-6,-1,8,9\n".as_slice()
        );
        Ok(())
    }

    #[test]
    fn a_row_of_components_has_three_fields(rt: HostRuntime) -> Result<(), Fail> {
        let mut rows = Vec::new(rt.alloc());
        rows.push(PartRow {
            seq: 1,
            component: -2,
            node: 4,
        })?;
        let mut out = MemorySink::with_room(rt.alloc(), 64, 7, Vec::new(rt.alloc()))?;
        write_table(&mut out, &Rows::Parts(Listed::from_vec(rows)))?;
        assert_eq!(rt; out.bytes(), b"seq,component,node\n1,-2,4\n".as_slice());
        Ok(())
    }

    #[test]
    fn a_row_of_blocks_has_three_fields(rt: HostRuntime) -> Result<(), Fail> {
        let mut rows = Vec::new(rt.alloc());
        rows.push(ClassRow {
            seq: 1,
            component: 2,
            edge: 4,
        })?;
        let mut out = MemorySink::with_room(rt.alloc(), 64, 7, Vec::new(rt.alloc()))?;
        write_table(&mut out, &Rows::Classes(Listed::from_vec(rows)))?;
        assert_eq!(rt; out.bytes(), b"seq,component,edge\n1,2,4\n".as_slice());
        Ok(())
    }

    #[test]
    fn ids_stand_one_a_line_under_the_header_of_their_table(rt: HostRuntime) -> Result<(), Fail> {
        let ids = Vec::from_slice(rt.alloc(), [-3i64, 10].as_slice())?;
        let mut out = MemorySink::with_room(rt.alloc(), 64, 7, Vec::new(rt.alloc()))?;
        write_table(&mut out, &Rows::Nodes(Listed::from_vec(ids)))?;
        assert_eq!(rt; out.bytes(), b"node\n-3\n10\n".as_slice());
        let ids = Vec::from_slice(rt.alloc(), [4i64].as_slice())?;
        let mut out = MemorySink::with_room(rt.alloc(), 64, 7, Vec::new(rt.alloc()))?;
        write_table(&mut out, &Rows::Edges(Listed::from_vec(ids)))?;
        assert_eq!(rt; out.bytes(), b"edge\n4\n".as_slice());
        Ok(())
    }

    #[test]
    fn a_row_of_costs_has_three_fields(rt: HostRuntime) -> Result<(), Fail> {
        let mut rows = Vec::new(rt.alloc());
        rows.push(CostRow {
            start_vid: -1,
            end_vid: 4,
            agg_cost: 7,
        })?;
        let mut out = MemorySink::with_room(rt.alloc(), 64, 7, Vec::new(rt.alloc()))?;
        write_table(&mut out, &Rows::Costs(Listed::from_vec(rows)))?;
        assert_eq!(rt;
            out.bytes(),
            b"start_vid,end_vid,agg_cost\n-1,4,7\n".as_slice()
        );
        Ok(())
    }

    #[test]
    fn a_row_of_reached_vertices_has_eight_fields(rt: HostRuntime) -> Result<(), Fail> {
        let mut rows = Vec::new(rt.alloc());
        rows.push(ReachRow {
            seq: 1,
            depth: 2,
            start_vid: -3,
            pred: 4,
            node: 5,
            edge: -1,
            cost: 6,
            agg_cost: 7,
        })?;
        let mut out = MemorySink::with_room(rt.alloc(), 128, 7, Vec::new(rt.alloc()))?;
        write_table(&mut out, &Rows::Reaches(Listed::from_vec(rows)))?;
        assert_eq!(rt;
            out.bytes(),
            b"seq,depth,start_vid,pred,node,edge,cost,agg_cost\n1,2,-3,4,5,-1,6,7\n".as_slice()
        );
        Ok(())
    }

    #[test]
    fn contents_stand_in_braces_and_between_quotes_where_a_comma_is(
        rt: HostRuntime,
    ) -> Result<(), Fail> {
        let mut rows = Vec::new(rt.alloc());
        for ids in [[2i64].as_slice(), &[-3, 10, 4]] {
            let inside = Listed::from_vec(Vec::from_slice(rt.alloc(), ids)?);
            rows.push(ContractRow::Vertex { id: 7, inside })?;
        }
        let inside = Listed::from_vec(Vec::from_slice(rt.alloc(), [5i64, 6].as_slice())?);
        rows.push(ContractRow::Shortcut {
            id: -1,
            inside,
            source: 1,
            target: 4,
            cost: 9,
        })?;
        let mut out = MemorySink::with_room(rt.alloc(), 256, 7, Vec::new(rt.alloc()))?;
        write_table(&mut out, &Rows::Contractions(Listed::from_vec(rows)))?;
        assert_eq!(rt;
            out.bytes(),
            b"type,id,contracted_vertices,source,target,cost\nv,7,{2},-1,-1,-1\nv,7,\"{-3,10,4}\",-1,-1,-1\ne,-1,\"{5,6}\",1,4,9\n".as_slice()
        );
        Ok(())
    }

    #[test]
    fn a_value_is_one_line_also_where_it_is_0(rt: HostRuntime) -> Result<(), Fail> {
        let mut out = MemorySink::with_room(rt.alloc(), 64, 7, Vec::new(rt.alloc()))?;
        write_table(&mut out, &Rows::Value(0))?;
        assert_eq!(rt; out.bytes(), b"max_flow\n0\n".as_slice());
        Ok(())
    }

    #[test]
    fn rows_of_flows_and_of_cuts_end_with_capacities(rt: HostRuntime) -> Result<(), Fail> {
        let mut rows = Vec::new(rt.alloc());
        rows.push(FlowRow {
            seq: 1,
            edge: 2,
            start_vid: -3,
            end_vid: 4,
            flow: 5,
            residual_capacity: 18446744073709551615,
        })?;
        let mut out = MemorySink::with_room(rt.alloc(), 128, 7, Vec::new(rt.alloc()))?;
        write_table(&mut out, &Rows::Flows(Listed::from_vec(rows)))?;
        assert_eq!(rt;
            out.bytes(),
            b"seq,edge,start_vid,end_vid,flow,residual_capacity\n1,2,-3,4,5,18446744073709551615\n".as_slice()
        );
        let mut rows = Vec::new(rt.alloc());
        rows.push(CutRow {
            seq: 1,
            edge: 2,
            start_vid: -3,
            end_vid: 4,
            capacity: 6,
        })?;
        let mut out = MemorySink::with_room(rt.alloc(), 64, 7, Vec::new(rt.alloc()))?;
        write_table(&mut out, &Rows::Cuts(Listed::from_vec(rows)))?;
        assert_eq!(rt;
            out.bytes(),
            b"seq,edge,start_vid,end_vid,capacity\n1,2,-3,4,6\n".as_slice()
        );
        Ok(())
    }
}
