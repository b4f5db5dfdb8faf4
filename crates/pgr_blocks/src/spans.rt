ghost use Rattle.std.specs.Prelude.{◌≡◌, ◌↔◌, ◌≤◌, ℤ, List, IfOk, IsTrue, length};
ghost use Rattle.pgr_spans.specs.Lists.{AreEndsOf};
ghost use Rattle.pgr_blocks.specs.Spans.{HasDirection, span_of, AreSpansOf};

use pgr_outside::NoMemory;
use pgr_spans::{Span, ends_are_few};
use pgr_table::{EdgeRow, EdgeTable};
use std::alloc::Global;

/// The rows of a table that have at least one direction, as edges without one, rising by edge.
///
/// A row has a direction where its cost or its reverse cost isn't negative; the two may differ, and it is one span then too.
/// The first end of a span is the source of its row. A self loop is a span, and so is each of several rows between two
/// vertices. A table has few enough rows for its spans to be handed to [`blocks`](pgr_spans::blocks).
/// `NoMemory` may come at any call. Work, not proved: a step for each row, and a sort.
pub fn spans_of(alloc: Global, table: &EdgeTable) -> Result<Vec<Span>, NoMemory>
    ensures spans { IfOk result (λ spans. AreSpansOf table.now spans.items) }
    ensures ends { IfOk result (λ spans. (ends : List ℤ) → AreEndsOf spans.items ends → length ends ≤ 8388608) }
{
    let rows = table.len();
    let mut spans = Vec::with_capacity(alloc, rows)?;
    for i in 0..rows {
        let row = table.row(i);
        if has_direction(row) {
            spans.push(span_of(row))?;
        }
    }
    spans.sort_unstable();
    ends_are_few(spans.as_slice());
    Ok(spans)
}

/// Whether one of the two costs isn't negative.
fn has_direction(row: EdgeRow) -> bool
    ensures { IsTrue result ↔ HasDirection row }
{
    row.cost >= 0 || row.reverse_cost >= 0
}

/// The row as an edge from its source to its target.
fn span_of(row: EdgeRow) -> Span
    ensures { result ≡ span_of row }
{
    Span {
        edge: row.id,
        a: row.source,
        b: row.target,
    }
}

#[cfg(test)]
mod tests {
    use super::*;
    use pgr_table::read_edges;
    use std::test::Fail;

    const TABLE: &[u8] =
        b"id,source,target,cost,reverse_cost\n5,1,2,-1,4\n3,2,1,7,9\n4,6,6,0,-1\n1,8,9,-1,-2\n";

    #[test]
    fn a_row_with_either_direction_is_one_span(rt: HostRuntime) -> Result<(), Fail> {
        let table = read_edges(rt.alloc(), TABLE, false)?;
        let spans = spans_of(rt.alloc(), &table)?;
        let expected = [
            Span {
                edge: 3,
                a: 2,
                b: 1,
            },
            Span {
                edge: 4,
                a: 6,
                b: 6,
            },
            Span {
                edge: 5,
                a: 1,
                b: 2,
            },
        ];
        assert_eq!(rt; spans.as_slice(), expected.as_slice());
        Ok(())
    }
}
