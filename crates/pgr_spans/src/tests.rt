ghost use Rattle.std.specs.Prelude.{◌≤◌, length, IfOk};
ghost use Rattle.pgr_spans.specs.Lists.{HaveRisingEdges};

use crate::{Classed, Span, blocks, ends_are_few, spans_of_one_block_have_one_name};
use std::alloc::{AllocError, Global};
use std::test::Fail;

// A triangle at 3, a bridge from 3 to 4, a loop at 4, and two parallel spans between 4 and 5.
#[test]
fn a_triangle_a_bridge_a_loop_and_a_parallel_pair(rt: HostRuntime) -> Result<(), Fail> {
    let spans = [
        Span {
            edge: 1,
            a: 1,
            b: 2,
        },
        Span {
            edge: 2,
            a: 2,
            b: 3,
        },
        Span {
            edge: 3,
            a: 3,
            b: 1,
        },
        Span {
            edge: 4,
            a: 3,
            b: 4,
        },
        Span {
            edge: 5,
            a: 4,
            b: 4,
        },
        Span {
            edge: 6,
            a: 4,
            b: 5,
        },
        Span {
            edge: 7,
            a: 5,
            b: 4,
        },
    ];
    ends_are_few(&spans);
    spans_of_one_block_have_one_name(&spans);
    let lists = blocks(rt.alloc(), &spans)?;
    let classes = [
        Classed {
            component: 1,
            edge: 1,
        },
        Classed {
            component: 1,
            edge: 2,
        },
        Classed {
            component: 1,
            edge: 3,
        },
        Classed {
            component: 4,
            edge: 4,
        },
        Classed {
            component: 5,
            edge: 5,
        },
        Classed {
            component: 6,
            edge: 6,
        },
        Classed {
            component: 6,
            edge: 7,
        },
    ];
    assert_eq!(rt; lists.classes.as_slice(), classes.as_slice());
    assert_eq!(rt; lists.points.as_slice(), [3, 4].as_slice());
    assert_eq!(rt; lists.bridges.as_slice(), [4].as_slice());
    Ok(())
}

/// The number of spans in a long path.
const LONG: usize = 200_000;

/// The spans of a long path: each leads from the number of its edge to the next number.
fn long_path(alloc: Global) -> Result<Vec<Span>, AllocError>
    ensures rise { IfOk result (λ spans. HaveRisingEdges spans.items) }
    ensures few { IfOk result (λ spans. length spans.items ≤ 200000) }
{
    let mut spans = Vec::with_capacity(alloc, LONG)?;
    for i in 0..LONG {
        let edge = i as i64 + 1;
        spans.push(Span {
            edge,
            a: edge,
            b: edge + 1,
        })?;
    }
    Ok(spans)
}

// The search goes as deep as the path is long.
#[test]
fn each_span_of_a_long_path_is_a_block_and_a_bridge(rt: HostRuntime) -> Result<(), Fail> {
    let spans = long_path(rt.alloc())?;
    ends_are_few(spans.as_slice());
    let lists = blocks(rt.alloc(), spans.as_slice())?;
    assert_eq!(rt; lists.classes.len(), LONG);
    assert!(rt;
        lists
            .classes
            .iter()
            .all(|class| class.component == class.edge)
    );
    assert_eq!(rt; lists.points.len(), LONG - 1);
    assert_eq!(rt; lists.bridges.len(), LONG);
    Ok(())
}
