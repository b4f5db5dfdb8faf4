ghost use Rattle.std.specs.Prelude.{ℤ, ◌<◌, if◌then◌else◌};
ghost use Rattle.std.specs.Ordering.{int_eq};
ghost use Rattle.pgr_walks.specs.declared.visitor.Next.TheVariants.{Go, Stop};

use super::*;
use std::alloc::Global;
use std::mem::size_of;
use std::test::Fail;

/// Keeps the links that it is shown, and stops at an edge.
#[derive(Drop)]
struct Collector {
    last: i64,
    seen: Vec<Link>,
}

impl LinkVisitor for Collector {
    ghost Meaning = { ℤ };

    ghost meaning = { λ collector. collector.last };

    ghost after = { λ last link. last };

    ghost answer = { λ last link. if int_eq link.edge last then Stop else Go };

    ghost ready = { λ last link. Unit {0} };

    fn see(&mut self, link: Link) -> Next {
        let _ = self.seen.push(link);
        if link.edge == self.last {
            Next::Stop
        } else {
            Next::Go
        }
    }
}

const SLOW: Link = Link {
    from: 0,
    edge: 3,
    cost: 9,
    to: 1,
};

const QUICK: Link = Link {
    from: 0,
    edge: 3,
    cost: 1,
    to: 1,
};

const BACK: Link = Link {
    from: 2,
    edge: 3,
    cost: 1,
    to: 1,
};

const LOOP: Link = Link {
    from: 1,
    edge: 4,
    cost: 0,
    to: 1,
};

const ONWARD: Link = Link {
    from: 1,
    edge: 5,
    cost: 2,
    to: 2,
};

const ONWARD_TURNED: Link = Link {
    from: 2,
    edge: 5,
    cost: 2,
    to: 1,
};

const LATE: Link = Link {
    from: 0,
    edge: 7,
    cost: 4,
    to: 1,
};

/// The links out of a vertex that a graph shows, up to an edge.
fn shown_out<G: Graph>(alloc: Global, graph: &G, v: u32, last: i64) -> Vec<Link>
    requires { v < G.count graph.now }
{
    let mut collector = Collector {
        last,
        seen: Vec::new(alloc),
    };
    graph.each_out(v, &mut collector);
    let Collector { last: _, seen } = collector;
    seen
}

/// The links into a vertex that a graph shows, up to an edge.
fn shown_in<G: Graph>(alloc: Global, graph: &G, v: u32, last: i64) -> Vec<Link>
    requires { v < G.count graph.now }
{
    let mut collector = Collector {
        last,
        seen: Vec::new(alloc),
    };
    graph.each_in(v, &mut collector);
    let Collector { last: _, seen } = collector;
    seen
}

#[test]
fn links_come_in_order_up_to_and_with_the_stop(rt: HostRuntime) -> Result<(), Fail> {
    let links = vec![in rt.alloc(); ONWARD, LATE, SLOW, BACK, QUICK, LOOP]?;
    let graph = ListGraph::from_links(rt.alloc(), 3, links)?;
    assert_eq!(rt; graph.size(), 3);
    let out = shown_out(rt.alloc(), &graph, 0, 0);
    assert_eq!(rt; out.as_slice(), [QUICK, SLOW, LATE].as_slice());
    let first = shown_out(rt.alloc(), &graph, 0, 3);
    assert_eq!(rt; first.as_slice(), [QUICK].as_slice());
    let into = shown_in(rt.alloc(), &graph, 1, 4);
    assert_eq!(rt; into.as_slice(), [QUICK, BACK, SLOW, LOOP].as_slice());
    Ok(())
}

#[test]
fn a_link_between_numbers_takes_24_bytes(rt: HostRuntime) -> Result<(), Fail> {
    assert_eq!(rt; size_of::<Link>(), 24);
    Ok(())
}

#[test]
fn rows_show_each_part_whole(rt: HostRuntime) -> Result<(), Fail> {
    let links = vec![in rt.alloc(); ONWARD, LATE, SLOW, BACK, QUICK, LOOP]?;
    let graph = RowGraph::from_links(rt.alloc(), 4, links)?;
    assert_eq!(rt; graph.size(), 4);
    let out = shown_out(rt.alloc(), &graph, 0, 0);
    assert_eq!(rt; out.as_slice(), [QUICK, SLOW, LATE].as_slice());
    let into = shown_in(rt.alloc(), &graph, 1, 4);
    assert_eq!(rt; into.as_slice(), [QUICK, BACK, SLOW, LOOP].as_slice());
    let onward = shown_in(rt.alloc(), &graph, 2, 0);
    assert_eq!(rt; onward.as_slice(), [ONWARD].as_slice());
    let none = shown_in(rt.alloc(), &graph, 3, 0);
    assert!(rt; none.is_empty());
    Ok(())
}

#[test]
fn views_turn_links_round_and_leave_links_out(rt: HostRuntime) -> Result<(), Fail> {
    let links = vec![in rt.alloc(); ONWARD, LATE, SLOW, BACK, QUICK, LOOP]?;
    let graph = RowGraph::from_links(rt.alloc(), 3, links)?;
    let turned = Reversed::view(&graph);
    let out = shown_out(rt.alloc(), &turned, 2, 0);
    assert_eq!(rt; out.as_slice(), [ONWARD_TURNED].as_slice());
    let gone = [false, false, true];
    let taboo = [QUICK];
    let without = Without::view(&graph, gone.as_slice(), 0, taboo.as_slice());
    let into = shown_in(rt.alloc(), &without, 1, 0);
    assert_eq!(rt; into.as_slice(), [SLOW, LOOP, LATE].as_slice());
    let onward = shown_out(rt.alloc(), &without, 1, 0);
    assert_eq!(rt; onward.as_slice(), [LOOP].as_slice());
    Ok(())
}
