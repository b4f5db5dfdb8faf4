ghost use Rattle.std.specs.Prelude.{◌≡◌, ◌≤◌, ◌≢◌, ◌*◌, ℕ, List, Contains, All, IfOk};
ghost use Rattle.pgr_walks.specs.declared.link.LinkOf.{LinkOf};
ghost use Rattle.pgr_walks.specs.LinksOf.{LinksOf};
ghost use Rattle.pgr_walks.specs.ListGraph.{HasEndsBelow};
ghost use Rattle.pgr_walks.specs.Walk.{IsWithoutRepeats, cost_of};
ghost use Rattle.pgr_turns.specs.Trie.{elements};

use super::{TurnGraph, Turns, allowed_route};
use pgr_outside::{Listed, NoMemory};
use pgr_route::Route;
use pgr_search::Room;
use pgr_walks::{Graph, Link, RowGraph};
use std::alloc::Global;
use std::test::Fail;

/// Edge 1 leads from 0 to 1 and edge 2 on to 2; edge 7 leads from 1 to 3 and back.
const FIRST: Link = Link {
    from: 0,
    edge: 1,
    cost: 1,
    to: 1,
};

const SECOND: Link = Link {
    from: 1,
    edge: 2,
    cost: 1,
    to: 2,
};

const ASIDE: Link = Link {
    from: 1,
    edge: 7,
    cost: 1,
    to: 3,
};

const BACK: Link = Link {
    from: 3,
    edge: 7,
    cost: 1,
    to: 1,
};

/// The least walk from 0 to 2 over these links that obeys the restrictions.
fn least_walk(
    alloc: Global,
    links: Vec<Link>,
    restrictions: Vec<Listed<i64>>,
) -> Result<Option<Route>, NoMemory>
    requires ends { All (HasEndsBelow 4) links.items }
    requires once { IsWithoutRepeats links.items }
    requires costs { cost_of links.items ≤ 9 }
    requires few { elements restrictions.items ≤ 16 }
{
    let graph = RowGraph::from_links(alloc, 4, links)?;
    let turns = Turns::of_lists(alloc, restrictions)?;
    let turned = TurnGraph::make(alloc, &graph, &turns)?;
    let mut room = Room::for_size(alloc, turned.size())?;
    allowed_route(alloc, &turned, 0, 2, &mut room)
}

/// Whether a route was found, and has these links.
fn is_route(found: Option<Route>, links: &[Link]) -> bool {
    match found {
        Some(route) => route.links() == links,
        None => false,
    }
}

#[test]
fn a_walk_may_come_to_a_vertex_twice(rt: HostRuntime) -> Result<(), Fail> {
    let alloc = rt.alloc();
    let links = vec![in alloc; FIRST, SECOND, ASIDE, BACK]?;
    let straight = Listed::from_vec(vec![in alloc; 1, 2]?);
    let found = least_walk(alloc, links, vec![in alloc; straight]?)?;
    assert!(rt; is_route(found, [FIRST, ASIDE, BACK, SECOND].as_slice()));
    Ok(())
}

#[test]
fn one_restriction_stands_inside_another(rt: HostRuntime) -> Result<(), Fail> {
    let alloc = rt.alloc();
    let links = vec![in alloc; FIRST, SECOND, ASIDE, BACK]?;
    let straight = Listed::from_vec(vec![in alloc; 1, 2]?);
    let around = Listed::from_vec(vec![in alloc; 1, 7, 7, 2]?);
    let found = least_walk(alloc, links, vec![in alloc; straight, around]?)?;
    assert!(rt; is_route(found, [FIRST, ASIDE, BACK, ASIDE, BACK, SECOND].as_slice()));
    Ok(())
}

#[test]
fn an_edge_may_not_follow_itself(rt: HostRuntime) -> Result<(), Fail> {
    let alloc = rt.alloc();
    let links = vec![in alloc; FIRST, SECOND, ASIDE, BACK]?;
    let straight = Listed::from_vec(vec![in alloc; 1, 2]?);
    let turning = Listed::from_vec(vec![in alloc; 7, 7]?);
    let found = least_walk(alloc, links, vec![in alloc; straight, turning]?)?;
    assert!(rt; found.is_none());
    Ok(())
}

#[test]
fn an_id_that_no_edge_has_forbids_nothing(rt: HostRuntime) -> Result<(), Fail> {
    let alloc = rt.alloc();
    let links = vec![in alloc; FIRST, SECOND, ASIDE, BACK]?;
    let absent = Listed::from_vec(vec![in alloc; 1, 9]?);
    let alone = Listed::from_vec(vec![in alloc; 9]?);
    let found = least_walk(alloc, links, vec![in alloc; absent, alone]?)?;
    assert!(rt; is_route(found, [FIRST, SECOND].as_slice()));
    Ok(())
}

#[test]
fn one_edge_alone_may_be_forbidden(rt: HostRuntime) -> Result<(), Fail> {
    let alloc = rt.alloc();
    let links = vec![in alloc; FIRST, SECOND, ASIDE, BACK]?;
    let second = Listed::from_vec(vec![in alloc; 2]?);
    let found = least_walk(alloc, links, vec![in alloc; second]?)?;
    assert!(rt; found.is_none());
    Ok(())
}
