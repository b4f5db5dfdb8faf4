ghost use Rattle.std.specs.Prelude.{◌≡◌, ◌≤◌, true, false, length};
ghost use Rattle.pgr_walks.specs.Graph.{greatest};
ghost use Rattle.pgr_walks.specs.Reaches.{turned};
ghost use Rattle.pgr_contract.specs.Given.{AreGiven, HaveOpposites};
ghost use Rattle.pgr_contract.specs.Weight.{weight};

use crate::contracted::Contracted;
use crate::contraction::contract;
use pgr_numbers::names_are_few;
use pgr_walks::NamedLink;
use pgr_words::Method;
use std::alloc::{AllocError, Global};
use std::process::Abort;
use std::test::Fail;

fn link(from: i64, edge: i64, cost: u64, to: i64) -> NamedLink {
    NamedLink {
        from,
        edge,
        cost,
        to,
    }
}

/// Whether no edge is negative.
fn are_given(links: &[NamedLink]) -> bool
    ensures { result ≡ true → AreGiven links.now }
{
    for link in links {
        if link.edge < 0 {
            return false;
        }
    }
    true
}

/// The link the other way round.
fn opposite_of(link: &NamedLink) -> NamedLink
    ensures { result ≡ turned link.now }
{
    NamedLink {
        from: link.to,
        edge: link.edge,
        cost: link.cost,
        to: link.from,
    }
}

/// Whether the opposite of each link stands among them, where it has to.
fn have_opposites(links: &[NamedLink], directed: bool) -> bool
    ensures { result ≡ true → directed ≡ false → HaveOpposites links.now }
{
    if directed {
        return true;
    }
    for link in links {
        let opposite = opposite_of(link);
        if !links.contains(&opposite) {
            return false;
        }
    }
    true
}

/// Whether there are at most a million links, of which none costs more than a million.
fn are_light(links: &[NamedLink], directed: bool) -> bool
    ensures few { result ≡ true → length links.now ≤ 1000000 }
    ensures light { result ≡ true → weight directed links.now ≤ greatest }
{
    if links.len() > 1_000_000 {
        return false;
    }
    for link in links {
        if link.cost > 1_000_000 {
            return false;
        }
    }
    true
}

/// What is left of links that may be given.
fn contracted(
    alloc: Global,
    links: &[NamedLink],
    order: &[Method],
    cycles: u32,
    forbidden: &[i64],
    directed: bool,
    rt: &impl Abort,
) -> Result<Contracted, Fail> {
    assert!(rt; are_given(links));
    assert!(rt; have_opposites(links, directed));
    assert!(rt; are_light(links, directed));
    names_are_few(links);
    let left = contract(alloc, links, order, cycles, forbidden, directed)?;
    Ok(left)
}

/// Some vertex that is left holds these.
fn has_vertex(left: &Contracted, node: i64, inside: &[i64], rt: &impl Abort) {
    let mut found = false;
    for kept in &left.vertices {
        if kept.node == node {
            assert_eq!(rt; kept.inside.as_slice(), inside);
            found = true;
        }
    }
    assert!(rt; found, "{node} is left");
}

/// Some shortcut that is left is this link and holds these.
fn has_shortcut(left: &Contracted, link: NamedLink, inside: &[i64], rt: &impl Abort) {
    let mut found = false;
    for shortcut in &left.shortcuts {
        if shortcut.id == link.edge {
            assert_eq!(rt; shortcut.from, link.from);
            assert_eq!(rt; shortcut.cost, link.cost);
            assert_eq!(rt; shortcut.to, link.to);
            assert_eq!(rt; shortcut.inside.as_slice(), inside);
            found = true;
        }
    }
    assert!(rt; found);
}

#[test]
fn a_shortcut_over_a_shortcut_holds_both(rt: HostRuntime) -> Result<(), Fail> {
    let links = [
        link(1, 1, 2, 2),
        link(2, 1, 2, 1),
        link(2, 2, 3, 3),
        link(3, 2, 3, 2),
        link(3, 3, 4, 4),
        link(4, 3, 4, 3),
    ];
    let order = [Method::Linear, Method::DeadEnd];
    let left = contracted(rt.alloc(), &links, &order, 1, &[1, 4], false, &rt)?;
    assert_eq!(rt; left.shortcuts.len(), 1);
    has_shortcut(&left, link(1, -1, 9, 4), &[2, 3], &rt);
    assert_eq!(rt; left.vertices.len(), 2);
    has_vertex(&left, 1, &[], &rt);
    has_vertex(&left, 4, &[], &rt);
    let expected = [link(1, -1, 9, 4), link(4, -1, 9, 1)];
    assert_eq!(rt; left.links.as_slice(), expected.as_slice());
    Ok(())
}

#[test]
fn dead_ends_of_a_row_are_held_by_its_end(rt: HostRuntime) -> Result<(), Fail> {
    let links = [
        link(1, 1, 2, 2),
        link(2, 1, 2, 1),
        link(2, 2, 3, 3),
        link(3, 2, 3, 2),
        link(3, 3, 4, 4),
        link(4, 3, 4, 3),
    ];
    let left = contracted(rt.alloc(), &links, &[Method::DeadEnd], 1, &[], false, &rt)?;
    assert_eq!(rt; left.vertices.len(), 1);
    has_vertex(&left, 4, &[1, 2, 3], &rt);
    assert_eq!(rt; left.shortcuts.len(), 0);
    assert_eq!(rt; left.links.len(), 0);
    Ok(())
}

#[test]
fn the_least_of_two_parallel_links_counts_and_both_ways_have_a_shortcut(
    rt: HostRuntime,
) -> Result<(), Fail> {
    let links = [
        link(1, 1, 2, 2),
        link(1, 3, 1, 2),
        link(2, 1, 3, 1),
        link(2, 2, 4, 3),
        link(3, 2, 5, 2),
    ];
    let left = contracted(
        rt.alloc(),
        &links,
        &[Method::Linear],
        1,
        &[3, 9, 1, 1],
        true,
        &rt,
    )?;
    let expected = [link(1, -1, 5, 3), link(3, -2, 8, 1)];
    assert_eq!(rt; left.links.as_slice(), expected.as_slice());
    assert_eq!(rt; left.shortcuts.len(), 2);
    has_shortcut(&left, link(1, -1, 5, 3), &[2], &rt);
    has_shortcut(&left, link(3, -2, 8, 1), &[2], &rt);
    Ok(())
}

#[test]
fn a_vertex_that_loses_its_way_in_qualifies_no_more(rt: HostRuntime) -> Result<(), Fail> {
    let links = [
        link(1, 2, 1, 2),
        link(2, 1, 1, 5),
        link(5, 1, 1, 2),
        link(9, 3, 1, 5),
    ];
    let left = contracted(rt.alloc(), &links, &[Method::Linear], 1, &[], true, &rt)?;
    assert_eq!(rt; left.vertices.len(), 3);
    has_vertex(&left, 5, &[], &rt);
    assert_eq!(rt; left.shortcuts.len(), 1);
    has_shortcut(&left, link(1, -1, 2, 5), &[2], &rt);
    Ok(())
}

#[test]
fn a_triangle_folds_in_two_turns_of_the_order(rt: HostRuntime) -> Result<(), Fail> {
    let links = [
        link(1, 1, 1, 2),
        link(1, 3, 1, 3),
        link(2, 1, 1, 1),
        link(2, 2, 1, 3),
        link(3, 2, 1, 2),
        link(3, 3, 1, 1),
    ];
    let order = [Method::DeadEnd, Method::Linear];
    let once = contracted(rt.alloc(), &links, &order, 1, &[], false, &rt)?;
    assert_eq!(rt; once.shortcuts.len(), 1);
    assert_eq!(rt; once.vertices.len(), 2);
    let twice = contracted(rt.alloc(), &links, &order, 2, &[], false, &rt)?;
    assert_eq!(rt; twice.vertices.len(), 1);
    has_vertex(&twice, 3, &[1, 2], &rt);
    let never = contracted(rt.alloc(), &links, &order, 0, &[], false, &rt)?;
    assert_eq!(rt; never.links.as_slice(), links.as_slice());
    Ok(())
}

/// The number of links of a long path.
const LONG: usize = 20_000;

/// The links of a long path: each leads from the number of its edge to the next number.
fn long_path(alloc: Global) -> Result<Vec<NamedLink>, AllocError> {
    let mut links = Vec::with_capacity(alloc, LONG)?;
    for i in 0..LONG {
        let from = i as i64;
        links.push(link(from, from, 1, from + 1))?;
    }
    Ok(links)
}

// Each vertex but the last is a dead end when those before it are gone.
#[test]
fn a_long_path_folds_into_its_end(rt: HostRuntime) -> Result<(), Fail> {
    let links = long_path(rt.alloc())?;
    let left = contracted(
        rt.alloc(),
        links.as_slice(),
        &[Method::DeadEnd],
        1,
        &[],
        true,
        &rt,
    )?;
    assert_eq!(rt; left.vertices.len(), 1);
    for kept in &left.vertices {
        assert_eq!(rt; kept.node, LONG as i64);
        assert_eq!(rt; kept.inside.len(), LONG);
    }
    assert_eq!(rt; left.links.len(), 0);
    Ok(())
}
