ghost use Rattle.std.specs.Prelude.{◌≡◌, ◌++◌, ◌∷◌, [], ◌↔◌, ℤ, negsuc, List, IfOk, OnOk, filter, map, flat_map, Contains, None, length, if◌then◌else◌};
ghost use Rattle.std.specs.BTreeMap.{get};
ghost use Rattle.std.specs.Ordering.{int_cmp, int_eq};
ghost use Rattle.pgr_walks.specs.declared.link.LinkOf.{LinkOf};
ghost use Rattle.pgr_walks.specs.Link.{link_cmp};
ghost use Rattle.pgr_walks.specs.Graph.{IsStrictlyRising};
ghost use Rattle.pgr_contract.specs.declared.event.Event.TheVariants.{Pass};
ghost use Rattle.pgr_contract.specs.Held.{Tag, holds_at, holds_over, rests, tag, tags_at, tags_of};
ghost use Rattle.pgr_contract.specs.Lists.{kept_with, link_stays, links_shown, list_at, resting, shown_from, stays, tag_stays};

use crate::contracted::{Kept, Shortcut};
use crate::event::{Bypassed, Event};
use crate::held::{Gone, Holder, Span};
use crate::rests::{Rests, gone_of};
use pgr_numbers::Names;
use pgr_outside::{Listed, NoMemory};
use pgr_walks::NamedLink;
use std::alloc::Global;
use std::collections::BTreeMap;

/// Lists of ids by an id.
pub(crate) type Lists = BTreeMap<i64, Listed<i64>>;

/// What vertices and shortcuts hold in the end.
#[derive(Drop)]
pub(crate) struct Contents {
    /// What each vertex holds, if anything.
    pub at: Lists,
    /// What the shortcuts hold that took a vertex's place.
    pub over: Lists,
}

/// What vertices and shortcuts hold in the end, each list rising.
pub(crate) fn contents_of(alloc: Global, names: &Names, rests: &Rests) -> Result<Contents, NoMemory>
    ensures at { IfOk result (λ contents. (z : ℤ) → list_at contents.at z ≡ resting rests.now (holds_at z) names.now) }
    ensures over { IfOk result (λ contents. (v : ℤ) → list_at contents.over v ≡ resting rests.now (holds_over v) names.now) }
{
    let mut contents = Contents {
        at: BTreeMap::new(alloc),
        over: BTreeMap::new(alloc),
    };
    for n in 0..names.len() {
        let x = names.name(n);
        put_held(alloc, &mut contents, gone_of(rests, x), x)?;
    }
    Ok(contents)
}

/// Puts a vertex that went where it rests.
fn put_held(
    alloc: Global,
    contents: &mut Contents,
    gone: Option<Gone>,
    x: i64,
) -> Result<(), NoMemory>
    ensures at { OnOk result ((z : ℤ) → list_at contents.new.at z ≡ list_at contents.old.at z ++ (if rests (holds_at z) gone then x ∷ [] else [])) }
    ensures over { OnOk result ((v : ℤ) → list_at contents.new.over v ≡ list_at contents.old.over v ++ (if rests (holds_over v) gone then x ∷ [] else [])) }
{
    let Some(gone) = gone else {
        return Ok(());
    };
    match gone.holder {
        Holder::At(z) => put(alloc, &mut contents.at, z, x),
        Holder::Over(span) => put(alloc, &mut contents.over, span.vertex, x),
    }
}

/// Puts an id at the end of the list at another.
fn put(alloc: Global, lists: &mut Lists, key: i64, x: i64) -> Result<(), NoMemory>
    ensures { OnOk result ((k : ℤ) → list_at lists.new k ≡ (if int_eq key k then list_at lists.old k ++ x ∷ [] else list_at lists.old k)) }
{
    let mut items = taken(alloc, lists, key);
    items.push(x)?;
    lists.insert(key, Listed::from_vec(items))?;
    Ok(())
}

/// Takes the list at an id out, which is empty where there is none.
fn taken(alloc: Global, lists: &mut Lists, key: i64) -> Vec<i64>
    ensures items { result.items ≡ list_at lists.old key }
    ensures others { (k : ℤ) → get int_cmp lists.new k ≡ (if int_eq key k then None else get int_cmp lists.old k) }
{
    match lists.remove(&key) {
        Some(list) => list.into_vec(),
        None => Vec::new(alloc),
    }
}

/// The vertices that are left, rising, with what they hold.
pub(crate) fn vertices_left(
    alloc: Global,
    names: &Names,
    rests: &Rests,
    at: &Lists,
) -> Result<Vec<Kept>, NoMemory>
    ensures { IfOk result (λ vertices. vertices.items ≡ map (kept_with at.now) (filter (stays rests.now) names.now)) }
{
    let mut vertices = Vec::new(alloc);
    for n in 0..names.len() {
        push_kept(alloc, &mut vertices, rests, at, names.name(n))?;
    }
    Ok(vertices)
}

/// Appends a vertex, if it is left.
fn push_kept(
    alloc: Global,
    vertices: &mut Vec<Kept>,
    rests: &Rests,
    at: &Lists,
    x: i64,
) -> Result<(), NoMemory>
    ensures { OnOk result (vertices.new.items ≡ vertices.old.items ++ (if stays rests.now x then kept_with at.now x ∷ [] else [])) }
{
    if is_left(rests, x) {
        let inside = copy_of(alloc, at, x)?;
        vertices.push(Kept { node: x, inside })?;
    }
    Ok(())
}

/// Whether a vertex is left.
fn is_left(rests: &Rests, x: i64) -> bool
    ensures { result ≡ stays rests.now x }
{
    match gone_of(rests, x) {
        None => true,
        Some(_) => false,
    }
}

/// A copy of the list at an id.
fn copy_of(alloc: Global, lists: &Lists, key: i64) -> Result<Listed<i64>, NoMemory>
    ensures { IfOk result (λ list. list ≡ list_at lists.now key) }
{
    match lists.get(&key) {
        None => Ok(Listed::from_vec(Vec::new(alloc))),
        Some(list) => {
            let items = Vec::from_slice(alloc, list.as_slice())?;
            Ok(Listed::from_vec(items))
        }
    }
}

/// The shortcuts that are left, in the order in which they were made, with their ids and what they hold.
pub(crate) fn shortcuts_left(
    alloc: Global,
    directed: bool,
    events: &[Event],
    rests: &Rests,
    over: &Lists,
) -> Result<Vec<Shortcut>, NoMemory>
    ensures { IfOk result (λ shortcuts. shortcuts.items ≡ shown_from over.now 0 (filter (tag_stays rests.now) (tags_of directed events.now))) }
{
    let mut shortcuts = Vec::new(alloc);
    for event in events {
        if let Event::Pass(passed) = event {
            push_passed(alloc, &mut shortcuts, directed, *passed, rests, over)?;
        }
    }
    Ok(shortcuts)
}

/// Appends the shortcuts of a linear vertex, if their ends are left.
fn push_passed(
    alloc: Global,
    shortcuts: &mut Vec<Shortcut>,
    directed: bool,
    passed: Bypassed,
    rests: &Rests,
    over: &Lists,
) -> Result<(), NoMemory>
    ensures { OnOk result ((tags : List Tag)
        → shortcuts.old.items ≡ shown_from over.now 0 tags
        → shortcuts.new.items ≡ shown_from over.now 0 (tags ++ filter (tag_stays rests.now) (tags_at directed (Pass passed)))) }
{
    if !is_left(rests, passed.low) || !is_left(rests, passed.high) {
        return Ok(());
    }
    let span = Span {
        vertex: passed.vertex,
        low: passed.low,
        high: passed.high,
    };
    push_shortcut(
        alloc,
        shortcuts,
        passed.low,
        passed.high,
        passed.there,
        span,
        over,
    )?;
    if directed {
        push_shortcut(
            alloc,
            shortcuts,
            passed.high,
            passed.low,
            passed.back,
            span,
            over,
        )?;
    }
    Ok(())
}

/// Appends a shortcut, if it has a cost.
fn push_shortcut(
    alloc: Global,
    shortcuts: &mut Vec<Shortcut>,
    from: i64,
    to: i64,
    cost: Option<u64>,
    span: Span,
    over: &Lists,
) -> Result<(), NoMemory>
    ensures { OnOk result ((tags : List Tag)
        → shortcuts.old.items ≡ shown_from over.now 0 tags
        → shortcuts.new.items ≡ shown_from over.now 0 (tags ++ tag from to cost span)) }
{
    if let Some(cost) = cost {
        let inside = copy_of(alloc, over, span.vertex)?;
        let id = id_after(shortcuts.as_slice());
        shortcuts.push(Shortcut {
            id,
            from,
            to,
            cost,
            inside,
        })?;
    }
    Ok(())
}

/// The id of a shortcut that comes after others: -1 for the first.
fn id_after(shortcuts: &[Shortcut]) -> i64
    ensures { result ≡ negsuc (length shortcuts.now) }
{
    -1 - shortcuts.len() as i64
}

/// The links that are left, with those of the shortcuts among them, rising.
pub(crate) fn links_left(
    alloc: Global,
    directed: bool,
    links: &[NamedLink],
    rests: &Rests,
    shortcuts: &[Shortcut],
) -> Result<Vec<NamedLink>, NoMemory>
    ensures rise { IfOk result (λ left. IsStrictlyRising (link_cmp int_cmp) left.items) }
    ensures links { IfOk result (λ left. (link : LinkOf ℤ)
        → Contains left.items link ↔ Contains (filter (link_stays rests.now) links.now ++ flat_map (links_shown directed) shortcuts.now) link) }
{
    let mut left = gathered(alloc, directed, links, rests, shortcuts)?;
    left.sort_unstable();
    left.dedup();
    Ok(left)
}

/// The links both of whose ends are left, and then those of the shortcuts.
fn gathered(
    alloc: Global,
    directed: bool,
    links: &[NamedLink],
    rests: &Rests,
    shortcuts: &[Shortcut],
) -> Result<Vec<NamedLink>, NoMemory>
    ensures { IfOk result (λ left. left.items ≡ filter (link_stays rests.now) links.now ++ flat_map (links_shown directed) shortcuts.now) }
{
    let mut left = Vec::new(alloc);
    push_links(&mut left, links, rests)?;
    for shortcut in shortcuts {
        push_links_of(&mut left, directed, shortcut)?;
    }
    Ok(left)
}

/// Appends the links both of whose ends are left.
fn push_links(left: &mut Vec<NamedLink>, links: &[NamedLink], rests: &Rests) -> Result<(), NoMemory>
    ensures { OnOk result (left.new.items ≡ left.old.items ++ filter (link_stays rests.now) links.now) }
{
    for link in links {
        push_link(left, link, rests)?;
    }
    Ok(())
}

/// Appends a link, if both its ends are left.
fn push_link(left: &mut Vec<NamedLink>, link: &NamedLink, rests: &Rests) -> Result<(), NoMemory>
    ensures { OnOk result (left.new.items ≡ left.old.items ++ (if link_stays rests.now link.now then link.now ∷ [] else [])) }
{
    if link_is_left(rests, link) {
        left.push(*link)?;
    }
    Ok(())
}

/// Whether both ends of a link are left.
fn link_is_left(rests: &Rests, link: &NamedLink) -> bool
    ensures { result ≡ link_stays rests.now link.now }
{
    is_left(rests, link.from) && is_left(rests, link.to)
}

/// Appends the links of a shortcut.
fn push_links_of(
    left: &mut Vec<NamedLink>,
    directed: bool,
    shortcut: &Shortcut,
) -> Result<(), NoMemory>
    ensures { OnOk result (left.new.items ≡ left.old.items ++ links_shown directed shortcut.now) }
{
    left.push(NamedLink {
        from: shortcut.from,
        edge: shortcut.id,
        cost: shortcut.cost,
        to: shortcut.to,
    })?;
    if !directed {
        left.push(NamedLink {
            from: shortcut.to,
            edge: shortcut.id,
            cost: shortcut.cost,
            to: shortcut.from,
        })?;
    }
    Ok(())
}
