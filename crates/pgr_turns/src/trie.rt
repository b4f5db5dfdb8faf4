ghost use Rattle.std.specs.Prelude.{◌≡◌, ℕ, ℤ, pos, ◌+◌, ◌^◌, ◌<◌, ◌≤◌, [], ◌∷◌, length, reverse, slice_index_or, Some, None, false, OnOk, IfOk};
ghost use Rattle.std.specs.Ordering.{is_eq};
ghost use Rattle.std.specs.BTreeMap.{get};
ghost use Rattle.pgr_turns.specs.Trie.{key_cmp, elements, list_at, front_of, word, IsTrie, HasFronts, AreLasts, Keeps};

use crate::growth::push;
use pgr_outside::{Listed, NoMemory};
use std::alloc::Global;
use std::collections::BTreeMap;

/// A front of a restriction: its first ids.
#[derive(Clone, Copy)]
pub(crate) struct Node {
    /// The place of the restriction.
    pub list: usize,
    /// How many of its ids.
    pub len: usize,
    /// The node of the front that has one id less.
    pub parent: u32,
    /// The last of the ids.
    pub edge: i64,
}

/// What is kept of a front.
#[derive(Clone, Copy)]
pub(crate) struct Back {
    /// The node of the longest other front that it ends with.
    pub shorter: u32,
    /// Whether it ends with a restriction.
    pub forbids: bool,
}

/// The fronts of restrictions, each once.
#[derive(Drop)]
pub(crate) struct Trie {
    pub lists: Vec<Listed<i64>>,
    pub nodes: Vec<Node>,
    pub children: BTreeMap<(u32, i64), u32>,
}

/// The node of a front with one id more, if that is a front.
pub(crate) fn child(children: &BTreeMap<(u32, i64), u32>, at: u32, edge: i64) -> Option<u32>
    ensures { result ≡ get key_cmp children.now (at, edge) }
{
    children.get(&(at, edge)).copied()
}

/// An id of a restriction.
fn id_at(lists: &[Listed<i64>], list: usize, place: usize) -> i64
    requires list { list < length lists.now }
    requires place { place < length (list_at lists.now list) }
    ensures { result ≡ slice_index_or (list_at lists.now list) place (pos 0) }
{
    lists[list].as_slice()[place]
}

/// How many ids a restriction has.
fn count_of(lists: &[Listed<i64>], list: usize) -> usize
    requires { list < length lists.now }
    ensures { result ≡ length (list_at lists.now list) }
{
    lists[list].len()
}

/// The node of a restriction's first ids, one more than those of the node `at`.
fn grow(
    lists: &[Listed<i64>],
    nodes: &mut Vec<Node>,
    children: &mut BTreeMap<(u32, i64), u32>,
    list: usize,
    len: usize,
    at: u32,
) -> Result<u32, NoMemory>
    requires trie { IsTrie lists.now nodes.old.items (λ a e. get key_cmp children.old (a, e)) }
    requires room { length nodes.old.items + 1 < 2 ^ 32 }
    requires list { list < length lists.now }
    requires len { len < length (list_at lists.now list) }
    requires at { at < length nodes.old.items }
    requires word { word lists.now nodes.old.items at ≡ front_of lists.now list len }
    ensures trie { OnOk result (IsTrie lists.now nodes.new.items (λ a e. get key_cmp children.new (a, e))) }
    ensures kept { OnOk result (Keeps nodes.old.items nodes.new.items) }
    ensures size { OnOk result (length nodes.new.items ≤ length nodes.old.items + 1) }
    ensures below { IfOk result (λ x. x < length nodes.new.items) }
    ensures word { IfOk result (λ x. word lists.now nodes.new.items x ≡ front_of lists.now list (len + 1)) }
{
    let edge = id_at(lists, list, len);
    match child(children, at, edge) {
        Some(next) => Ok(next),
        None => add(lists, nodes, children, list, len, at, edge),
    }
}

/// The new node of a restriction's first ids, one more than those of the node `at`.
fn add(
    lists: &[Listed<i64>],
    nodes: &mut Vec<Node>,
    children: &mut BTreeMap<(u32, i64), u32>,
    list: usize,
    len: usize,
    at: u32,
    edge: i64,
) -> Result<u32, NoMemory>
    requires trie { IsTrie lists.now nodes.old.items (λ a e. get key_cmp children.old (a, e)) }
    requires room { length nodes.old.items + 1 < 2 ^ 32 }
    requires list { list < length lists.now }
    requires len { len < length (list_at lists.now list) }
    requires at { at < length nodes.old.items }
    requires word { word lists.now nodes.old.items at ≡ front_of lists.now list len }
    requires edge { edge ≡ slice_index_or (list_at lists.now list) len (pos 0) }
    requires none { get key_cmp children.old (at, edge) ≡ None }
    ensures trie { OnOk result (IsTrie lists.now nodes.new.items (λ a e. get key_cmp children.new (a, e))) }
    ensures kept { OnOk result (Keeps nodes.old.items nodes.new.items) }
    ensures size { OnOk result (length nodes.new.items ≤ length nodes.old.items + 1) }
    ensures below { IfOk result (λ x. x < length nodes.new.items) }
    ensures word { IfOk result (λ x. word lists.now nodes.new.items x ≡ front_of lists.now list (len + 1)) }
{
    // From this call it is known that one more is a length.
    let _ids = count_of(lists, list);
    let count = nodes.len();
    let next = count as u32;
    let node = Node {
        list,
        len: len + 1,
        parent: at,
        edge,
    };
    push(nodes, node)?;
    set_child(children, at, edge, next)?;
    Ok(next)
}

/// Sets the node of a front with one id more.
fn set_child(
    children: &mut BTreeMap<(u32, i64), u32>,
    at: u32,
    edge: i64,
    next: u32,
) -> Result<(), NoMemory>
    ensures set { OnOk result (get key_cmp children.new (at, edge) ≡ Some next) }
    ensures others { OnOk result ((a : ℕ) (e : ℤ) → is_eq (key_cmp (at, edge) (a, e)) ≡ false → get key_cmp children.new (a, e) ≡ get key_cmp children.old (a, e)) }
{
    match children.insert((at, edge), next) {
        Ok(_) => Ok(()),
        Err(_) => Err(NoMemory),
    }
}

/// Puts the fronts of a restriction among the nodes, and returns the node of the last.
fn insert(
    lists: &[Listed<i64>],
    nodes: &mut Vec<Node>,
    children: &mut BTreeMap<(u32, i64), u32>,
    list: usize,
) -> Result<u32, NoMemory>
    requires trie { IsTrie lists.now nodes.old.items (λ a e. get key_cmp children.old (a, e)) }
    requires room { length nodes.old.items + length (list_at lists.now list) < 2 ^ 32 }
    requires list { list < length lists.now }
    ensures trie { OnOk result (IsTrie lists.now nodes.new.items (λ a e. get key_cmp children.new (a, e))) }
    ensures size { OnOk result (length nodes.new.items ≤ length nodes.old.items + length (list_at lists.now list)) }
    ensures kept { OnOk result (Keeps nodes.old.items nodes.new.items) }
    ensures fronts { OnOk result (HasFronts lists.now nodes.new.items list (length (list_at lists.now list))) }
    ensures below { IfOk result (λ x. x < length nodes.new.items) }
    ensures word { IfOk result (λ x. word lists.now nodes.new.items x ≡ reverse (list_at lists.now list)) }
{
    let mut at = 0;
    let count = count_of(lists, list);
    for len in 0..count {
        at = grow(lists, nodes, children, list, len, at)?;
    }
    Ok(at)
}

/// All fronts of some restrictions, and for each restriction the node of the whole.
pub(crate) fn trie_of(alloc: Global, lists: Vec<Listed<i64>>) -> Result<(Trie, Vec<u32>), NoMemory>
    requires { 1 + elements lists.items < 2 ^ 32 }
    ensures trie { IfOk result (λ made. IsTrie made.0.lists.items made.0.nodes.items (λ a e. get key_cmp made.0.children (a, e))) }
    ensures lists { IfOk result (λ made. made.0.lists.items ≡ lists.items) }
    ensures few { IfOk result (λ made. length made.0.nodes.items ≤ 1 + elements lists.items) }
    ensures fronts { IfOk result (λ made. (i : ℕ) → i < length lists.items → HasFronts lists.items made.0.nodes.items i (length (list_at lists.items i))) }
    ensures lasts { IfOk result (λ made. AreLasts lists.items made.0.nodes.items (length lists.items) made.1.items) }
{
    let mut nodes = bare_nodes(alloc)?;
    let mut children = BTreeMap::new(alloc);
    let lasts = insert_all(alloc, lists.as_slice(), &mut nodes, &mut children)?;
    Ok((
        Trie {
            lists,
            nodes,
            children,
        },
        lasts,
    ))
}

/// Puts the fronts of all restrictions among the nodes, and returns the node of the whole of each.
fn insert_all(
    alloc: Global,
    lists: &[Listed<i64>],
    nodes: &mut Vec<Node>,
    children: &mut BTreeMap<(u32, i64), u32>,
) -> Result<Vec<u32>, NoMemory>
    requires trie { IsTrie lists.now nodes.old.items (λ a e. get key_cmp children.old (a, e)) }
    requires room { length nodes.old.items + elements lists.now < 2 ^ 32 }
    ensures trie { OnOk result (IsTrie lists.now nodes.new.items (λ a e. get key_cmp children.new (a, e))) }
    ensures size { OnOk result (length nodes.new.items ≤ length nodes.old.items + elements lists.now) }
    ensures fronts { OnOk result ((i : ℕ) → i < length lists.now → HasFronts lists.now nodes.new.items i (length (list_at lists.now i))) }
    ensures lasts { IfOk result (λ lasts. AreLasts lists.now nodes.new.items (length lists.now) lasts.items) }
{
    let mut lasts = Vec::new(alloc);
    for list in 0..lists.len() {
        let last = insert(lists, nodes, children, list)?;
        push(&mut lasts, last)?;
    }
    Ok(lasts)
}

/// The node of the front without an id.
fn bare_nodes(alloc: Global) -> Result<Vec<Node>, NoMemory>
    ensures { IfOk result (λ nodes. nodes.items ≡ record { list = 0; len = 0; parent = 0; edge = pos 0 } ∷ []) }
{
    let root = Node {
        list: 0,
        len: 0,
        parent: 0,
        edge: 0,
    };
    let mut nodes = Vec::new(alloc);
    push(&mut nodes, root)?;
    Ok(nodes)
}
