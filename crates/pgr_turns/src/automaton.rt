ghost use Rattle.std.specs.Prelude.{◌≡◌, ℕ, ◌^◌, ◌<◌, ◌∷◌, All, length, false, slice_index_or, IfOk};
ghost use Rattle.std.specs.BTreeMap.{get};
ghost use Rattle.std.specs.List.Sorted.{IsNonDecreasingBy};
ghost use Rattle.pgr_turns.specs.Fronts.{IsLongest};
ghost use Rattle.pgr_turns.specs.Trie.{key_cmp, node_at, word, back_at, IsTrie, IsComplete, AreMarks, IsBack, AreBacksBefore, AreBacksUpTo, IsMarking, IsShorter, AreOrdered, AreLasts};

use crate::growth::push;
use crate::trie::{Back, Trie, child};
use pgr_outside::NoMemory;
use std::alloc::Global;

/// The node of the longest front that an edge after the front `at` ends.
pub(crate) fn after(trie: &Trie, backs: &[Back], at: u32, edge: i64) -> u32
    requires trie { IsTrie trie.now.lists.items trie.now.nodes.items (λ a e. get key_cmp trie.now.children (a, e)) }
    requires complete { IsComplete trie.now.lists.items trie.now.nodes.items (λ a e. get key_cmp trie.now.children (a, e)) }
    requires size { length backs.now ≡ length trie.now.nodes.items }
    requires backs { AreBacksUpTo trie.now.lists.items trie.now.nodes.items at backs.now }
    requires at { at < length trie.now.nodes.items }
    ensures below { result < length trie.now.nodes.items }
    ensures longest { IsLongest trie.now.lists.items (edge ∷ word trie.now.lists.items trie.now.nodes.items at) (word trie.now.lists.items trie.now.nodes.items result) }
{
    let mut here = at;
    loop {
        if let Some(next) = child(&trie.children, here, edge) {
            return next;
        }
        if here == 0 {
            return 0;
        }
        here = backs[here as usize].shorter;
    }
}

/// Which nodes are the whole of a restriction.
fn marks_of(alloc: Global, count: usize, lasts: &[u32]) -> Result<Vec<bool>, NoMemory>
    requires { All (λ last. last < count) lasts.now }
    ensures size { IfOk result (λ marks. length marks.items ≡ count) }
    ensures marks { IfOk result (λ marks. AreMarks lasts.now marks.items) }
{
    let mut marks = vec![in alloc; false; count].map_err(|_| NoMemory)?;
    for last in lasts {
        marks[*last as usize] = true;
    }
    Ok(marks)
}

/// The nodes, those of shorter fronts first.
fn nodes_in_order(alloc: Global, trie: &Trie) -> Result<Vec<(usize, u32)>, NoMemory>
    requires { length trie.now.nodes.items < 2 ^ 32 }
    ensures { IfOk result (λ order. AreOrdered trie.now.nodes.items order.items) }
{
    let mut order = Vec::new(alloc);
    for x in 0..trie.nodes.len() {
        push(&mut order, (trie.nodes[x].len, x as u32))?;
    }
    order.sort_unstable_by_key(|entry| entry.0);
    Ok(order)
}

/// The node of the longest front, shorter than the whole, that a front and an edge more end with.
fn shorter_of(trie: &Trie, backs: &[Back], parent: u32, edge: i64) -> u32
    requires trie { IsTrie trie.now.lists.items trie.now.nodes.items (λ a e. get key_cmp trie.now.children (a, e)) }
    requires complete { IsComplete trie.now.lists.items trie.now.nodes.items (λ a e. get key_cmp trie.now.children (a, e)) }
    requires size { length backs.now ≡ length trie.now.nodes.items }
    requires backs { AreBacksUpTo trie.now.lists.items trie.now.nodes.items parent backs.now }
    requires parent { parent < length trie.now.nodes.items }
    ensures below { result < length trie.now.nodes.items }
    ensures shorter { IsShorter trie.now.lists.items (edge ∷ word trie.now.lists.items trie.now.nodes.items parent) (word trie.now.lists.items trie.now.nodes.items result) }
{
    if parent == 0 {
        return 0;
    }
    after(trie, backs, backs[parent as usize].shorter, edge)
}

/// What is kept of a node, where that of the nodes of shorter fronts is known.
fn back_of(trie: &Trie, marks: &[bool], backs: &[Back], x: u32) -> Back
    requires trie { IsTrie trie.now.lists.items trie.now.nodes.items (λ a e. get key_cmp trie.now.children (a, e)) }
    requires complete { IsComplete trie.now.lists.items trie.now.nodes.items (λ a e. get key_cmp trie.now.children (a, e)) }
    requires marks { IsMarking trie.now.lists.items trie.now.nodes.items marks.now }
    requires size { length backs.now ≡ length trie.now.nodes.items }
    requires backs { AreBacksBefore trie.now.lists.items trie.now.nodes.items x backs.now }
    requires x { x < length trie.now.nodes.items }
    ensures { IsBack trie.now.lists.items trie.now.nodes.items x result }
{
    if x == 0 {
        return Back {
            shorter: 0,
            forbids: false,
        };
    }
    let node = trie.nodes[x as usize];
    let shorter = shorter_of(trie, backs, node.parent, node.edge);
    Back {
        shorter,
        forbids: marks[x as usize] || backs[shorter as usize].forbids,
    }
}

/// What is kept of each node.
fn backs_of(alloc: Global, trie: &Trie, marks: &[bool]) -> Result<Vec<Back>, NoMemory>
    requires trie { IsTrie trie.now.lists.items trie.now.nodes.items (λ a e. get key_cmp trie.now.children (a, e)) }
    requires complete { IsComplete trie.now.lists.items trie.now.nodes.items (λ a e. get key_cmp trie.now.children (a, e)) }
    requires marks { IsMarking trie.now.lists.items trie.now.nodes.items marks.now }
    ensures size { IfOk result (λ backs. length backs.items ≡ length trie.now.nodes.items) }
    ensures backs { IfOk result (λ backs. (x : ℕ) → x < length trie.now.nodes.items → IsBack trie.now.lists.items trie.now.nodes.items x (back_at backs.items x)) }
{
    let none = Back {
        shorter: 0,
        forbids: false,
    };
    let order = nodes_in_order(alloc, trie)?;
    let mut backs = vec![in alloc; none; trie.nodes.len()].map_err(|_| NoMemory)?;
    for entry in &order {
        let x = entry.1;
        let back = back_of(trie, marks, backs.as_slice(), x);
        backs[x as usize] = back;
    }
    Ok(backs)
}

/// What is kept of each node, from the nodes of the whole restrictions.
pub(crate) fn backs_of_trie(
    alloc: Global,
    trie: &Trie,
    lasts: &[u32],
) -> Result<Vec<Back>, NoMemory>
    requires trie { IsTrie trie.now.lists.items trie.now.nodes.items (λ a e. get key_cmp trie.now.children (a, e)) }
    requires complete { IsComplete trie.now.lists.items trie.now.nodes.items (λ a e. get key_cmp trie.now.children (a, e)) }
    requires lasts { AreLasts trie.now.lists.items trie.now.nodes.items (length trie.now.lists.items) lasts.now }
    ensures size { IfOk result (λ backs. length backs.items ≡ length trie.now.nodes.items) }
    ensures backs { IfOk result (λ backs. (x : ℕ) → x < length trie.now.nodes.items → IsBack trie.now.lists.items trie.now.nodes.items x (back_at backs.items x)) }
{
    let marks = marks_of(alloc, trie.nodes.len(), lasts)?;
    backs_of(alloc, trie, marks.as_slice())
}
