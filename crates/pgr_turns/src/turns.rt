ghost use Rattle.std.specs.Prelude.{◌≡◌, ◌+◌, ◌^◌, ◌<◌, ◌≤◌, ◌++◌, ◌∷◌, [], IfOk, OnOk};
ghost use Rattle.std.specs.BTreeMap.{get};
ghost use Rattle.pgr_table.specs.Restrictions.{most_elements};
ghost use Rattle.pgr_turns.specs.Restrictions.{nonempty};
ghost use Rattle.pgr_turns.specs.Trie.{key_cmp, elements, IsAutomaton};

use crate::automaton::backs_of_trie;
use crate::growth::push;
use crate::trie::{Back, Trie, trie_of};
use pgr_outside::{Listed, NoMemory};
use pgr_table::RestrictionTable;
use std::alloc::Global;
use std::marker::Model;

/// Restrictions: lists of edge ids that no walk may have one right after another.
///
/// It keeps all their fronts, each once, and of each the longest shorter front that it ends with.
/// Source: Aho and Corasick 1975.
#[derive(Drop)]
pub struct Turns {
    trie: Trie,
    backs: Vec<Back>,
}

impl Model for Turns {
    ghost use Rattle.std.specs.Prelude.{List, ℤ};
    ghost use Rattle.std.specs.Coded.{coded_list, coded_ℤ};
    ghost use Rattle.std.specs.BTreeMap.{get};
    ghost use Rattle.pgr_turns.specs.Trie.{key_cmp, IsAutomaton};

    ghost Value = { List (List ℤ) };

    ghost coded = { coded_list (coded_list coded_ℤ) };

    ghost view = { λ turns. turns.trie.lists.items };

    ghost invariant = { λ turns. IsAutomaton turns.trie.lists.items turns.trie.nodes.items (λ a e. get key_cmp turns.trie.children (a, e)) turns.backs.items };
}

impl Turns {
    /// The restrictions of a table that aren't empty, in the order of the table; one that stands twice is there twice.
    ///
    /// `NoMemory` may come at any call. Work, not proved: a few look-ups in a map for each id.
    pub fn make(alloc: Global, restrictions: &RestrictionTable) -> Result<Turns, NoMemory>
        ensures { IfOk result (λ turns. turns ≡ nonempty restrictions.now) }
    {
        let lists = lists_of(alloc, restrictions)?;
        Turns::of_lists(alloc, lists)
    }

    /// The restrictions of a list.
    ///
    /// They have fewer than 2^32 - 1 ids in all. One without an id is never met. `NoMemory` may come at any call.
    /// Work, not proved: a few look-ups in a map for each id.
    pub fn of_lists(alloc: Global, lists: Vec<Listed<i64>>) -> Result<Turns, NoMemory>
        requires { 1 + elements lists.items < 2 ^ 32 }
        ensures { IfOk result (λ turns. turns ≡ lists.items) }
    {
        let made = trie_of(alloc, lists)?;
        let backs = backs_of_trie(alloc, &made.0, made.1.as_slice())?;
        let (trie, _) = made;
        Ok(Turns { trie, backs })
    }

    /// The fronts, and what is kept of each.
    pub(crate) fn parts(&self) -> (&Trie, &[Back])
        ensures lists { result.0.now.lists.items ≡ self.now }
        ensures automaton { IsAutomaton result.0.now.lists.items result.0.now.nodes.items (λ a e. get key_cmp result.0.now.children (a, e)) result.1.now }
    {
        (&self.trie, self.backs.as_slice())
    }
}

/// The lists of a table that aren't empty.
fn lists_of(alloc: Global, restrictions: &RestrictionTable) -> Result<Vec<Listed<i64>>, NoMemory>
    ensures lists { IfOk result (λ lists. lists.items ≡ nonempty restrictions.now) }
    ensures few { IfOk result (λ lists. elements lists.items ≤ most_elements) }
{
    let mut lists = Vec::new(alloc);
    for i in 0..restrictions.len() {
        append_list(alloc, restrictions.row(i), &mut lists)?;
    }
    Ok(lists)
}

/// Puts a list that isn't empty behind others.
fn append_list(alloc: Global, ids: &[i64], lists: &mut Vec<Listed<i64>>) -> Result<(), NoMemory>
    ensures { OnOk result (lists.new.items ≡ lists.old.items ++ nonempty (ids.now ∷ [])) }
{
    if ids.is_empty() {
        return Ok(());
    }
    let copy = Vec::from_slice(alloc, ids)?;
    push(lists, Listed::from_vec(copy))
}

#[cfg(test)]
mod tests {
    use super::*;
    use pgr_table::read_restrictions;
    use std::test::Fail;

    #[test]
    fn fronts_that_two_restrictions_share_stand_once(rt: HostRuntime) -> Result<(), Fail> {
        let alloc = rt.alloc();
        let long = Vec::from_slice(alloc, [7, 7, 8].as_slice())?;
        let short = Vec::from_slice(alloc, [7, 9].as_slice())?;
        let mut lists = Vec::new(alloc);
        lists.push(Listed::from_vec(long))?;
        lists.push(Listed::from_vec(short))?;
        let turns = Turns::of_lists(alloc, lists)?;
        // No id, 7, 7 7, 7 7 8 and 7 9.
        assert_eq!(rt; turns.trie.nodes.len(), 5);
        assert_eq!(rt; turns.backs.len(), 5);
        Ok(())
    }

    // A row without ids is left out, and a list that stands twice is there twice.
    #[test]
    fn the_lists_of_a_table_are_kept_in_order(rt: HostRuntime) -> Result<(), Fail> {
        let alloc = rt.alloc();
        let bytes = b"id,path\n1,\"{7,7,8}\"\n2,{}\n3,\"{7,9}\"\n4,\n5,\"{7,9}\"\n";
        let table = read_restrictions(alloc, bytes)?;
        let turns = Turns::make(alloc, &table)?;
        let kept: [&[i64]; 3] = [&[7, 7, 8], &[7, 9], &[7, 9]];
        assert_eq!(rt; turns.trie.lists.len(), kept.len());
        for (list, ids) in turns.trie.lists.iter().zip(kept) {
            assert_eq!(rt; list.as_slice(), ids);
        }
        // No id, 7, 7 7, 7 7 8 and 7 9.
        assert_eq!(rt; turns.trie.nodes.len(), 5);
        assert_eq!(rt; turns.backs.len(), 5);
        Ok(())
    }
}
