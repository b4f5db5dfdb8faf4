ghost use Rattle.std.specs.Prelude.{◌↔◌, Contains, IfOk, OnOk};
ghost use Rattle.pgr_outside.specs.Lists.{IsStrictlyRising};
ghost use Rattle.pgr_answer.specs.Pairs.{IsAsked};
ghost use Rattle.pgr_answer.specs.Gathering.{pair_cmp, AreNumbersOf, GainsNumber, IsNumberedPair, Gains, IsThisPair, IsPairTo, IsPairOfLists, IsPairOfRows, IsPairOfIds};
ghost use Rattle.pgr_answer.specs.declared.pair.Pair.{Pair as APair};

use crate::pair::Pair;
use pgr_numbers::{Names, numbers_rise_with_ids};
use pgr_outside::NoMemory;
use pgr_table::PairTable;
use std::alloc::Global;

/// The pairs that are asked for and can be answered among the names, each once, by rising end and then by rising start.
///
/// Those of one end stand together, so that one search serves them all. `NoMemory` may come at any call.
pub(crate) fn asked_pairs(
    alloc: Global,
    names: &Names,
    starts: &[i64],
    ends: &[i64],
    combinations: &PairTable,
) -> Result<Vec<Pair>, NoMemory>
    ensures exactly { IfOk result (λ pairs. (pair : APair) → Contains pairs.items pair
        ↔ IsNumberedPair names.now (IsAsked starts.now ends.now combinations.now) pair) }
    ensures rise { IfOk result (λ pairs. IsStrictlyRising pair_cmp pairs.items) }
{
    let starts = numbers_of(alloc, names, starts)?;
    let ends = numbers_of(alloc, names, ends)?;
    let mut pairs = Vec::new(alloc);
    push_lists(&mut pairs, starts.as_slice(), ends.as_slice())?;
    push_rows(&mut pairs, names, combinations)?;
    pairs.sort_unstable();
    pairs.dedup();
    Ok(pairs)
}

/// The numbers of the ids that are names, in order.
pub(crate) fn numbers_of(alloc: Global, names: &Names, ids: &[i64]) -> Result<Vec<u32>, NoMemory>
    ensures { IfOk result (λ numbers. AreNumbersOf names.now ids.now numbers.items) }
{
    let mut numbers = Vec::new(alloc);
    for id in ids {
        push_number(&mut numbers, names, *id)?;
    }
    Ok(numbers)
}

/// Adds the number of an id, if it is a name.
pub(crate) fn push_number(numbers: &mut Vec<u32>, names: &Names, id: i64) -> Result<(), NoMemory>
    ensures { OnOk result (GainsNumber names.now id numbers.old.items numbers.new.items) }
{
    names.len();
    numbers_rise_with_ids();
    let Some(number) = names.number(id) else {
        return Ok(());
    };
    numbers.push(number)?;
    Ok(())
}

/// Adds the pairs of a start and an end of the two lists that differ.
fn push_lists(pairs: &mut Vec<Pair>, starts: &[u32], ends: &[u32]) -> Result<(), NoMemory>
    ensures { OnOk result (Gains (IsPairOfLists starts.now ends.now) pairs.old.items pairs.new.items) }
{
    for end in ends {
        push_starts(pairs, starts, *end)?;
    }
    Ok(())
}

/// Adds the pairs of a start of the list and the end that differ.
fn push_starts(pairs: &mut Vec<Pair>, starts: &[u32], end: u32) -> Result<(), NoMemory>
    ensures { OnOk result (Gains (IsPairTo starts.now end) pairs.old.items pairs.new.items) }
{
    for start in starts {
        push_pair(pairs, *start, end)?;
    }
    Ok(())
}

/// Adds the pair, if its vertices differ.
fn push_pair(pairs: &mut Vec<Pair>, start: u32, end: u32) -> Result<(), NoMemory>
    ensures { OnOk result (Gains (IsThisPair start end) pairs.old.items pairs.new.items) }
{
    if start != end {
        pairs.push(Pair { end, start })?;
    }
    Ok(())
}

/// Adds the pairs of the rows whose vertices are names that differ.
fn push_rows(pairs: &mut Vec<Pair>, names: &Names, table: &PairTable) -> Result<(), NoMemory>
    ensures { OnOk result (Gains (IsPairOfRows names.now table.now) pairs.old.items pairs.new.items) }
{
    for i in 0..table.len() {
        let row = table.row(i);
        push_ids(pairs, names, row.source, row.target)?;
    }
    Ok(())
}

/// Adds the pair of the numbers of two ids, if both are names and they differ.
fn push_ids(pairs: &mut Vec<Pair>, names: &Names, start: i64, end: i64) -> Result<(), NoMemory>
    ensures { OnOk result (Gains (IsPairOfIds names.now start end) pairs.old.items pairs.new.items) }
{
    names.len();
    numbers_rise_with_ids();
    let Some(start) = names.number(start) else {
        return Ok(());
    };
    let Some(end) = names.number(end) else {
        return Ok(());
    };
    push_pair(pairs, start, end)
}

#[cfg(test)]
mod tests {
    use super::*;
    use pgr_numbers::names_are_few;
    use pgr_table::read_combinations;
    use pgr_walks::NamedLink;
    use std::test::Fail;

    fn link(from: i64, to: i64) -> NamedLink {
        NamedLink {
            from,
            edge: 1,
            cost: 1,
            to,
        }
    }

    #[test]
    fn pairs_of_different_vertices_stand_once_by_end_and_then_by_start(
        rt: HostRuntime,
    ) -> Result<(), Fail> {
        let links = Vec::from_array(rt.alloc(), [link(10, 20), link(20, 30)])?;
        names_are_few(&links);
        let names = Names::of(rt.alloc(), &links)?;
        let rows = read_combinations(rt.alloc(), b"source,target\n30,10\n10,20\n20,40\n20,20\n")?;
        let pairs = asked_pairs(rt.alloc(), &names, &[20, 40, 10, 20], &[20, 30], &rows)?;
        // The ids 10, 20 and 30 have the numbers 0, 1 and 2.
        let expected = [
            Pair { end: 0, start: 2 },
            Pair { end: 1, start: 0 },
            Pair { end: 2, start: 0 },
            Pair { end: 2, start: 1 },
        ];
        assert_eq!(rt; pairs.as_slice(), expected.as_slice());
        Ok(())
    }

    #[test]
    fn where_nothing_is_asked_for_there_is_no_pair(rt: HostRuntime) -> Result<(), Fail> {
        let links = Vec::from_array(rt.alloc(), [link(10, 20)])?;
        names_are_few(&links);
        let names = Names::of(rt.alloc(), &links)?;
        let none = PairTable::empty(rt.alloc());
        let pairs = asked_pairs(rt.alloc(), &names, &[10], &[], &none)?;
        assert!(rt; pairs.is_empty());
        Ok(())
    }
}
