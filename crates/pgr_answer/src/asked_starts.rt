ghost use Rattle.std.specs.Prelude.{◌↔◌, ℕ, Contains, IfOk, OnOk};
ghost use Rattle.std.specs.Ordering.{nat_cmp};
ghost use Rattle.pgr_outside.specs.Lists.{IsStrictlyRising};
ghost use Rattle.pgr_answer.specs.Pairs.{IsAsked};
ghost use Rattle.pgr_answer.specs.Noting.{IsNumberedStart, HaveAnEnd, GainsSources};

use crate::pairs::{numbers_of, push_number};
use pgr_numbers::Names;
use pgr_outside::NoMemory;
use pgr_table::PairTable;
use std::alloc::Global;

/// The numbers of the names from which pairs are asked for, each once and rising, whether these pairs can be answered or
/// not.
///
/// `NoMemory` may come at any call.
pub(crate) fn asked_starts(
    alloc: Global,
    names: &Names,
    starts: &[i64],
    ends: &[i64],
    combinations: &PairTable,
) -> Result<Vec<u32>, NoMemory>
    ensures exactly { IfOk result (λ numbers. (n : ℕ) → Contains numbers.items n
        ↔ IsNumberedStart names.now (IsAsked starts.now ends.now combinations.now) n) }
    ensures rise { IfOk result (λ numbers. IsStrictlyRising nat_cmp numbers.items) }
{
    let listed = with_an_end(starts, ends);
    let mut numbers = numbers_of(alloc, names, listed)?;
    push_sources(&mut numbers, names, combinations)?;
    numbers.sort_unstable();
    numbers.dedup();
    Ok(numbers)
}

/// The starts, if there is an end.
fn with_an_end<'a>(starts: &'a [i64], ends: &[i64]) -> &'a [i64]
    ensures { HaveAnEnd starts.now ends.now result.now }
{
    if ends.is_empty() { &[] } else { starts }
}

/// Adds the numbers of the sources of the rows that are names.
fn push_sources(numbers: &mut Vec<u32>, names: &Names, table: &PairTable) -> Result<(), NoMemory>
    ensures { OnOk result (GainsSources names.now table.now numbers.old.items numbers.new.items) }
{
    for i in 0..table.len() {
        let row = table.row(i);
        push_number(numbers, names, row.source)?;
    }
    Ok(())
}
