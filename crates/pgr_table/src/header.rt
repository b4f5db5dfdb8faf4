ghost use Rattle.std.specs.Prelude.{◌≡◌, false, None, bytes_eq, map, IfOk, MatchResult};
ghost use Rattle.std.specs.Option.{option_map_or};
ghost use Rattle.std.specs.Result.{result_err};
ghost use Rattle.csv.specs.Records.{fields_of, field_at};
ghost use Rattle.pgr_table.specs.Judging.{column_fault, columns_fault, found_in};
ghost use Rattle.pgr_table.specs.Kept.{IsFault};

use crate::fault::{TableFault, TableRefused};
use crate::found::Found;
use crate::kind::Rule;
use csv::ByteRecord;
use std::alloc::Global;

/// The columns of a kind with their places in the header, or the first fault of one.
pub(crate) fn find_columns(
    alloc: Global,
    kind: &[Rule],
    header: &ByteRecord,
) -> Result<Vec<Found>, TableRefused>
    ensures fault { let fault = columns_fault (fields_of header.now) kind.now in
        MatchResult result (λ _. fault ≡ None) (λ refused. IsFault refused fault) }
    ensures found { IfOk result (λ columns. columns.items ≡ map (found_in (fields_of header.now)) kind.now) }
{
    let mut columns = Vec::new(alloc);
    for rule in kind {
        let place = find_column(header, rule)?;
        columns.push(Found { rule: *rule, place })?;
    }
    Ok(columns)
}

/// The place of a column in the header, or its fault.
fn find_column(header: &ByteRecord, rule: &Rule) -> Result<Option<usize>, TableFault>
    ensures fault { result_err result ≡ column_fault (fields_of header.now) rule.now }
    ensures place { IfOk result (λ place. (found_in (fields_of header.now) rule.now).place ≡ place) }
{
    let name = rule.column.name().as_bytes();
    let mut found = None;
    for place in 0..header.len() {
        if has_field(header, place, name) {
            if found.is_some() {
                return Err(TableFault::RepeatedColumn(rule.column));
            }
            found = Some(place);
        }
    }
    if found.is_none() && rule.required {
        return Err(TableFault::MissingColumn(rule.column));
    }
    Ok(found)
}

/// Whether the field at a place is there and is this.
fn has_field(fields: &ByteRecord, place: usize, name: &[u8]) -> bool
    ensures { let there = field_at (fields_of fields.now) place in
        result ≡ option_map_or (λ field. bytes_eq field name.now) there false }
{
    match fields.get(place) {
        Some(field) => field == name,
        None => false,
    }
}
