ghost use Rattle.std.specs.Prelude.{◌≡◌, ◌+◌, ◌<◌, ◌≤◌, ◌≢◌, [], ◌∷◌, ◌++◌, None, length, IsNone, IfOk, OnErr, MatchResult};
ghost use Rattle.std.specs.Option.{SomeIff};
ghost use Rattle.csv.specs.Records.{fields_of};
ghost use Rattle.pgr_table.specs.Rows.{counted, most_rows, most_elements, greatest};
ghost use Rattle.pgr_table.specs.Judging.{bad_column, fault_of_record, row_of, rules_of, elements_of_row, sum_of_row};
ghost use Rattle.pgr_table.specs.Kept.{IsFault};
ghost use Rattle.pgr_table.specs.Totals.{AreTotals};

use crate::column::Column;
use crate::fault::{TableFault, TableRefused};
use crate::field_value::FieldValue;
use crate::found::Found;
use crate::growing::Growing;
use crate::kind::Check;
use crate::totals::Totals;
use csv::ByteRecord;
use pgr_outside::NoMemory;
use std::alloc::Global;

/// The greatest number of rows.
pub(crate) const MOST_ROWS: usize = 4_194_304;

/// The greatest number of elements of all lists.
const MOST_ELEMENTS: usize = 1_048_576;

/// Takes one more record into a table, and answers the totals of the table with it; or the fault of the record, and then the
/// table is as it was. `totals` are those of the table so far, and `values` are overwritten.
pub(crate) fn add_record<T: Growing>(
    alloc: Global,
    table: &mut T,
    totals: Totals,
    columns: &[Found],
    width: usize,
    fields: &ByteRecord,
    values: &mut Vec<FieldValue>,
) -> Result<Totals, TableRefused>
    requires kind { rules_of columns.now ≡ T.kind }
    requires few { length (T.rows table.old) ≤ most_rows }
    requires totals { AreTotals T.kind (T.rows table.old) totals }
    ensures fault { let fault = fault_of_record columns.now width (T.rows table.old) (fields_of fields.now) in
        MatchResult result (λ _. fault ≡ None) (λ refused. IsFault refused fault) }
    ensures row { IfOk result (λ _. T.rows table.new ≡ T.rows table.old ++ row_of columns.now (fields_of fields.now) ∷ []) }
    ensures totals { IfOk result (AreTotals T.kind (T.rows table.new)) }
    ensures few { IfOk result (λ _. length (T.rows table.new) ≤ most_rows) }
    ensures err { OnErr result (T.rows table.new ≡ T.rows table.old) }
{
    let count = table.count();
    let number = count as u64 + 2;
    if count >= MOST_ROWS {
        return Err(TableRefused::Fault(TableFault::TooManyRows(number)));
    }
    if fields.len() != width {
        return Err(TableRefused::Fault(TableFault::UnevenRecord(number)));
    }
    if let Some(column) = read_values(alloc, columns, fields, values)? {
        return Err(TableRefused::Fault(TableFault::BadField(number, column)));
    }
    if table.knows(values.as_slice()) {
        return Err(TableRefused::Fault(TableFault::DuplicateId(number)));
    }
    let Some(elements) = elements_with(totals.elements, values.as_slice()) else {
        return Err(TableRefused::Fault(TableFault::TooManyRows(number)));
    };
    let Some(sum) = sum_with(totals.sum, columns, values.as_slice()) else {
        return Err(TableRefused::Fault(TableFault::CostSum(number)));
    };
    table.add(values)?;
    Ok(Totals { elements, sum })
}

/// Puts the values of a record into `values`, up to the first column whose field isn't in its grammar, and answers that.
fn read_values(
    alloc: Global,
    columns: &[Found],
    fields: &ByteRecord,
    values: &mut Vec<FieldValue>,
) -> Result<Option<Column>, NoMemory>
    ensures bad { IfOk result (λ bad. bad ≡ bad_column columns.now (fields_of fields.now)) }
    ensures row { IfOk result (λ bad. IsNone bad → values.new.items ≡ row_of columns.now (fields_of fields.now)) }
{
    values.clear();
    for column in columns {
        let Some(value) = column.value(alloc, fields)? else {
            return Ok(Some(column.rule.column));
        };
        values.push(value)?;
    }
    Ok(None)
}

/// The number of elements with those of one more row, or none where it is above 1,048,576.
fn elements_with(elements: usize, values: &[FieldValue]) -> Option<usize>
    requires small { elements ≤ most_elements }
    ensures { let grown = elements + elements_of_row values.now in SomeIff result (grown ≤ most_elements) grown }
{
    let mut grown = elements;
    for value in values {
        grown = with_elements(grown, value.elements())?;
    }
    Some(grown)
}

/// The number with some more elements, or none where it is above 1,048,576.
fn with_elements(elements: usize, more: usize) -> Option<usize>
    ensures { SomeIff result (elements + more ≤ most_elements) (elements + more) }
{
    let grown = elements.checked_add(more)?;
    if grown > MOST_ELEMENTS {
        return None;
    }
    Some(grown)
}

/// The sum with the values of one more row that are summed and aren't negative, or none where it is above 2^63 - 1.
fn sum_with(sum: u64, columns: &[Found], values: &[FieldValue]) -> Option<u64>
    requires small { sum ≤ greatest }
    requires whole { length values.now ≡ length columns.now }
    ensures { let grown = sum + sum_of_row (rules_of columns.now) values.now in SomeIff result (grown ≤ greatest) grown }
{
    let mut grown = sum;
    for (place, column) in columns.iter().enumerate() {
        if let Check::Summed = column.rule.check {
            grown = with_cost(grown, values[place].number())?;
        }
    }
    Some(grown)
}

/// The sum with one more cost, which counts nothing where it is negative, or none where it is above 2^63 - 1.
fn with_cost(sum: u64, cost: i64) -> Option<u64>
    ensures { SomeIff result (sum + counted cost ≤ greatest) (sum + counted cost) }
{
    let grown = sum.checked_add(u64::try_from(cost).unwrap_or(0))?;
    if grown > i64::MAX.unsigned_abs() {
        return None;
    }
    Some(grown)
}
