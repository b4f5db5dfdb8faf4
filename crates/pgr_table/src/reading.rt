ghost use Rattle.pgr_table.specs.Judging.{judged, IsVerdictSeen};

use crate::fault::{TableFault, TableRefused};
use crate::growing::Growing;
use crate::header::find_columns;
use crate::record::{MOST_ROWS, add_record};
use crate::records::Records;
use crate::totals::Totals;
use csv::ByteRecord;
use std::alloc::Global;

/// The bytes of a short row of four numbers, with its line feed.
const LEAST_BYTES: usize = 8;

/// How many bytes are looked at for their line feeds.
const PART_BYTES: usize = 65_536;

/// The table of a kind that the bytes are, or why they are none.
pub(crate) fn read_table<T: Growing>(alloc: Global, bytes: &[u8]) -> Result<T, TableRefused>
    ensures { IsVerdictSeen T.rows result (judged T.kind bytes.now) }
{
    let mut records = Records::new(alloc, bytes);
    let mut fields = ByteRecord::new(alloc);
    if !records.read(&mut fields)? {
        return Err(TableRefused::Fault(TableFault::NoHeader));
    }
    let columns = find_columns(alloc, T::kind(), &fields)?;
    let width = fields.len();
    let mut values = Vec::new(alloc);
    let mut table = T::with_room(alloc, rows_expected(bytes))?;
    let mut totals = Totals::zero();
    while records.read(&mut fields)? {
        totals = add_record(
            alloc,
            &mut table,
            totals,
            columns.as_slice(),
            width,
            &fields,
            &mut values,
        )?;
    }
    Ok(table)
}

/// How many rows the bytes are likely to have: as many as line feeds, if the whole is like the part in the middle, but no more
/// than there is room for in the bytes and in a table.
///
/// It only decides how much memory is taken at once.
fn rows_expected(bytes: &[u8]) -> usize {
    let start = bytes.len().saturating_sub(PART_BYTES) / 2;
    let part = &bytes[start..start + bytes.len().min(PART_BYTES)];
    let lines = part.iter().filter(|byte| **byte == b'\n').count();
    let expected = lines.saturating_mul(bytes.len() / PART_BYTES + 1);
    expected.min(bytes.len() / LEAST_BYTES).min(MOST_ROWS)
}
