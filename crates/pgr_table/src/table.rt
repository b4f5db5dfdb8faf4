ghost use Rattle.std.specs.Prelude.{List, Result, ℕ};
ghost use Rattle.pgr_table.specs.declared.fault.TableFault.{TableFault as Fault};
ghost use Rattle.pgr_table.specs.Judging.{IsVerdictSeen};

use crate::fault::TableRefused;
use std::alloc::Global;

/// A table of one kind: how bytes are judged, and what contracts see of its rows.
pub trait Table: Drop {
    /// A row.
    ghost Row: { Type 0 };

    /// The rows of a table, in its order.
    ghost rows: { Self → List Row };

    /// The verdict on bytes: the rows that they are, or their first fault.
    ghost judged: { List ℕ → Result (List Row) Fault };

    /// The table that the bytes are, or why they are none.
    ///
    /// `Fault` comes exactly where the bytes have one, and is the first. `Memory` may come at any bytes.
    fn read(alloc: Global, bytes: &[u8]) -> Result<Self, TableRefused>
        ensures { IsVerdictSeen rows result (judged bytes.now) };
}
