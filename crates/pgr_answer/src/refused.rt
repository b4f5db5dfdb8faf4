use crate::role::Role;
use pgr_outside::NoMemory;
use pgr_table::TableFault;
use thiserror::Error;

/// Why there are no rows: the first cause, in this order.
///
/// The files that the command names are read in the order of their [`Role`]. Each is read whole, then it is judged, and
/// only then the next one is read. After the last one the restrictions are judged over the costs of the links: see
/// [`restricted_sum`](pgr_graph::restricted_sum).
#[derive(Clone, Copy, Debug, PartialEq, Eq, Drop, Error)]
pub enum Refused {
    /// A read of the file with this role failed: only where the count of faults of its name rose in this call.
    #[error("{0}: read failed")]
    ReadFailed(Role),
    /// The file with this role has more than 268,435,456 bytes.
    #[error("{0}: file too long")]
    TooLong(Role),
    /// The file with this role isn't an accepted table: its first fault; or all are, and the restrictions have a record that
    /// takes the sum too far: `CostSum`, of restrictions.
    #[error("{0}: {1}")]
    Table(Role, TableFault),
    /// Out of memory.
    #[error("want of memory")]
    Memory,
}

impl From<NoMemory> for Refused {
    ghost use Rattle.std.specs.Prelude.{◌≡◌};
    ghost use Rattle.pgr_answer.specs.declared.refused.Refused.TheVariants.{Memory};

    ghost from_gives = { λ _ refused. refused ≡ Memory };

    fn from(_: NoMemory) -> Refused {
        Refused::Memory
    }
}
