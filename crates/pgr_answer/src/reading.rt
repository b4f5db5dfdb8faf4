ghost use Rattle.std.specs.Prelude.{◌≡◌, ◌≢◌, IfOk, OnOk, IfErr};
ghost use Rattle.pgr_outside.specs.Faults.{NoneFell};
ghost use Rattle.pgr_table.specs.Edges.{HasPlaces};
ghost use Rattle.pgr_answer.specs.Roles.{kind_of, kind_of_edges};
ghost use Rattle.pgr_answer.specs.Files.{files_with, files_of};
ghost use Rattle.pgr_answer.specs.Reading.{AreRead};
ghost use Rattle.pgr_answer.specs.Refusals.{HoldsAmong, from_read, from_table};
ghost use Rattle.pgr_answer.specs.Tables.{no_tables};

use crate::refused::Refused;
use crate::role::{Kind, Role, roles};
use crate::tables::Tables;
use pgr_outside::{ReadRefused, Store, read_file};
use pgr_table::TableRefused;
use pgr_words::Command;
use std::alloc::Global;

/// The greatest number of bytes of a file.
const MOST_BYTES: u64 = 268_435_456;

/// The tables that the files of a command are, or the refusal of the first file that is none.
///
/// Each file is read and judged before the next is read.
pub(crate) fn read_tables<S: Store>(
    alloc: Global,
    command: &Command,
    store: &mut S,
) -> Result<Tables, Refused>
    ensures tables { IfOk result (AreRead (S.content store.old) (files_of command.now) no_tables) }
    ensures refused { IfErr result (HoldsAmong (S.content store.old) (S.faults store.old) (S.faults store.new) (files_of command.now)) }
    ensures content { S.content store.new ≡ S.content store.old }
    ensures faults { NoneFell (S.faults store.old) (S.faults store.new) }
    ensures places { IfOk result (λ tables. kind_of_edges command.now.function ≡ Kind.PlacedEdges → HasPlaces tables.edges) }
{
    let mut tables = Tables::empty(alloc);
    for role in roles() {
        read_role(alloc, command, *role, store, &mut tables)?;
    }
    Ok(tables)
}

/// Reads the file that has this role to a command, if there is one, as the table of the role.
fn read_role<S: Store>(
    alloc: Global,
    command: &Command,
    role: Role,
    store: &mut S,
    tables: &mut Tables,
) -> Result<(), Refused>
    ensures tables { OnOk result (AreRead (S.content store.old) (files_with command.now role) tables.old tables.new) }
    ensures refused { IfErr result (HoldsAmong (S.content store.old) (S.faults store.old) (S.faults store.new) (files_with command.now role)) }
    ensures content { S.content store.new ≡ S.content store.old }
    ensures faults { NoneFell (S.faults store.old) (S.faults store.new) }
    ensures places { kind_of command.now.function role ≢ Kind.Edges → HasPlaces tables.old.edges → HasPlaces tables.new.edges }
{
    let Some(name) = role.file_name(command) else {
        return Ok(());
    };
    let bytes = match read_file(alloc, store, name, MOST_BYTES) {
        Ok(bytes) => bytes,
        Err(refused) => return Err(refused_read(role, refused)),
    };
    let kind = Kind::of(command.function, role);
    match tables.read(alloc, kind, bytes.as_slice()) {
        Ok(()) => Ok(()),
        Err(refused) => Err(refused_table(role, refused)),
    }
}

/// The refusal of a file that wasn't read.
fn refused_read(role: Role, refused: ReadRefused) -> Refused
    ensures { result ≡ from_read role refused }
{
    match refused {
        ReadRefused::Failed => Refused::ReadFailed(role),
        ReadRefused::TooLong => Refused::TooLong(role),
        ReadRefused::Memory => Refused::Memory,
    }
}

/// The refusal of a table that isn't accepted.
fn refused_table(role: Role, refused: TableRefused) -> Refused
    ensures { result ≡ from_table role refused }
{
    match refused {
        TableRefused::Fault(fault) => Refused::Table(role, fault),
        TableRefused::Memory => Refused::Memory,
    }
}
