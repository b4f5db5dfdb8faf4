ghost use Rattle.std.specs.Prelude.{◌≡◌};
ghost use Rattle.pgr_outside.specs.Parts.{parts_text};
ghost use Rattle.pgr_run.specs.Messages.{message_of, text_of, refused_text};

use crate::cause::Cause;
use pgr_answer::Refused;
use pgr_outside::Part;

/// No words, where a text has fewer parts than there is room for.
const NONE: Part<'static> = Part::Words("");

/// The message of a cause, in parts: one line, with its line feed.
pub(crate) fn message(cause: Cause) -> [Part<'static>; 8]
    ensures { parts_text result ≡ message_of cause }
{
    let [a, b, c, d, e, f] = text(cause);
    [Part::Words("pgr: "), a, b, c, d, e, f, Part::Words("\n")]
}

/// What is said of a cause, in parts.
fn text(cause: Cause) -> [Part<'static>; 6]
    ensures { parts_text result ≡ text_of cause }
{
    match cause {
        Cause::Words(fault) => {
            let [a, b, c] = fault.parts();
            [a, b, c, NONE, NONE, NONE]
        }
        Cause::Refused(refused) => refusal(refused),
        Cause::WriteFailed => [Part::Words("write failed"), NONE, NONE, NONE, NONE, NONE],
    }
}

/// What is said of a command that isn't answered, in parts; a file is called by its role.
fn refusal(refused: Refused) -> [Part<'static>; 6]
    ensures { parts_text result ≡ refused_text refused }
{
    match refused {
        Refused::ReadFailed(role) => [
            Part::Words(role.name()),
            Part::Words(": read failed"),
            NONE,
            NONE,
            NONE,
            NONE,
        ],
        Refused::TooLong(role) => [
            Part::Words(role.name()),
            Part::Words(": file too long"),
            NONE,
            NONE,
            NONE,
            NONE,
        ],
        Refused::Table(role, fault) => {
            let [a, b, c, d] = fault.parts();
            [Part::Words(role.name()), Part::Words(": "), a, b, c, d]
        }
        Refused::Memory => [Part::Words("want of memory"), NONE, NONE, NONE, NONE, NONE],
    }
}

#[cfg(test)]
mod tests {
    use super::*;
    use pgr_answer::Role;
    use pgr_outside::{MemorySink, write_parts};
    use pgr_table::{Column, TableFault};
    use pgr_words::{OptionName, WordFault};
    use std::process::Abort;
    use std::test::Fail;

    /// The message of a cause is this line.
    fn tells(rt: &(impl Abort + AllocGlobal), cause: Cause, line: &str) -> Result<(), Fail> {
        let mut err = MemorySink::with_room(rt.alloc(), 128, 128, Vec::new(rt.alloc()))?;
        write_parts(&mut err, &message(cause))?;
        assert_eq!(rt; err.bytes(), line.as_bytes());
        Ok(())
    }

    #[test]
    fn broken_words_are_told_with_their_place_or_option(rt: HostRuntime) -> Result<(), Fail> {
        for (fault, text) in [
            (WordFault::NoFunction, "pgr: no function\n"),
            (WordFault::UnknownFunction, "pgr: unknown function\n"),
            (WordFault::BadWord(2), "pgr: bad word 2\n"),
            (
                WordFault::UnknownOption(2),
                "pgr: unknown option in word 2\n",
            ),
            (
                WordFault::RepeatedOption(OptionName::Start),
                "pgr: option start repeated\n",
            ),
            (
                WordFault::BadValue(OptionName::Start),
                "pgr: bad value for start\n",
            ),
            (
                WordFault::MissingOption(OptionName::End),
                "pgr: option end missing\n",
            ),
        ] {
            tells(&rt, Cause::Words(fault), text)?;
        }
        Ok(())
    }

    #[test]
    fn a_bad_table_is_told_with_its_role_and_its_record_or_column(
        rt: HostRuntime,
    ) -> Result<(), Fail> {
        for (role, fault, text) in [
            (Role::Edges, TableFault::NoHeader, "pgr: edges: no header\n"),
            (
                Role::Edges,
                TableFault::UnevenRecord(5),
                "pgr: edges: record 5 is uneven\n",
            ),
            (
                Role::Edges,
                TableFault::MissingColumn(Column::Target),
                "pgr: edges: column target missing\n",
            ),
            (
                Role::Edges,
                TableFault::RepeatedColumn(Column::Cost),
                "pgr: edges: column cost repeated\n",
            ),
            (
                Role::Combinations,
                TableFault::BadField(2, Column::Source),
                "pgr: combinations: record 2: bad source\n",
            ),
            (
                Role::Edges,
                TableFault::DuplicateId(3),
                "pgr: edges: record 3: id repeated\n",
            ),
            (
                Role::Edges,
                TableFault::TooManyRows(4194306),
                "pgr: edges: record 4194306: too many rows\n",
            ),
            (
                Role::Edges,
                TableFault::CostSum(3),
                "pgr: edges: record 3: sum too large\n",
            ),
        ] {
            tells(&rt, Cause::Refused(Refused::Table(role, fault)), text)?;
        }
        Ok(())
    }

    #[test]
    fn other_causes_are_told_and_the_longest_message_is_whole(rt: HostRuntime) -> Result<(), Fail> {
        for (cause, text) in [
            (
                Cause::Refused(Refused::TooLong(Role::Edges)),
                "pgr: edges: file too long\n",
            ),
            (
                Cause::Refused(Refused::ReadFailed(Role::Combinations)),
                "pgr: combinations: read failed\n",
            ),
            (Cause::Refused(Refused::Memory), "pgr: want of memory\n"),
            (Cause::WriteFailed, "pgr: write failed\n"),
            (
                Cause::Refused(Refused::Table(
                    Role::Combinations,
                    TableFault::BadField(u64::MAX, Column::ReverseCost),
                )),
                "pgr: combinations: record 18446744073709551615: bad reverse_cost\n",
            ),
        ] {
            tells(&rt, cause, text)?;
        }
        Ok(())
    }
}
