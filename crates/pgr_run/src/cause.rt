ghost use Rattle.std.specs.Prelude.{◌≡◌};
ghost use Rattle.pgr_run.specs.Causes as causes;

use crate::status::Status;
use pgr_answer::Refused;
use pgr_outside::Failed;
use pgr_table::TableFault;
use pgr_words::{WordFault, WordsRefused};

/// Why a run ended without its table written whole: the first cause, in this order.
#[derive(Clone, Copy, Debug, PartialEq, Eq)]
pub enum Cause {
    /// The words aren't a command: the first rule that they break.
    Words(WordFault),
    /// There is no answer: the first of the files that is refused, or the refusal of their tables together, or it is out of
    /// memory, at any call up to the writing.
    Refused(Refused),
    /// A write to the output failed: only where its count of faults rose.
    WriteFailed,
}

impl Cause {
    /// The status of a run that ended for this cause.
    pub fn status(self) -> Status
        ensures { result ≡ causes.status_of self }
    {
        match self {
            Cause::Words(_) => Status::Words,
            Cause::Refused(refused) => status_of_refusal(refused),
            Cause::WriteFailed => Status::Outside,
        }
    }
}

/// The status where a command isn't answered.
fn status_of_refusal(refused: Refused) -> Status
    ensures { result ≡ causes.status_of_refusal refused }
{
    match refused {
        Refused::ReadFailed(_) => Status::Outside,
        Refused::TooLong(_) => Status::Limit,
        Refused::Table(_, fault) => status_of_fault(fault),
        Refused::Memory => Status::Memory,
    }
}

/// The status of a table's first fault.
fn status_of_fault(fault: TableFault) -> Status
    ensures { result ≡ causes.status_of_fault fault }
{
    match fault {
        TableFault::TooManyRows(_) | TableFault::CostSum(_) => Status::Limit,
        _ => Status::Table,
    }
}

impl From<WordsRefused> for Cause {
    ghost use Rattle.std.specs.Prelude.{◌≡◌};
    ghost use Rattle.pgr_run.specs.Causes.{from_words};

    ghost from_gives = { λ refused cause. cause ≡ from_words refused };

    fn from(refused: WordsRefused) -> Cause {
        match refused {
            WordsRefused::Fault(fault) => Cause::Words(fault),
            WordsRefused::Memory => Cause::Refused(Refused::Memory),
        }
    }
}

impl From<Refused> for Cause {
    ghost use Rattle.std.specs.Prelude.{◌≡◌};
    ghost use Rattle.pgr_run.specs.declared.cause.Cause.TheVariants as cause;

    ghost from_gives = { λ refused found. found ≡ cause.Refused refused };

    fn from(refused: Refused) -> Cause {
        Cause::Refused(refused)
    }
}

impl From<Failed> for Cause {
    ghost use Rattle.std.specs.Prelude.{◌≡◌};
    ghost use Rattle.pgr_run.specs.declared.cause.Cause.TheVariants as cause;

    ghost from_gives = { λ _ found. found ≡ cause.WriteFailed };

    fn from(_: Failed) -> Cause {
        Cause::WriteFailed
    }
}
