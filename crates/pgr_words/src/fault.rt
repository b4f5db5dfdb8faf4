ghost use Rattle.std.specs.Prelude.{◌≡◌};
ghost use Rattle.pgr_outside.specs.Parts.{parts_text};
ghost use Rattle.pgr_words.specs.FaultText.{fault_text};

use crate::option::OptionName;
use pgr_outside::Part;
use std::alloc::AllocFailed;
use thiserror::Error;

/// The first rule that some words break.
///
/// The first word is judged first, then each later word in order, by the rules in the order of these variants, and then
/// the needed options in the order of the function's options. A place counts the words from 1.
#[derive(Clone, Copy, Debug, PartialEq, Eq, Drop, Error)]
pub enum WordFault {
    /// There is no word.
    #[error("no function")]
    NoFunction,
    /// The first word names no function.
    #[error("unknown function")]
    UnknownFunction,
    /// The word at this place doesn't begin with two hyphens, or has no equals sign behind them.
    #[error("bad word {0}")]
    BadWord(u64),
    /// The word at this place names an option that the function doesn't have.
    #[error("unknown option in word {0}")]
    UnknownOption(u64),
    /// A word names an option that an earlier word named.
    #[error("option {0} repeated")]
    RepeatedOption(OptionName),
    /// A word gives an option a value that isn't in its form.
    #[error("bad value for {0}")]
    BadValue(OptionName),
    /// No word gives an option that is needed.
    #[error("option {0} missing")]
    MissingOption(OptionName),
}

impl WordFault {
    /// What is said of the fault, in parts; [`Display`](std::fmt::Display) says the same.
    pub fn parts(self) -> [Part<'static>; 3]
        ensures { parts_text result ≡ fault_text self }
    {
        let none = Part::Words("");
        match self {
            WordFault::NoFunction => [Part::Words("no function"), none, none],
            WordFault::UnknownFunction => [Part::Words("unknown function"), none, none],
            WordFault::BadWord(place) => [Part::Words("bad word "), Part::Number(place), none],
            WordFault::UnknownOption(place) => [
                Part::Words("unknown option in word "),
                Part::Number(place),
                none,
            ],
            WordFault::RepeatedOption(option) => [
                Part::Words("option "),
                Part::Words(option.name()),
                Part::Words(" repeated"),
            ],
            WordFault::BadValue(option) => [
                Part::Words("bad value for "),
                Part::Words(option.name()),
                none,
            ],
            WordFault::MissingOption(option) => [
                Part::Words("option "),
                Part::Words(option.name()),
                Part::Words(" missing"),
            ],
        }
    }
}

/// Why words weren't read as a command.
#[derive(Clone, Copy, Debug, PartialEq, Eq, Drop, Error)]
pub enum WordsRefused {
    /// The words break a rule.
    #[error("{0}")]
    Fault(WordFault),
    /// Out of memory, which may come at any call.
    #[error("want of memory")]
    Memory,
}

impl From<WordFault> for WordsRefused {
    ghost use Rattle.std.specs.Prelude.{◌≡◌};
    ghost use Rattle.pgr_words.specs.declared.fault.WordsRefused.TheVariants.{Fault};

    ghost from_gives = { λ fault refused. refused ≡ Fault fault };

    fn from(fault: WordFault) -> WordsRefused {
        WordsRefused::Fault(fault)
    }
}

impl<T: Drop> From<AllocFailed<T>> for WordsRefused {
    ghost use Rattle.std.specs.Prelude.{◌≡◌};
    ghost use Rattle.pgr_words.specs.declared.fault.WordsRefused.TheVariants.{Memory};

    ghost from_gives = { λ _ refused. refused ≡ Memory };

    fn from(_: AllocFailed<T>) -> WordsRefused {
        WordsRefused::Memory
    }
}

#[cfg(test)]
mod tests {
    use super::*;
    use pgr_outside::{MemorySink, write_parts};
    use std::test::Fail;

    #[test]
    fn display_says_what_the_parts_say(rt: HostRuntime) -> Result<(), Fail> {
        for fault in [
            WordFault::NoFunction,
            WordFault::UnknownFunction,
            WordFault::BadWord(2),
            WordFault::UnknownOption(u64::MAX),
            WordFault::RepeatedOption(OptionName::Start),
            WordFault::BadValue(OptionName::Combinations),
            WordFault::MissingOption(OptionName::End),
        ] {
            let mut said = MemorySink::with_room(rt.alloc(), 100, 100, Vec::new(rt.alloc()))?;
            write_parts(&mut said, &fault.parts())?;
            let shown = format!(in rt.alloc(); "{fault}")?;
            assert_eq!(rt; said.bytes(), shown.as_str().as_bytes());
        }
        Ok(())
    }
}
