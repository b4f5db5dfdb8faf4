ghost use Rattle.std.specs.Prelude.{◌≡◌, ◌&&◌, not, List, [], OnOk, IfErr, option_map, Result};
ghost use Rattle.pgr_words.specs.declared.option.OptionName.{OptionName};
ghost use Rattle.pgr_words.specs.Options.{rule_of, with_value};
ghost use Rattle.pgr_words.specs.Functions.{is_among, option_named};
ghost use Rattle.pgr_words.specs.Words.{setting_in, first_missing, is_needed};
ghost use Rattle.pgr_words.specs.Commands.{IsVerdict, unless, missing_fault};
ghost use Rattle.pgr_words.specs.Forms.{Reads};
ghost use Rattle.pgr_words.specs.Drafts.{IsDraft, Takes, Faults, IsFaultOf, Gives};

use crate::command::Command;
use crate::fault::{WordFault, WordsRefused};
use crate::function::Function;
use crate::option::{Need, OptionName};
use crate::value::{
    ValueRefused, read_count, read_distance, read_factor, read_file_name, read_flag,
    read_heuristic, read_ids, read_order, read_side,
};
use std::alloc::Global;

/// A command that is being read: its fields so far, and the options that stood.
#[derive(Drop)]
pub(crate) struct Draft {
    command: Command,
    stood: Vec<OptionName>,
}

impl Draft {
    /// A draft of a function's command, before its options.
    pub(crate) fn new(alloc: Global, function: Function) -> Draft
        ensures { (options : List OptionName) → IsDraft function options [] result }
    {
        Draft {
            command: Command::with_defaults(alloc, function),
            stood: Vec::new(alloc),
        }
    }

    /// Takes the next word, which stands at this place. After an `Err` nothing is said of the draft.
    pub(crate) fn take(
        &mut self,
        alloc: Global,
        options: &[OptionName],
        place: u64,
        word: &str,
    ) -> Result<(), WordsRefused>
        ensures ok { OnOk result (Takes options.now place word.now self.old self.new) }
        ensures fault { IfErr result (IsFaultOf (Faults options.now place word.now self.old)) }
    {
        let (option, value) = option_in(options, place, word)?;
        if is_given(self.stood.as_slice(), option) {
            return Err(WordsRefused::Fault(WordFault::RepeatedOption(option)));
        }
        match set_option(alloc, &mut self.command, option, value) {
            Ok(()) => {}
            Err(ValueRefused::Form) => {
                return Err(WordsRefused::Fault(WordFault::BadValue(option)));
            }
            Err(ValueRefused::Memory) => return Err(WordsRefused::Memory),
        }
        self.stood.push(option)?;
        Ok(())
    }

    /// The command, or the first needed option that is missing.
    pub(crate) fn finish(self, options: &[OptionName]) -> Result<Command, WordsRefused>
        ensures { let missing = first_missing options.now self.stood.items in
            IsVerdict result (unless (missing_fault missing) (Result.Ok self.command)) }
    {
        let Draft { command, stood } = self;
        match first_missing(options, stood.as_slice()) {
            Some(option) => Err(WordsRefused::Fault(WordFault::MissingOption(option))),
            None => Ok(command),
        }
    }
}

/// The option that a word gives, and its value.
fn option_in<'a>(
    options: &[OptionName],
    place: u64,
    word: &'a str,
) -> Result<(OptionName, &'a str), WordFault>
    ensures { Gives (λ given. (given.0, given.1.now)) options.now place word.now result }
{
    let (name, value) = setting_in(word).ok_or(WordFault::BadWord(place))?;
    let option = option_named(options, name).ok_or(WordFault::UnknownOption(place))?;
    Ok((option, value))
}

/// The one of the options that is called so, if there is one.
fn option_named(options: &[OptionName], name: &str) -> Option<OptionName>
    ensures { result ≡ option_named options.now name.now }
{
    options.iter().copied().find(|option| option.name() == name)
}

/// What stands between a word's two hyphens and its first equals sign, and all that follows that.
fn setting_in(word: &str) -> Option<(&str, &str)>
    ensures { option_map (λ setting. (setting.0.now, setting.1.now)) result ≡ setting_in word.now }
{
    word.strip_prefix("--")?.split_once('=')
}

/// Sets the field of an option to what its value stands for: for each option its form and its field.
fn set_option(
    alloc: Global,
    command: &mut Command,
    option: OptionName,
    value: &str,
) -> Result<(), ValueRefused>
    ensures { Reads (λ _. command.new) (with_value command.old option value.now) result }
{
    match option {
        OptionName::Edges => command.edges = read_file_name(alloc, value)?,
        OptionName::Points => command.points = Some(read_file_name(alloc, value)?),
        OptionName::Restrictions => command.restrictions = Some(read_file_name(alloc, value)?),
        OptionName::Combinations => command.combinations = Some(read_file_name(alloc, value)?),
        OptionName::Start => command.starts = read_ids(alloc, value)?,
        OptionName::End => command.ends = read_ids(alloc, value)?,
        OptionName::Vids => command.vids = read_ids(alloc, value)?,
        OptionName::Directed => command.directed = read_flag(value)?,
        OptionName::DrivingSide => command.driving_side = read_side(value)?,
        OptionName::Details => command.details = read_flag(value)?,
        OptionName::Distance => command.distance = read_distance(value)?,
        OptionName::Equicost => command.equicost = read_flag(value)?,
        OptionName::K => command.k = read_count(value)?,
        OptionName::Order => command.order = read_order(alloc, value)?,
        OptionName::MaxCycles => command.max_cycles = read_count(value)?,
        OptionName::Forbidden => command.forbidden = read_ids(alloc, value)?,
        OptionName::Heuristic => command.heuristic = read_heuristic(value)?,
        OptionName::Factor => command.factor = read_factor(value)?,
    }
    Ok(())
}

/// The first of the options that is needed beside those that are given, and isn't among them.
fn first_missing(options: &[OptionName], given: &[OptionName]) -> Option<OptionName>
    ensures { result ≡ first_missing options.now given.now }
{
    options
        .iter()
        .copied()
        .find(|option| is_missing(given, *option))
}

/// Whether the option is needed beside those that are given, and isn't among them.
fn is_missing(given: &[OptionName], option: OptionName) -> bool
    ensures { result ≡ (is_needed given.now (rule_of option).need && not (is_among given.now option)) }
{
    let is_needed = match option.rule().need {
        Need::Always => true,
        Need::WithoutCombinations => !is_given(given, OptionName::Combinations),
        Need::Never => false,
    };
    is_needed && !is_given(given, option)
}

/// Whether the option is among these.
fn is_given(given: &[OptionName], option: OptionName) -> bool
    ensures { result ≡ is_among given.now option }
{
    given.iter().any(|other| other.name() == option.name())
}
