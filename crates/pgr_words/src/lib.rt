//! The words of a command line: a function's name and its options, read as a command or refused with the first fault.
//!
//! [`read_words`] reads a [`Command`]. Its [`Function`] has some options; an [`OptionName`] is a row with a name, when it is
//! needed, the form of its value, and the field that the value fills. [`WordFault::parts`] is what is said of a fault.
//! Proved: the answer is the command of the words or their first fault, or out of memory, by a definition on the bytes of
//! the words (`verdict`), and every command is well formed (`well_formed`); what is said of a fault is exactly its text.
//! Laws: the first fault is that of the first word that breaks a rule, and what follows that word has no part in it; in a
//! well-formed command each file has a name and each list of ids rises. Not proved: time, and that memory suffices.
#![tactic(auto)]

mod command;
mod draft;
mod estimate;
mod fault;
mod function;
mod laws;
mod method;
mod option;
mod value;
mod words;

pub use command::Command;
pub use estimate::{Factor, Heuristic};
pub use fault::{WordFault, WordsRefused};
pub use function::Function;
pub use laws::{
    fields_of_well_formed_commands_are_in_form, the_first_fault_is_that_of_the_first_bad_word,
    what_follows_a_fault_has_no_part_in_it,
};
pub use method::Method;
pub use option::OptionName;
pub use words::read_words;
