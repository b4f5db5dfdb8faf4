ghost use Rattle.std.specs.Prelude.{◌≡◌, ◌↔◌, ℕ, List, [], ◌∷◌, ◌++◌, Some, None, Err};
ghost use Rattle.pgr_words.specs.declared.command.Command.{Command};
ghost use Rattle.pgr_words.specs.declared.fault.WordFault.{WordFault};
ghost use Rattle.pgr_words.specs.declared.function.Function.{Function};
ghost use Rattle.pgr_words.specs.declared.option.OptionName.{OptionName};
ghost use Rattle.pgr_words.specs.Commands.{command_of};
ghost use Rattle.pgr_words.specs.FirstFault.{AreGood, IsFirstFault};
ghost use Rattle.pgr_words.specs.Functions.{function_named};
ghost use Rattle.pgr_words.specs.WellFormed.{AreInForm, IsWellFormed};
ghost use Rattle.pgr_words.specs.Words.{first_fault, word_fault};

/// Of the words behind a function's name the first fault is that of the first word that breaks a rule, and there is none
/// exactly where each word is good.
///
/// A law; the call does nothing.
pub fn the_first_fault_is_that_of_the_first_bad_word()
    ensures none { (options : List OptionName) (words : List (List ℕ)) → (first_fault options [] words ≡ None) ↔ AreGood options words }
    ensures some { (options : List OptionName) (words : List (List ℕ)) (fault : WordFault)
        → first_fault options [] words ≡ Some fault
        → IsFirstFault options words fault }
{}

/// What follows a word that breaks a rule has no part in the answer, nor has an option that is missing.
///
/// A law; the call does nothing.
pub fn what_follows_a_fault_has_no_part_in_it()
    ensures { (function : Function) (options : List OptionName) (name word : List ℕ) (before after : List (List ℕ)) (fault : WordFault)
        → function_named name ≡ Some (function, options)
        → AreGood options before
        → word_fault options before word ≡ Some fault
        → command_of (name ∷ before ++ word ∷ after) ≡ Err fault }
{}

/// In a well-formed command each file has a name of 1 to 4,096 bytes, and each list of ids is strictly rising; what its
/// function needs is there, and what it hasn't stands at its default.
///
/// A law; the call does nothing.
pub fn fields_of_well_formed_commands_are_in_form()
    ensures { (command : Command) (well : IsWellFormed command) → AreInForm well.options command }
{}
