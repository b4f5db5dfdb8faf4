ghost use Rattle.std.specs.Prelude.{◌≡◌, ◌≢◌, ℕ, ℤ, List, All, Option, Contains, IsSome};
ghost use Rattle.pgr_walks.specs.declared.link.LinkOf.{LinkOf};
ghost use Rattle.pgr_walks.specs.Walk.{cost_of};
ghost use Rattle.pgr_words.specs.declared.command.Command.{Command};
ghost use Rattle.pgr_words.specs.declared.function.Function.TheVariants.{EdmondsKarp};
ghost use Rattle.pgr_rows.specs.declared.rows.Rows.{Rows};
ghost use Rattle.pgr_answer.specs.declared.tables.Tables.{Tables as SomeTables};
ghost use Rattle.pgr_answer.specs.declared.answered.Note.{Note};
ghost use Rattle.pgr_answer.specs.Allowed.{IsAllowed, AreNotesOver, AnswersCommand};
ghost use Rattle.pgr_answer.specs.Costs.{IsLeastCost};
ghost use Rattle.pgr_answer.specs.Files.{File, Content, files_of, AreAccepted};
ghost use Rattle.pgr_answer.specs.Paths.{IsLeastBetween};

/// One table at most is allowed for a command over the tables that it asks about, and one list of notes; and where the
/// contents of all its files are known, they are one list of contents at most, and one table and one list of notes at most
/// answer the command.
///
/// `pgr_edmondsKarp` alone may answer with several, one for each greatest flow. So for each other function what is written
/// is a function of the words and the files. A law; the call does nothing.
pub fn one_table_is_allowed()
    ensures rows { (command : Command) (tables : SomeTables) (rows other : Rows)
        → command.function ≢ EdmondsKarp
        → IsAllowed command tables rows
        → IsAllowed command tables other
        → rows ≡ other }
    ensures notes { (command : Command) (tables : SomeTables) (notes other : List Note)
        → AreNotesOver command tables notes
        → AreNotesOver command tables other
        → notes ≡ other }
    ensures contents { (known : List ℕ → Option (List ℕ)) (files : List File) (contents others : List Content)
        → All (λ file. IsSome (known file.name)) files
        → AreAccepted known files contents
        → AreAccepted known files others
        → contents ≡ others }
    ensures answers { (command : Command) (known : List ℕ → Option (List ℕ)) (rows other : Rows) (notes others : List Note)
        → All (λ file. IsSome (known file.name)) (files_of command)
        → AnswersCommand command known rows notes
        → AnswersCommand command known other others
        → (command.function ≢ EdmondsKarp → rows ≡ other) × (notes ≡ others) }
{}

/// The walk that is least between two vertices has the least cost between them.
///
/// A law; the call does nothing.
pub fn the_least_walk_has_the_least_cost()
    ensures { (links : List (LinkOf ℤ)) (s t : ℤ) (walk : List (LinkOf ℤ))
        → IsLeastBetween (Contains links) s t walk
        → IsLeastCost (Contains links) s t (cost_of walk) }
{}
