ghost use Rattle.std.specs.Prelude.{◌≡◌};
ghost use Rattle.pgr_words.specs.Options.{name_of, rule_of};

use std::fmt;

/// An option of the command line.
///
/// It is shown by its name.
#[derive(Clone, Copy, Debug, PartialEq, Eq)]
pub enum OptionName {
    /// The file of the table of edges.
    Edges,
    /// The file of the table of points on edges.
    Points,
    /// The file of the table of restrictions.
    Restrictions,
    /// The file of the table of asked pairs.
    Combinations,
    /// The vertices where routes start.
    Start,
    /// The vertices where routes end.
    End,
    /// The vertices of a matrix.
    Vids,
    /// Whether the graph is directed.
    Directed,
    /// The side of the road that one drives on.
    DrivingSide,
    /// Whether points on the way are shown.
    Details,
    /// How far is driven.
    Distance,
    /// Whether each vertex is given to its closest start.
    Equicost,
    /// How many routes are given.
    K,
    /// The methods of contraction, in order.
    Order,
    /// How often the methods of contraction are run.
    MaxCycles,
    /// The vertices that aren't contracted.
    Forbidden,
    /// How the cost of a walk from the start is estimated.
    Heuristic,
    /// What the estimate is multiplied by.
    Factor,
}

/// When a function needs an option that it has.
#[derive(Clone, Copy, Debug, PartialEq, Eq)]
pub(crate) enum Need {
    /// In every command.
    Always,
    /// In every command that doesn't give combinations.
    WithoutCombinations,
    /// In none: the option has a default.
    Never,
}

/// What is said of an option, beside the form of its value and the field that the value fills.
#[derive(Clone, Copy, Debug)]
pub(crate) struct OptionRule {
    /// What it is called, without its two hyphens.
    pub(crate) name: &'static str,
    /// When it is needed.
    pub(crate) need: Need,
}

impl OptionName {
    /// What the option is called, without its two hyphens.
    pub fn name(self) -> &'static str
        ensures { result.now ≡ name_of self }
    {
        self.rule().name
    }

    /// The option's name, and when it is needed.
    pub(crate) fn rule(self) -> OptionRule
        ensures name { result.name.now ≡ (rule_of self).name }
        ensures need { result.need ≡ (rule_of self).need }
    {
        let (name, need) = match self {
            OptionName::Edges => ("edges", Need::Always),
            OptionName::Points => ("points", Need::Always),
            OptionName::Restrictions => ("restrictions", Need::Always),
            OptionName::Combinations => ("combinations", Need::Never),
            OptionName::Start => ("start", Need::WithoutCombinations),
            OptionName::End => ("end", Need::WithoutCombinations),
            OptionName::Vids => ("vids", Need::Always),
            OptionName::Directed => ("directed", Need::Never),
            OptionName::DrivingSide => ("driving_side", Need::Never),
            OptionName::Details => ("details", Need::Never),
            OptionName::Distance => ("distance", Need::Always),
            OptionName::Equicost => ("equicost", Need::Never),
            OptionName::K => ("K", Need::Always),
            OptionName::Order => ("order", Need::Always),
            OptionName::MaxCycles => ("max_cycles", Need::Never),
            OptionName::Forbidden => ("forbidden", Need::Never),
            OptionName::Heuristic => ("heuristic", Need::Never),
            OptionName::Factor => ("factor", Need::Never),
        };
        OptionRule { name, need }
    }
}

impl fmt::Display for OptionName {
    fn fmt<W: fmt::Write>(&self, f: &mut fmt::Formatter<W>) -> fmt::Result {
        f.write_str(self.name())
    }
}
