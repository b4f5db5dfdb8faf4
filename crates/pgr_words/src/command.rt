ghost use Rattle.std.specs.Prelude.{◌≡◌};
ghost use Rattle.pgr_words.specs.Commands.{defaults};

use crate::estimate::{Factor, Heuristic};
use crate::function::Function;
use crate::method::Method;
use pgr_outside::{Listed, Side, Text};
use std::alloc::Global;

/// What the words ask for: a function, and the values of its options.
///
/// A field whose option the function doesn't have, or that isn't given, has its default. The lists of ids are strictly
/// rising, so each id stands once. Every command of [`read_words`](crate::read_words) is well formed.
#[derive(Debug, Drop)]
pub struct Command {
    /// The function.
    pub function: Function,
    /// The file of the table of edges, of 1 to 4,096 bytes.
    pub edges: Text,
    /// The file of the table of points, or none.
    pub points: Option<Text>,
    /// The file of the table of restrictions, or none.
    pub restrictions: Option<Text>,
    /// The file of the table of asked pairs, or none.
    pub combinations: Option<Text>,
    /// The vertices where routes start, empty by default.
    pub starts: Listed<i64>,
    /// The vertices where routes end, empty by default.
    pub ends: Listed<i64>,
    /// The vertices of a matrix, empty by default.
    pub vids: Listed<i64>,
    /// The vertices that aren't contracted, empty by default.
    pub forbidden: Listed<i64>,
    /// Whether the graph is directed, true by default.
    pub directed: bool,
    /// Whether points on the way are shown, false by default.
    pub details: bool,
    /// Whether each vertex is given to its closest start, false by default.
    pub equicost: bool,
    /// The side that one drives on, both by default.
    pub driving_side: Side,
    /// How the cost from a start is estimated: by the sum of the distances in x and in y by default.
    pub heuristic: Heuristic,
    /// What the estimate is multiplied by, 1 by default.
    pub factor: Factor,
    /// How many routes are asked for, 0 by default.
    pub k: u32,
    /// How often the methods of contraction are run, 1 by default.
    pub max_cycles: u32,
    /// How far is driven, 0 by default.
    pub distance: u64,
    /// The methods of contraction, in order, empty by default.
    pub order: Listed<Method>,
}

impl Command {
    /// The command of a function with no option given.
    pub(crate) fn with_defaults(alloc: Global, function: Function) -> Command
        ensures { result ≡ defaults function }
    {
        Command {
            function,
            edges: Text::from_string(String::new(alloc)),
            points: None,
            restrictions: None,
            combinations: None,
            starts: Listed::from_vec(Vec::new(alloc)),
            ends: Listed::from_vec(Vec::new(alloc)),
            vids: Listed::from_vec(Vec::new(alloc)),
            forbidden: Listed::from_vec(Vec::new(alloc)),
            directed: true,
            details: false,
            equicost: false,
            driving_side: Side::B,
            heuristic: Heuristic::H5,
            factor: Factor { over: 1, under: 1 },
            k: 0,
            max_cycles: 1,
            distance: 0,
            order: Listed::from_vec(Vec::new(alloc)),
        }
    }
}
