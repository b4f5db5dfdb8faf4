ghost use Rattle.std.specs.Prelude.{◌≡◌, find, map, option_map};
ghost use Rattle.std.specs.Map.{lookup};
ghost use Rattle.std.specs.Str.{bytes_eq};
ghost use Rattle.pgr_words.specs.Functions.{function_named, row_of};

use crate::option::OptionName;

/// A function of the command line.
#[derive(Clone, Copy, Debug, PartialEq, Eq)]
pub enum Function {
    /// `pgr_dijkstra`: least routes.
    Dijkstra,
    /// `pgr_dijkstraCost`: the costs of least routes.
    DijkstraCost,
    /// `pgr_dijkstraCostMatrix`: the costs of least routes between all of some vertices.
    DijkstraCostMatrix,
    /// `pgr_connectedComponents`: the connected classes of the vertices.
    ConnectedComponents,
    /// `pgr_strongComponents`: the strongly connected classes of the vertices.
    StrongComponents,
    /// `pgr_biconnectedComponents`: the blocks of the edges.
    BiconnectedComponents,
    /// `pgr_articulationPoints`: the vertices that join blocks.
    ArticulationPoints,
    /// `pgr_bridges`: the edges without which their ends are no longer joined.
    Bridges,
    /// `pgr_aStar`: least routes by a search that an estimate guides.
    AStar,
    /// `pgr_drivingDistance`: the vertices within a distance of a start.
    DrivingDistance,
    /// `pgr_withPoints`: least routes between vertices and points on edges.
    WithPoints,
    /// `pgr_trsp`: least routes that meet no restriction.
    Trsp,
    /// `pgr_KSP`: the first K loopless routes.
    Ksp,
    /// `pgr_contraction`: vertices taken away so that every distance stays.
    Contraction,
    /// `pgr_maxFlow`: the value of a greatest flow.
    MaxFlow,
    /// `pgr_edmondsKarp`: a greatest flow, link by link.
    EdmondsKarp,
    /// `minCut`: the links that leave the least source side of a least cut.
    MinCut,
}

/// The options of a function that asks for pairs, in the order in which needed ones are looked for.
const PAIR_OPTIONS: [OptionName; 5] = [
    OptionName::Edges,
    OptionName::Start,
    OptionName::End,
    OptionName::Combinations,
    OptionName::Directed,
];

/// The options of a function that asks about the edges as a whole.
const EDGE_OPTIONS: [OptionName; 1] = [OptionName::Edges];

/// The options of a function of flows from the starts to the ends, in the same order.
const FLOW_OPTIONS: [OptionName; 3] = [OptionName::Edges, OptionName::Start, OptionName::End];

/// The options of a function that asks for all pairs of one list, in the same order.
const MATRIX_OPTIONS: [OptionName; 3] = [OptionName::Edges, OptionName::Vids, OptionName::Directed];

/// The options of driving distance, in the same order.
const DRIVING_OPTIONS: [OptionName; 5] = [
    OptionName::Edges,
    OptionName::Start,
    OptionName::Distance,
    OptionName::Directed,
    OptionName::Equicost,
];

/// The options of least routes between points, in the same order.
const POINT_OPTIONS: [OptionName; 8] = [
    OptionName::Edges,
    OptionName::Points,
    OptionName::Start,
    OptionName::End,
    OptionName::Combinations,
    OptionName::Directed,
    OptionName::DrivingSide,
    OptionName::Details,
];

/// The options of least routes under restrictions, in the same order.
const TRSP_OPTIONS: [OptionName; 6] = [
    OptionName::Edges,
    OptionName::Restrictions,
    OptionName::Start,
    OptionName::End,
    OptionName::Combinations,
    OptionName::Directed,
];

/// The options of the first K routes, in the same order.
const KSP_OPTIONS: [OptionName; 6] = [
    OptionName::Edges,
    OptionName::Start,
    OptionName::End,
    OptionName::K,
    OptionName::Combinations,
    OptionName::Directed,
];

/// The options of contraction, in the same order.
const CONTRACTION_OPTIONS: [OptionName; 5] = [
    OptionName::Edges,
    OptionName::Order,
    OptionName::MaxCycles,
    OptionName::Forbidden,
    OptionName::Directed,
];

/// The options of a search that an estimate guides, in the same order.
const GUIDED_OPTIONS: [OptionName; 7] = [
    OptionName::Edges,
    OptionName::Start,
    OptionName::End,
    OptionName::Combinations,
    OptionName::Directed,
    OptionName::Heuristic,
    OptionName::Factor,
];

/// A function by what it is called, with its options.
#[derive(Clone, Copy)]
struct Called {
    name: &'static str,
    function: Function,
    options: &'static [OptionName],
}

/// Each function by what it is called, with its options.
const FUNCTIONS: [Called; 17] = [
    Called {
        name: "pgr_aStar",
        function: Function::AStar,
        options: &GUIDED_OPTIONS,
    },
    Called {
        name: "pgr_connectedComponents",
        function: Function::ConnectedComponents,
        options: &EDGE_OPTIONS,
    },
    Called {
        name: "pgr_strongComponents",
        function: Function::StrongComponents,
        options: &EDGE_OPTIONS,
    },
    Called {
        name: "pgr_biconnectedComponents",
        function: Function::BiconnectedComponents,
        options: &EDGE_OPTIONS,
    },
    Called {
        name: "pgr_articulationPoints",
        function: Function::ArticulationPoints,
        options: &EDGE_OPTIONS,
    },
    Called {
        name: "pgr_bridges",
        function: Function::Bridges,
        options: &EDGE_OPTIONS,
    },
    Called {
        name: "pgr_dijkstra",
        function: Function::Dijkstra,
        options: &PAIR_OPTIONS,
    },
    Called {
        name: "pgr_dijkstraCost",
        function: Function::DijkstraCost,
        options: &PAIR_OPTIONS,
    },
    Called {
        name: "pgr_dijkstraCostMatrix",
        function: Function::DijkstraCostMatrix,
        options: &MATRIX_OPTIONS,
    },
    Called {
        name: "pgr_drivingDistance",
        function: Function::DrivingDistance,
        options: &DRIVING_OPTIONS,
    },
    Called {
        name: "pgr_withPoints",
        function: Function::WithPoints,
        options: &POINT_OPTIONS,
    },
    Called {
        name: "pgr_trsp",
        function: Function::Trsp,
        options: &TRSP_OPTIONS,
    },
    Called {
        name: "pgr_KSP",
        function: Function::Ksp,
        options: &KSP_OPTIONS,
    },
    Called {
        name: "pgr_contraction",
        function: Function::Contraction,
        options: &CONTRACTION_OPTIONS,
    },
    Called {
        name: "pgr_maxFlow",
        function: Function::MaxFlow,
        options: &FLOW_OPTIONS,
    },
    Called {
        name: "pgr_edmondsKarp",
        function: Function::EdmondsKarp,
        options: &FLOW_OPTIONS,
    },
    Called {
        name: "minCut",
        function: Function::MinCut,
        options: &FLOW_OPTIONS,
    },
];

impl Function {
    /// The function that is called so, with its options, if there is one.
    pub(crate) fn named(name: &str) -> Option<(Function, &'static [OptionName])>
        ensures { option_map (λ called. (called.0, called.1.now)) result ≡ function_named name.now }
    {
        called_in(&FUNCTIONS, name)
    }
}

/// The function that is called so in a table, with its options, if there is one.
fn called_in(table: &[Called], name: &str) -> Option<(Function, &'static [OptionName])>
    ensures { option_map (λ called. (called.0, called.1.now)) result ≡ lookup (bytes_eq name.now) (map row_of table.now) }
{
    let row = row_named(table, name)?;
    Some((row.function, row.options))
}

/// The first row of a table whose function is called so, if there is one.
fn row_named(table: &[Called], name: &str) -> Option<Called>
    ensures { result ≡ find (λ row. bytes_eq name.now row.name.now) table.now }
{
    table.iter().copied().find(|row| name == row.name)
}
