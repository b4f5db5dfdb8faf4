ghost use Rattle.std.specs.Prelude.{◌≡◌, ◌<◌, [], length, All, Contains, IfOk, OnOk};
ghost use Rattle.pgr_walks.specs.LinksOf.{LinksOf};
ghost use Rattle.pgr_words.specs.Factors.{IsFactor};
ghost use Rattle.pgr_table.specs.Edges.{HasPlaces};
ghost use Rattle.pgr_numbers.specs.Names.{IsNumbered, id_at, named};
ghost use Rattle.pgr_search.specs.Estimates.{IsConsistent};
ghost use Rattle.pgr_astar.specs.Breaking.{value_at};
ghost use Rattle.pgr_astar.specs.Points.{IsNamedIn};
ghost use Rattle.pgr_answer.specs.AStar.{IsAStar, AreAStarNotes};
ghost use Rattle.pgr_answer.specs.Notes.{BreaksEstimate};
ghost use Rattle.pgr_answer.specs.Noting.{GainsNote};
ghost use Rattle.pgr_answer.specs.Networks.{id_links};

use crate::answered::Note;
use crate::asked_starts::asked_starts;
use crate::edge_network::network_of;
use crate::guided::guided_routes;
use crate::network::Network;
use crate::pairs::asked_pairs;
use crate::path_rows::rows_of_routes;
use crate::tables::Tables;
use pgr_astar::{Potential, first_inconsistent};
use pgr_numbers::{Names, numbers_rise_with_ids};
use pgr_outside::{Listed, NoMemory};
use pgr_rows::Rows;
use pgr_table::EdgeTable;
use pgr_walks::{Graph, Link, NamedLink};
use pgr_words::Command;
use std::alloc::Global;

/// The paths between the asked pairs of a command that can be answered and have a walk; the notes, of which there are none,
/// become those of the starts.
///
/// `NoMemory` may come at any call.
pub(crate) fn astar_rows(
    alloc: Global,
    command: &Command,
    tables: &Tables,
    notes: &mut Vec<Note>,
) -> Result<Rows, NoMemory>
    requires factor { IsFactor command.now.factor }
    requires places { HasPlaces tables.now.edges }
    requires none { notes.old.items ≡ [] }
    ensures rows { IfOk result (IsAStar command.now tables.now) }
    ensures notes { OnOk result (AreAStarNotes command.now tables.now notes.new.items) }
{
    let network = network_of(alloc, &tables.edges, command.directed)?;
    let starts = command.starts.as_slice();
    let ends = command.ends.as_slice();
    let asked = asked_starts(alloc, &network.names, starts, ends, &tables.combinations)?;
    let asked = asked.as_slice();
    let mut pairs = asked_pairs(alloc, &network.names, starts, ends, &tables.combinations)?;
    pairs.sort_unstable_by_key(|pair| (pair.start, pair.end));
    let pairs = pairs.as_slice();
    let edges = &tables.edges;
    let found = guided_routes(alloc, &network, edges, command, asked, pairs, notes)?;
    let found = found.as_slice();
    numbers_rise_with_ids();
    let rows = rows_of_routes(alloc, &network.names, found)?;
    Ok(Rows::Paths(Listed::from_vec(rows)))
}

/// The estimate of a start, or 0 for all vertices where a link breaks that estimate: then the first such link is noted.
///
/// `NoMemory` may come at any call.
pub(crate) fn trusted_estimate<G: Graph>(
    alloc: Global,
    network: &Network<G>,
    edges: &EdgeTable,
    command: &Command,
    start: u32,
    notes: &mut Vec<Note>,
) -> Result<Potential, NoMemory>
    requires places { HasPlaces edges.now }
    requires named { All (IsNamedIn edges.now) network.now.names }
    requires factor { IsFactor command.now.factor }
    requires start { start < length network.now.names }
    ensures noted { OnOk result (GainsNote (Contains (id_links network.now))
        (BreaksEstimate edges.now command.now.heuristic command.now.factor) (id_at network.now.names start) notes.old.items notes.new.items) }
    ensures size { IfOk result (λ estimate. length estimate ≡ G.count network.now.graph) }
    ensures consistent { IfOk result (λ estimate. IsConsistent (LinksOf G.Graph network.now.graph) (value_at estimate)) }
    ensures zero { IfOk result (λ estimate. value_at estimate start ≡ 0) }
{
    numbers_rise_with_ids();
    let id = network.names.name(start);
    let heuristic = command.heuristic;
    let factor = command.factor;
    let estimate = Potential::make(alloc, edges, &network.names, id, heuristic, factor)?;
    let Some(link) = first_inconsistent(&network.graph, &estimate) else {
        return Ok(estimate);
    };
    let link = named_link(&network.names, link);
    notes.push(Note { start: id, link })?;
    let zero = Potential::zero(alloc, network.names.len())?;
    Ok(zero)
}

/// A link between numbers as the link between the ids that they stand for.
fn named_link(names: &Names, link: Link) -> NamedLink
    requires numbered { IsNumbered names.now link }
    ensures { result ≡ named names.now link }
{
    NamedLink {
        from: names.name(link.from),
        edge: link.edge,
        cost: link.cost,
        to: names.name(link.to),
    }
}
