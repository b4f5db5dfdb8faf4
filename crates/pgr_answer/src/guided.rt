ghost use Rattle.std.specs.Prelude.{◌≡◌, ◌≢◌, ◌<◌, ◌≤◌, [], ◌∷◌, length, take, slice_index_or, All, Contains, IfOk, OnOk};
ghost use Rattle.std.specs.Ordering.{nat_cmp};
ghost use Rattle.pgr_outside.specs.Lists.{IsStrictlyRising};
ghost use Rattle.pgr_walks.specs.LinksOf.{LinksOf};
ghost use Rattle.pgr_words.specs.Factors.{IsFactor};
ghost use Rattle.pgr_table.specs.Edges.{HasPlaces};
ghost use Rattle.pgr_search.specs.Estimates.{IsConsistent};
ghost use Rattle.pgr_astar.specs.Breaking.{value_at};
ghost use Rattle.pgr_astar.specs.Points.{IsNamedIn};
ghost use Rattle.pgr_answer.specs.Notes.{BreaksEstimate};
ghost use Rattle.pgr_answer.specs.Noting.{AreNotesOf};
ghost use Rattle.pgr_answer.specs.Networks.{id_links, IsRouteBetween};
ghost use Rattle.pgr_answer.specs.declared.pair.Pair.{Pair as APair};
ghost use Rattle.pgr_answer.specs.Answers.{walks_over};
ghost use Rattle.pgr_answer.specs.Finding.{IsPairAmong, start_cmp, found_cmp, AreFound, ExtendsInOrder};

use crate::answered::Note;
use crate::astar::trusted_estimate;
use crate::found::Found;
use crate::network::Network;
use crate::pair::Pair;
use pgr_astar::{AstarRoom, Potential, astar_route};
use pgr_numbers::{least_walk_of_graph_is_least_by_ids, numbers_rise_with_ids};
use pgr_outside::NoMemory;
use pgr_route::Route;
use pgr_table::EdgeTable;
use pgr_walks::Graph;
use pgr_words::Command;
use std::alloc::Global;

/// The least routes of pairs that have one, by rising start and then by rising end; the notes, of which there are none, become
/// those of the starts.
///
/// The pairs rise so too, and their starts are among the starts, which rise. The estimate of a start serves all its pairs.
/// `NoMemory` may come at any call.
pub(crate) fn guided_routes<G: Graph>(
    alloc: Global,
    network: &Network<G>,
    edges: &EdgeTable,
    command: &Command,
    starts: &[u32],
    pairs: &[Pair],
    notes: &mut Vec<Note>,
) -> Result<Vec<Found<Route>>, NoMemory>
    requires places { HasPlaces edges.now }
    requires named { All (IsNamedIn edges.now) network.now.names }
    requires factor { IsFactor command.now.factor }
    requires starts { All (λ start. start < length network.now.names) starts.now }
    requires rise { IsStrictlyRising nat_cmp starts.now }
    requires among { All (IsPairAmong (length network.now.names)) pairs.now }
    requires by_start { IsStrictlyRising start_cmp pairs.now }
    requires started { All (λ pair. Contains starts.now pair.start) pairs.now }
    requires none { notes.old.items ≡ [] }
    ensures notes { OnOk result (AreNotesOf (Contains (id_links network.now))
        (BreaksEstimate edges.now command.now.heuristic command.now.factor) network.now.names starts.now notes.new.items) }
    ensures found { IfOk result (λ found. AreFound (Contains (id_links network.now))
        (IsRouteBetween (id_links network.now) network.now.names) network.now.names pairs.now found.items) }
    ensures found_rise { IfOk result (λ found. IsStrictlyRising found_cmp found.items) }
{
    numbers_rise_with_ids();
    let mut room = AstarRoom::for_size(alloc, network.graph.size())?;
    let mut found = Vec::new(alloc);
    let mut rest = pairs;
    for start in starts {
        let estimate = trusted_estimate(alloc, network, edges, command, *start, notes)?;
        let (group, later) = rest.split_at(count_of_start(rest, *start));
        find_from(
            alloc, network, *start, group, &estimate, &mut room, &mut found,
        )?;
        rest = later;
    }
    Ok(found)
}

/// How many pairs, from the first one on, have this start.
fn count_of_start(pairs: &[Pair], start: u32) -> usize
    ensures within { result ≤ length pairs.now }
    ensures here { All (λ pair. pair.start ≡ start) (take result pairs.now) }
    ensures beyond { (d : APair) → result < length pairs.now → (slice_index_or pairs.now result d).start ≢ start }
{
    for (i, pair) in pairs.iter().enumerate() {
        if pair.start != start {
            return i;
        }
    }
    pairs.len()
}

/// Finds the least routes of pairs with one start, by searches that one estimate guides.
fn find_from<G: Graph>(
    alloc: Global,
    network: &Network<G>,
    start: u32,
    group: &[Pair],
    estimate: &Potential,
    room: &mut AstarRoom,
    found: &mut Vec<Found<Route>>,
) -> Result<(), NoMemory>
    requires one_start { All (λ pair. pair.start ≡ start) group.now }
    requires among { All (IsPairAmong (length network.now.names)) group.now }
    requires size { length estimate.now ≡ G.count network.now.graph }
    requires consistent { IsConsistent (LinksOf G.Graph network.now.graph) (value_at estimate.now) }
    requires zero { value_at estimate.now start ≡ 0 }
    requires room { room.old ≡ G.count network.now.graph }
    ensures found { OnOk result (ExtendsInOrder start_cmp (walks_over (Contains (id_links network.now)))
        (IsRouteBetween (id_links network.now) network.now.names) network.now.names group.now found.old.items found.new.items) }
    ensures room { room.new ≡ room.old }
{
    for pair in group {
        find_guided(alloc, network, start, pair.end, estimate, room, found)?;
    }
    Ok(())
}

/// Finds the least route of a pair, if one leads from its start to its end.
fn find_guided<G: Graph>(
    alloc: Global,
    network: &Network<G>,
    start: u32,
    end: u32,
    estimate: &Potential,
    room: &mut AstarRoom,
    found: &mut Vec<Found<Route>>,
) -> Result<(), NoMemory>
    requires start { start < length network.now.names }
    requires end { end < length network.now.names }
    requires differ { start ≢ end }
    requires size { length estimate.now ≡ G.count network.now.graph }
    requires consistent { IsConsistent (LinksOf G.Graph network.now.graph) (value_at estimate.now) }
    requires zero { value_at estimate.now start ≡ 0 }
    requires room { room.old ≡ G.count network.now.graph }
    ensures found { OnOk result (ExtendsInOrder start_cmp (walks_over (Contains (id_links network.now)))
        (IsRouteBetween (id_links network.now) network.now.names) network.now.names (record { end = end; start = start } ∷ []) found.old.items found.new.items) }
    ensures room { room.new ≡ room.old }
{
    least_walk_of_graph_is_least_by_ids(&network.graph);
    if let Some(kept) = astar_route(alloc, &network.graph, start, end, estimate, room)? {
        found.push(Found { start, end, kept })?;
    }
    Ok(())
}
