ghost use Rattle.std.specs.Prelude.{◌≡◌, ◌≢◌, ◌↔◌, ◌<◌, ◌^◌, ℤ, [], ◌∷◌, length, None, All, Contains, IfOk, OnOk};
ghost use Rattle.pgr_outside.specs.Lists.{IsStrictlyRising};
ghost use Rattle.pgr_walks.specs.declared.link.LinkOf.{LinkOf};
ghost use Rattle.pgr_walks.specs.Graph.{Fits};
ghost use Rattle.pgr_walks.specs.LinksOf.{LinksOf};
ghost use Rattle.pgr_graph.specs.Links.{IsLinkOfTable};
ghost use Rattle.pgr_graph.specs.Restricted.{restricted_fault};
ghost use Rattle.pgr_turns.specs.Allowed.{HoldsAllowed};
ghost use Rattle.pgr_turns.specs.Restrictions.{nonempty};
ghost use Rattle.pgr_turns.specs.Seen.{graph_of, restrictions_of, vertex_at};
ghost use Rattle.pgr_answer.specs.AllowedRoutes.{IsAllowedRoute, allowed_over};
ghost use Rattle.pgr_answer.specs.Finding.{found_cmp, IsPairAmong, HaveEnd, AreFoundBy, ExtendsBy};
ghost use Rattle.pgr_answer.specs.Gathering.{pair_cmp};
ghost use Rattle.pgr_answer.specs.Networks.{id_links};
ghost use Rattle.pgr_answer.specs.Trsp.{IsTrsp};

use crate::edge_network::network_of;
use crate::found::{Found, count_of_end, starts_of};
use crate::network::Network;
use crate::pair::Pair;
use crate::pairs::asked_pairs;
use crate::path_rows::rows_of_routes;
use crate::tables::Tables;
use pgr_graph::links_have_one_cost;
use pgr_numbers::{costs_and_hops_are_kept, numbers_rise_with_ids, route_order_is_kept};
use pgr_outside::{Listed, NoMemory};
use pgr_route::Route;
use pgr_rows::Rows;
use pgr_search::Room;
use pgr_turns::{
    TurnGraph, Turns, allowed_route_from, edges_with_two_ends_have_few_states, search_allowed,
};
use pgr_walks::{Graph, RowGraph};
use pgr_words::Command;
use std::alloc::Global;

/// The paths between the asked pairs of a command that can be answered and have a walk that meets no restriction.
///
/// The restrictions don't take the sum of the costs too far. `NoMemory` may come at any call.
pub(crate) fn trsp_rows(alloc: Global, command: &Command, tables: &Tables) -> Result<Rows, NoMemory>
    requires { restricted_fault tables.now.edges command.now.directed tables.now.restrictions ≡ None }
    ensures { IfOk result (IsTrsp command.now tables.now) }
{
    let network = network_of(alloc, &tables.edges, command.directed)?;
    let starts = command.starts.as_slice();
    let ends = command.ends.as_slice();
    let pairs = asked_pairs(alloc, &network.names, starts, ends, &tables.combinations)?;
    let pairs = pairs.as_slice();
    let turns = Turns::make(alloc, &tables.restrictions)?;
    let turned = turned_network(alloc, command.directed, tables, &network, &turns)?;
    let found = allowed_for(alloc, &network, &turned, pairs)?;
    let found = found.as_slice();
    numbers_rise_with_ids();
    let rows = rows_of_routes(alloc, &network.names, found)?;
    Ok(Rows::Paths(Listed::from_vec(rows)))
}

/// The states of the graph of a table's links with the fronts of restrictions that don't take the sum of the costs too far.
fn turned_network<'a, G: Graph>(
    alloc: Global,
    directed: bool,
    tables: &Tables,
    network: &'a Network<G>,
    turns: &'a Turns,
) -> Result<TurnGraph<'a, G, RowGraph>, NoMemory>
    requires sum { restricted_fault tables.now.edges directed tables.now.restrictions ≡ None }
    requires links { (link : LinkOf ℤ) → Contains (id_links network.now) link ↔ IsLinkOfTable tables.now.edges directed link }
    requires few { length network.now.names < 2 ^ 31 }
    requires turns { turns.now ≡ nonempty tables.now.restrictions }
    ensures graph { IfOk result (λ turned. graph_of turned ≡ network.now.graph) }
    ensures restrictions { IfOk result (λ turned. restrictions_of turned ≡ turns.now) }
    ensures fits { IfOk result (λ turned. Fits (LinksOf ⟦<TurnGraph<'a, G, RowGraph> as Graph>⟧ turned)) }
{
    // From these calls it is known that the tables are accepted.
    let _rows = tables.edges.len();
    let _lists = tables.restrictions.len();
    numbers_rise_with_ids();
    links_have_one_cost(&tables.edges);
    costs_and_hops_are_kept();
    edges_with_two_ends_have_few_states(&network.graph, turns);
    TurnGraph::make(alloc, &network.graph, turns)
}

/// The least allowed route of each pair that has one, by rising start and then by rising end.
///
/// The pairs rise by end and then by start, and each is of two numbers that differ: one search of the states serves all
/// pairs with one end. `NoMemory` may come at any call.
fn allowed_for<'a, G: Graph, M: Graph>(
    alloc: Global,
    network: &Network<G>,
    turned: &TurnGraph<'a, G, M>,
    pairs: &[Pair],
) -> Result<Vec<Found<Route>>, NoMemory>
    requires graph { graph_of turned.now ≡ network.now.graph }
    requires fits { Fits (LinksOf ⟦<TurnGraph<'a, G, M> as Graph>⟧ turned.now) }
    requires among { All (IsPairAmong (length network.now.names)) pairs.now }
    requires rise { IsStrictlyRising pair_cmp pairs.now }
    ensures found { IfOk result (λ found. AreFoundBy (allowed_over (id_links network.now) (restrictions_of turned.now))
        (IsAllowedRoute (id_links network.now) (restrictions_of turned.now) network.now.names) network.now.names pairs.now found.items) }
    ensures rise { IfOk result (λ found. IsStrictlyRising found_cmp found.items) }
{
    let size = turned.size();
    let mut room = Room::for_size(alloc, size)?;
    let mut found = Vec::new(alloc);
    let mut rest = pairs;
    while !rest.is_empty() {
        let (group, later) = rest.split_at(count_of_end(rest));
        allow_group(alloc, network, turned, group, &mut room, &mut found)?;
        rest = later;
    }
    found.sort_unstable_by_key(|found| (found.start, found.end));
    Ok(found)
}

/// Finds the least allowed routes of pairs that have one end, by one search that stops once their starts have labels.
fn allow_group<'a, G: Graph, M: Graph>(
    alloc: Global,
    network: &Network<G>,
    turned: &TurnGraph<'a, G, M>,
    group: &[Pair],
    room: &mut Room,
    found: &mut Vec<Found<Route>>,
) -> Result<(), NoMemory>
    requires graph { graph_of turned.now ≡ network.now.graph }
    requires fits { Fits (LinksOf ⟦<TurnGraph<'a, G, M> as Graph>⟧ turned.now) }
    requires some { group.now ≢ [] }
    requires one_end { HaveEnd group.now }
    requires among { All (IsPairAmong (length network.now.names)) group.now }
    requires size { length room.old ≡ ⟦<TurnGraph<'a, G, M> as Graph>⟧.count turned.now }
    ensures found { OnOk result (ExtendsBy (allowed_over (id_links network.now) (restrictions_of turned.now))
        (IsAllowedRoute (id_links network.now) (restrictions_of turned.now) network.now.names) network.now.names group.now found.old.items found.new.items) }
    ensures size { length room.new ≡ ⟦<TurnGraph<'a, G, M> as Graph>⟧.count turned.now }
{
    let end = group[0].end;
    let starts = starts_of(alloc, group)?;
    search_allowed(alloc, turned, end, starts.as_slice(), room)?;
    for pair in group {
        allow_pair(alloc, network, turned, room, pair.start, end, found)?;
    }
    Ok(())
}

/// Finds the least allowed route of a pair, if it has one.
///
/// The room holds final labels to the states of the end, with that of the start.
fn allow_pair<'a, G: Graph, M: Graph>(
    alloc: Global,
    network: &Network<G>,
    turned: &TurnGraph<'a, G, M>,
    room: &Room,
    start: u32,
    end: u32,
    found: &mut Vec<Found<Route>>,
) -> Result<(), NoMemory>
    requires graph { graph_of turned.now ≡ network.now.graph }
    requires fits { Fits (LinksOf ⟦<TurnGraph<'a, G, M> as Graph>⟧ turned.now) }
    requires room { HoldsAllowed (⟦<TurnGraph<'a, G, M> as Graph>⟧.count turned.now)
        (LinksOf ⟦<TurnGraph<'a, G, M> as Graph>⟧ turned.now) (vertex_at G.Graph turned.now) end room.now start }
    requires start { start < length network.now.names }
    requires end { end < length network.now.names }
    requires differ { start ≢ end }
    ensures { OnOk result (ExtendsBy (allowed_over (id_links network.now) (restrictions_of turned.now))
        (IsAllowedRoute (id_links network.now) (restrictions_of turned.now) network.now.names) network.now.names
        (record { end = end; start = start } ∷ []) found.old.items found.new.items) }
{
    numbers_rise_with_ids();
    route_order_is_kept();
    if let Some(kept) = allowed_route_from(alloc, turned, start, end, room)? {
        found.push(Found { start, end, kept })?;
    }
    Ok(())
}
