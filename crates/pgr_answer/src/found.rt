ghost use Rattle.std.specs.Prelude.{◌≡◌, ◌≢◌, ◌<◌, ◌≤◌, [], ◌∷◌, length, map, take, All, Contains, IfOk, OnOk};
ghost use Rattle.pgr_outside.specs.Lists.{IsStrictlyRising};
ghost use Rattle.pgr_search.specs.FinalLabels.{HoldsLabelsFrom};
ghost use Rattle.pgr_walks.specs.LinksOf.{LinksOf};
ghost use Rattle.pgr_answer.specs.Networks.{id_links};
ghost use Rattle.pgr_answer.specs.Gathering.{pair_cmp};
ghost use Rattle.pgr_answer.specs.Finding.{found_cmp, IsPairAmong, HaveEnd, AreFound, Extends};

use crate::kept::Kept;
use crate::network::Network;
use crate::pair::Pair;
use pgr_outside::NoMemory;
use pgr_search::{Bound, Room, labels_until};
use pgr_walks::Graph;
use std::alloc::Global;

/// What is kept of the walks of a pair, with the numbers of its vertices.
#[derive(Drop)]
pub(crate) struct Found<K> {
    /// The number of the vertex where the walks start.
    pub start: u32,
    /// The number of the vertex where they end.
    pub end: u32,
    /// What is kept of them.
    pub kept: K,
}

/// What is kept of the walks of each pair that has one, by rising start and then by rising end.
///
/// The pairs rise by end and then by start, and each is of two numbers that differ: one search serves all pairs with
/// one end. `NoMemory` may come at any call.
pub(crate) fn found_for<G: Graph, K: Kept>(
    alloc: Global,
    network: &Network<G>,
    pairs: &[Pair],
) -> Result<Vec<Found<K>>, NoMemory>
    requires among { All (IsPairAmong (length network.now.names)) pairs.now }
    requires rise { IsStrictlyRising pair_cmp pairs.now }
    ensures found { IfOk result (λ found. AreFound (Contains (id_links network.now))
        (K.shows (id_links network.now) network.now.names) network.now.names pairs.now found.items) }
    ensures rise { IfOk result (λ found. IsStrictlyRising found_cmp found.items) }
{
    let mut room = Room::for_size(alloc, network.graph.size())?;
    let mut found = Vec::new(alloc);
    let mut rest = pairs;
    while !rest.is_empty() {
        let (group, later) = rest.split_at(count_of_end(rest));
        find_group(alloc, network, group, &mut room, &mut found)?;
        rest = later;
    }
    found.sort_unstable_by_key(|found| (found.start, found.end));
    Ok(found)
}

/// How many pairs, from the first one on, have its end.
pub(crate) fn count_of_end(pairs: &[Pair]) -> usize
    requires { pairs.now ≢ [] }
    ensures some { 0 < result }
    ensures within { result ≤ length pairs.now }
    ensures one_end { HaveEnd (take result pairs.now) }
{
    let end = pairs[0].end;
    for (i, pair) in pairs.iter().enumerate() {
        if pair.end != end {
            return i;
        }
    }
    pairs.len()
}

/// Finds what is kept of the walks of pairs that have one end, by one search that stops once their starts have labels.
fn find_group<G: Graph, K: Kept>(
    alloc: Global,
    network: &Network<G>,
    group: &[Pair],
    room: &mut Room,
    found: &mut Vec<Found<K>>,
) -> Result<(), NoMemory>
    requires some { group.now ≢ [] }
    requires one_end { HaveEnd group.now }
    requires among { All (IsPairAmong (length network.now.names)) group.now }
    requires size { length room.old ≡ G.count network.now.graph }
    ensures found { OnOk result (Extends (Contains (id_links network.now))
        (K.shows (id_links network.now) network.now.names) network.now.names group.now found.old.items found.new.items) }
    ensures size { length room.new ≡ G.count network.now.graph }
{
    let end = group[0].end;
    let starts = starts_of(alloc, group)?;
    let wanted = Bound::Wanted(starts.as_slice());
    labels_until(&network.graph, &[end], wanted, room);
    for pair in group {
        find_pair(alloc, network, room, pair.start, end, found)?;
    }
    Ok(())
}

/// The starts of pairs, in order.
pub(crate) fn starts_of(alloc: Global, pairs: &[Pair]) -> Result<Vec<u32>, NoMemory>
    ensures { IfOk result (λ starts. starts.items ≡ map (λ pair. pair.start) pairs.now) }
{
    let mut starts = Vec::new(alloc);
    for pair in pairs {
        starts.push(pair.start)?;
    }
    Ok(starts)
}

/// Finds what is kept of the walks of a pair, if one leads from its start to its end.
///
/// The room holds final labels to the end alone, with that of the start.
fn find_pair<G: Graph, K: Kept>(
    alloc: Global,
    network: &Network<G>,
    room: &Room,
    start: u32,
    end: u32,
    found: &mut Vec<Found<K>>,
) -> Result<(), NoMemory>
    requires room { HoldsLabelsFrom (G.count network.now.graph) (LinksOf G.Graph network.now.graph) (end ∷ []) room.now start }
    requires start { start < length network.now.names }
    requires end { end < length network.now.names }
    requires differ { start ≢ end }
    ensures { OnOk result (Extends (Contains (id_links network.now))
        (K.shows (id_links network.now) network.now.names) network.now.names (record { end = end; start = start } ∷ []) found.old.items found.new.items) }
{
    if let Some(kept) = K::of(alloc, network, room, start, end)? {
        found.push(Found { start, end, kept })?;
    }
    Ok(())
}
