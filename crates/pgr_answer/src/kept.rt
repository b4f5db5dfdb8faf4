ghost use Rattle.std.specs.Prelude.{◌≡◌, ◌≢◌, ◌<◌, ℕ, ℤ, List, [], ◌∷◌, length, Contains, IfOk, IfSome, IfNone};
ghost use Rattle.pgr_walks.specs.declared.link.LinkOf.{LinkOf};
ghost use Rattle.pgr_walks.specs.Walk.{IsWalk};
ghost use Rattle.pgr_walks.specs.LinksOf.{LinksOf};
ghost use Rattle.pgr_search.specs.FinalLabels.{HoldsLabelsFrom};
ghost use Rattle.pgr_numbers.specs.Names.{id_at};
ghost use Rattle.pgr_answer.specs.Networks.{id_links};

use crate::network::Network;
use pgr_numbers::{labels_of_graph_are_labels_by_ids, least_walk_of_graph_is_least_by_ids};
use pgr_outside::NoMemory;
use pgr_route::{Route, least_route};
use pgr_search::Room;
use pgr_walks::Graph;
use std::alloc::Global;

/// What is kept of the walks between two vertices: as much of the least one as a function shows.
pub(crate) trait Kept: Drop {
    /// It is what the walks over the links from a start to an end have, where the ends of links have these names.
    ghost shows: { List (LinkOf ℤ) → List ℤ → ℤ → ℤ → Self → Type 0 };

    /// What is kept of the walks from a start to an end, by their numbers, or none where no walk leads there.
    ///
    /// The room holds final labels to the end alone, with that of the start, and the two differ. `NoMemory` may come at any
    /// call.
    fn of<G: Graph>(
        alloc: Global,
        network: &Network<G>,
        room: &Room,
        start: u32,
        end: u32,
    ) -> Result<Option<Self>, NoMemory>
        requires room { HoldsLabelsFrom (G.count network.now.graph) (LinksOf G.Graph network.now.graph) (end ∷ []) room.now start }
        requires start { start < length network.now.names }
        requires end { end < length network.now.names }
        requires differ { start ≢ end }
        ensures shows { IfOk result (λ found. IfSome found (shows (id_links network.now) network.now.names
            (id_at network.now.names start) (id_at network.now.names end))) }
        ensures none { IfOk result (λ found. IfNone found ((walk : List (LinkOf ℤ))
            → IsWalk (Contains (id_links network.now)) (id_at network.now.names start) walk (id_at network.now.names end) → ⊥)) };
}

impl Kept for Route {
    ghost use Rattle.pgr_answer.specs.Networks.{IsRouteBetween};

    ghost shows = { IsRouteBetween };

    fn of<G: Graph>(
        alloc: Global,
        network: &Network<G>,
        room: &Room,
        start: u32,
        end: u32,
    ) -> Result<Option<Route>, NoMemory> {
        least_walk_of_graph_is_least_by_ids(&network.graph);
        least_route(alloc, &network.graph, start, room)
    }
}

/// The least cost of a walk.
#[derive(Clone, Copy)]
pub(crate) struct LeastCost {
    pub cost: u64,
}

impl Kept for LeastCost {
    ghost use Rattle.std.specs.Prelude.{Contains};
    ghost use Rattle.pgr_answer.specs.Costs.{IsLeastCost};

    ghost shows = { λ links names start end least. IsLeastCost (Contains links) start end least.cost };

    fn of<G: Graph>(
        alloc: Global,
        network: &Network<G>,
        room: &Room,
        start: u32,
        end: u32,
    ) -> Result<Option<LeastCost>, NoMemory> {
        labels_of_graph_are_labels_by_ids(&network.graph);
        let label = room.label(start);
        Ok(label.map(|label| LeastCost { cost: label.cost }))
    }
}

#[cfg(test)]
mod tests {
    use super::*;
    use crate::edge_network::network_of;
    use pgr_search::{Bound, labels_until};
    use pgr_table::read_edges;
    use pgr_walks::RowGraph;
    use std::test::Fail;

    /// From 1 to 3 two edges cost 5, and one costs 9; no walk leads back.
    const TABLE: &[u8] = b"id,source,target,cost\n1,1,2,3\n2,2,3,2\n3,1,3,9\n";

    /// What is kept of the walks from a start to an end, by their numbers.
    fn between<K: Kept>(
        alloc: Global,
        network: &Network<RowGraph>,
        start: u32,
        end: u32,
    ) -> Result<Option<K>, NoMemory>
        requires start { start < length network.now.names }
        requires end { end < length network.now.names }
        requires differ { start ≢ end }
    {
        let mut room = Room::for_size(alloc, network.names.len())?;
        labels_until(&network.graph, &[end], Bound::Wanted(&[start]), &mut room);
        K::of(alloc, network, &room, start, end)
    }

    #[test]
    fn the_least_walk_is_kept_and_its_cost(rt: HostRuntime) -> Result<(), Fail> {
        let table = read_edges(rt.alloc(), TABLE, false)?;
        let network = network_of(rt.alloc(), &table, true)?;
        let one = network.names.number(1).expect(&rt, "1 is a vertex");
        let three = network.names.number(3).expect(&rt, "3 is a vertex");
        assert!(rt; one != three);
        let route: Option<Route> = between(rt.alloc(), &network, one, three)?;
        let route = route.expect(&rt, "a walk leads from 1 to 3");
        let edges: Vec<i64> = route
            .links()
            .iter()
            .map(|link| link.edge)
            .collect(rt.alloc())?;
        assert_eq!(rt; edges.as_slice(), [1, 2].as_slice());
        let least: Option<LeastCost> = between(rt.alloc(), &network, one, three)?;
        assert_eq!(rt; least.map(|least| least.cost), Some(5));
        let back: Option<Route> = between(rt.alloc(), &network, three, one)?;
        assert!(rt; back.is_none());
        let back: Option<LeastCost> = between(rt.alloc(), &network, three, one)?;
        assert!(rt; back.is_none());
        Ok(())
    }
}
