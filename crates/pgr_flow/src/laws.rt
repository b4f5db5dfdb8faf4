ghost use Rattle.std.specs.Prelude.{ℕ, ◌+◌, ◌≤◌, Bool, List, nat_eq};
ghost use Rattle.pgr_flow.specs.Flow.{IsFlow, leaving, entering};
ghost use Rattle.pgr_flow.specs.Cut.{IsCut, capacity_of};

use crate::net::Net;

/// No flow over a network has a value above the capacity of a cut, whatever the sources and the sinks are.
///
/// A law; the call does nothing. Source: Ford and Fulkerson 1956.
pub fn no_flow_exceeds_a_cut(net: &Net)
    ensures { (source sink inside : ℕ → Bool) (flows : List ℕ)
        → IsFlow nat_eq net.now.arcs source sink flows
        → IsCut source sink inside
        → leaving source net.now.arcs flows ≤ capacity_of inside net.now.arcs + entering source net.now.arcs flows }
{
    let _arcs = net.arcs();
}
