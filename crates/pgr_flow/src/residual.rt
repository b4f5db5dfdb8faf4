ghost use Rattle.std.specs.Prelude.{◌≡◌, ◌<◌, ◌≤◌, length, slice_set, slice_index};
ghost use Rattle.pgr_flow.specs.Flow.{AreWithin};
ghost use Rattle.pgr_flow.specs.Residual as residual;

use pgr_walks::Link;

/// How an arc is taken.
#[derive(Clone, Copy, Debug, PartialEq, Eq)]
pub(crate) enum Way {
    /// From its start to its end, which adds flow.
    Along,
    /// From its end to its start, which takes flow back.
    Against,
}

impl Way {
    ghost use Rattle.pgr_flow.specs.Residual.{turned};

    /// The other way.
    pub(crate) fn turned(self) -> Way
        ensures { result ≡ turned self }
    {
        match self {
            Way::Along => Way::Against,
            Way::Against => Way::Along,
        }
    }
}

/// An arc taken one way, with where it then begins and leads.
#[derive(Clone, Copy, Debug)]
pub(crate) struct Step {
    /// Where it begins, taken this way.
    pub(crate) from: u32,
    /// Where it leads, taken this way.
    pub(crate) to: u32,
    /// The place of the arc.
    pub(crate) arc: usize,
    /// How it is taken.
    pub(crate) way: Way,
}

/// What may be sent over the arc at a place, taken this way.
pub(crate) fn room(arcs: &[Link], flows: &[u64], arc: usize, way: Way) -> u64
    requires arc { arc < length arcs.now }
    requires within { AreWithin arcs.now flows.now }
    ensures { result ≡ residual.room arcs.now flows.now arc way }
{
    match way {
        Way::Along => arcs[arc].cost - flows[arc],
        Way::Against => flows[arc],
    }
}

/// Sends an amount over the arc at a place, taken this way, where there is room for it.
pub(crate) fn send(arcs: &[Link], flows: &mut [u64], arc: usize, way: Way, amount: u64)
    requires arc { arc < length arcs.now }
    requires within { AreWithin arcs.now flows.old }
    requires room { amount ≤ residual.room arcs.now flows.old arc way }
    ensures { flows.new ≡ slice_set flows.old arc (residual.flow_after way (slice_index flows.old arc) amount) }
{
    match way {
        Way::Along => {
            let left = arcs[arc].cost - flows[arc];
            prove!(amount <= left);
            flows[arc] += amount;
        }
        Way::Against => flows[arc] -= amount,
    }
}
