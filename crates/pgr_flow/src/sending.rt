ghost use Rattle.std.specs.Prelude.{◌≡◌, ◌<◌, ◌≤◌, ◌-◌, ℕ, length};
ghost use Rattle.pgr_flow.specs.Flow.{AreWithin};
ghost use Rattle.pgr_flow.specs.Residual as residual;
ghost use Rattle.pgr_flow.specs.Descent.{step_at};
ghost use Rattle.pgr_flow.specs.Sending.{IsResidualWalk, IsMoved};

use crate::residual::{Step, room, send};
use pgr_walks::Link;

/// Sends as much as possible over a walk of residual links, and returns how much.
pub(crate) fn send_over_walk(arcs: &[Link], flows: &mut [u64], walk: &[Step]) -> u64
    requires within { AreWithin arcs.now flows.old }
    requires walk { IsResidualWalk arcs.now flows.old walk.now }
    ensures some { 0 < result }
    ensures within { AreWithin arcs.now flows.new }
    ensures moved { IsMoved arcs.now (step_at walk.now 0).from (step_at walk.now (length walk.now - 1)).to result flows.old flows.new }
{
    let amount = least_room(arcs, flows, walk);
    for step in walk {
        send(arcs, flows, step.arc, step.way, amount);
    }
    amount
}

/// The least of what may be sent over each step of a walk.
fn least_room(arcs: &[Link], flows: &[u64], walk: &[Step]) -> u64
    requires within { AreWithin arcs.now flows.now }
    requires walk { IsResidualWalk arcs.now flows.now walk.now }
    ensures some { 0 < result }
    ensures least { (i : ℕ) → i < length walk.now → result ≤ residual.room arcs.now flows.now (step_at walk.now i).arc (step_at walk.now i).way }
{
    let mut least = u64::MAX;
    for step in walk {
        least = least.min(room(arcs, flows, step.arc, step.way));
    }
    least
}
