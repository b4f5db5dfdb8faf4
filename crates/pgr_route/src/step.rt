ghost use Rattle.std.specs.Prelude.{◌≡◌, ◌≢◌, ℕ, ◌+◌, ◌≤◌, [], All, IfOk, map};
ghost use Rattle.pgr_numbers.specs.Names.{named, IsNumbered};
ghost use Rattle.pgr_route.specs.Steps.{steps_of, link_step as step_of_link, last_step as step_at_end};

use crate::growth::push;
use crate::route::Route;
use pgr_numbers::Names;
use pgr_outside::NoMemory;
use pgr_walks::Link;
use std::alloc::Global;

/// A step of a walk, as a table shows it.
#[derive(Clone, Copy, Debug, PartialEq, Eq)]
pub struct Step {
    /// The id of the vertex where the step begins.
    pub node: i64,
    /// The edge of the link that is taken, or -1 at the end.
    pub edge: i64,
    /// The cost of that link, or 0 at the end.
    pub cost: u64,
    /// The cost of the walk up to the vertex.
    pub agg: u64,
}

// The edge of a last step.
const LAST_EDGE: i64 = -1;

/// The steps of a route as a table shows it: one for each link, and a last one for the vertex where it ends.
///
/// The route isn't empty, and its vertices are numbers of names. A link's step has the id of the vertex
/// where it begins, its edge, its cost, and the cost of the links before it. The last step has the id of the
/// vertex where the route ends, edge -1, cost 0, and the cost of the route.
/// `NoMemory` may come at any call.
pub fn steps(alloc: Global, route: &Route, names: &Names) -> Result<Vec<Step>, NoMemory>
    requires links { route.now ≢ [] }
    requires numbered { All (IsNumbered names.now) route.now }
    ensures { IfOk result (λ steps. steps.items ≡ steps_of (map (named names.now) route.now)) }
{
    let links = route.links();
    let mut steps = Vec::new(alloc);
    let mut reached = 0;
    for link in links {
        push(&mut steps, link_step(*link, reached, names))?;
        reached += link.cost;
    }
    let last = links[links.len() - 1];
    push(&mut steps, last_step(last, reached, names))?;
    Ok(steps)
}

// The step of a link whose first vertex is reached at this cost.
fn link_step(link: Link, reached: u64, names: &Names) -> Step
    requires { IsNumbered names.now link }
    ensures { result ≡ step_of_link reached (named names.now link) }
{
    Step {
        node: names.name(link.from),
        edge: link.edge,
        cost: link.cost,
        agg: reached,
    }
}

// The step of the vertex where a route's last link ends, which is reached at this cost.
fn last_step(link: Link, reached: u64, names: &Names) -> Step
    requires { IsNumbered names.now link }
    ensures { result ≡ step_at_end reached (named names.now link).to }
{
    Step {
        node: names.name(link.to),
        edge: LAST_EDGE,
        cost: 0,
        agg: reached,
    }
}
