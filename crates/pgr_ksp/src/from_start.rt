ghost use Rattle.std.specs.Prelude.{◌≡◌, ◌<◌, length};
ghost use Rattle.pgr_ksp.specs.FromStart.{cost_or_far as cost_of_label};

use pgr_search::{Estimate, Room};
use pgr_walks::Label;

/// For each vertex the least cost from the start, less that of one vertex, as an estimate.
#[derive(Drop)]
pub struct FromStart<'a> {
    pub costs: &'a Room,
    pub base: u64,
}

impl<'a> FromStart<'a> {
    /// What it costs more to come from the start to each vertex than to `v`, by the labels of all vertices.
    pub fn beyond(costs: &'a Room, v: u32) -> FromStart<'a>
        requires { v < length costs.now }
        ensures { result.costs.now ≡ costs.now }
    {
        let base = match costs.label(v) {
            Some(label) => label.cost,
            None => 0,
        };
        FromStart { costs, base }
    }
}

impl Estimate for FromStart<'_> {
    ghost use Rattle.std.specs.Prelude.{length};
    ghost use Rattle.pgr_ksp.specs.FromStart.{cost_beyond};

    ghost count = { λ estimate. length estimate.costs.now };

    ghost values = { λ estimate. cost_beyond estimate.costs.now estimate.base };

    fn value(&self, v: u32) -> u128 {
        cost_or_far(self.costs.label(v)).saturating_sub(u128::from(self.base))
    }
}

// Greater than every cost.
const FAR: u128 = 18_446_744_073_709_551_616;

/// The cost of a label, and more than every cost where there is none.
fn cost_or_far(label: Option<Label>) -> u128
    ensures { result ≡ cost_of_label label }
{
    match label {
        Some(label) => u128::from(label.cost),
        None => FAR,
    }
}
