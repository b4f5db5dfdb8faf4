ghost use Rattle.std.specs.Prelude.{◌≡◌, ◌≢◌, [], length, map, All, IfOk};
ghost use Rattle.pgr_numbers.specs.Names.{named, IsNumbered};
ghost use Rattle.pgr_route.specs.Steps.{steps_of};
ghost use Rattle.pgr_answer.specs.WithPoints.{shown_steps as the_shown_steps, shown_table};
ghost use Rattle.pgr_answer.specs.Found.{walks_found};
ghost use Rattle.pgr_answer.specs.Finding.{HasNames};

use crate::found::Found;
use crate::path_rows::push_path;
use pgr_numbers::Names;
use pgr_outside::NoMemory;
use pgr_points::collapse;
use pgr_route::{Route, Step, steps};
use pgr_rows::PathRow;
use std::alloc::Global;

/// The rows of the routes that are found, one route after the other, numbered from 1; inner points are left out where
/// details aren't wanted.
///
/// Each route has a link, and its vertices are numbers of names. `NoMemory` may come at any call.
pub(crate) fn rows_of_shown_routes(
    alloc: Global,
    names: &Names,
    found: &[Found<Route>],
    details: bool,
) -> Result<Vec<PathRow>, NoMemory>
    requires named { All (HasNames (length names.now)) found.now }
    requires numbered { All (λ f. All (IsNumbered names.now) f.kept) found.now }
    requires links { All (λ f. f.kept ≢ []) found.now }
    ensures { IfOk result (λ rows. rows.items ≡ shown_table details (walks_found names.now found.now)) }
{
    let mut rows = Vec::new(alloc);
    for found in found {
        let steps = shown_steps(alloc, &found.kept, names, details)?;
        let start = names.name(found.start);
        let end = names.name(found.end);
        push_path(&mut rows, start, end, steps.as_slice())?;
    }
    Ok(rows)
}

/// The steps of a route, without its inner points where details aren't wanted.
fn shown_steps(
    alloc: Global,
    route: &Route,
    names: &Names,
    details: bool,
) -> Result<Vec<Step>, NoMemory>
    requires links { route.now ≢ [] }
    requires numbered { All (IsNumbered names.now) route.now }
    ensures { IfOk result (λ steps. steps.items ≡ the_shown_steps details (steps_of (map (named names.now) route.now))) }
{
    let mut steps = steps(alloc, route, names)?;
    if details {
        return Ok(steps);
    }
    // From this call it is known that the costs of the steps have a sum that fits.
    let _cost = route.cost();
    collapse(&mut steps);
    Ok(steps)
}
