ghost use Rattle.std.specs.Prelude.{◌≡◌, ◌<◌, All, map, length, IfOk};
ghost use Rattle.pgr_answer.specs.CostTables.{cost_row};
ghost use Rattle.pgr_answer.specs.Found.{costs_found};
ghost use Rattle.pgr_answer.specs.Finding.{HasNames};

use crate::found::Found;
use crate::kept::LeastCost;
use pgr_numbers::Names;
use pgr_outside::NoMemory;
use pgr_rows::CostRow;
use std::alloc::Global;

/// A row for each cost that is found, with the ids of its pair.
///
/// `NoMemory` may come at any call.
pub(crate) fn rows_of_costs(
    alloc: Global,
    names: &Names,
    found: &[Found<LeastCost>],
) -> Result<Vec<CostRow>, NoMemory>
    requires { All (HasNames (length names.now)) found.now }
    ensures { IfOk result (λ rows. rows.items ≡ map cost_row (costs_found names.now (λ least. least.cost) found.now)) }
{
    let mut rows = Vec::new(alloc);
    for found in found {
        rows.push(CostRow {
            start_vid: names.name(found.start),
            end_vid: names.name(found.end),
            agg_cost: found.kept.cost,
        })?;
    }
    Ok(rows)
}
