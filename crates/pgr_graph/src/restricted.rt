ghost use Rattle.std.specs.Prelude.{◌≡◌, ◌<◌, ◌≤◌, ◌*◌, ◌^◌, length};
ghost use Rattle.std.specs.Result.{result_err};
ghost use Rattle.pgr_table.specs.Rows.{counted, most_rows, most_elements};
ghost use Rattle.pgr_graph.specs.Restricted.{each_once, links_cost, table_cost, is_over, restricted_fault};

use pgr_table::{EdgeRow, EdgeTable, RestrictionTable, TableFault};

/// Whether restrictions leave every allowed walk over the links of a table a cost of at most 2^63 - 1.
///
/// Let W be the sum of the costs of all links of the table, each once, and E the number of elements of all lists up to and
/// with one. `CostSum` names the first record whose list isn't empty and with which W * (1 + E) is above 2^63 - 1, the first
/// list being record 2. It comes exactly where there is such a record, and is the only fault. No memory is taken.
pub fn restricted_sum(
    edges: &EdgeTable,
    directed: bool,
    restrictions: &RestrictionTable,
) -> Result<(), TableFault>
    ensures { result_err result ≡ restricted_fault edges.now directed restrictions.now }
{
    let total = cost_of_links(edges, directed);
    let count = restrictions.len();
    let mut elements = 0;
    for i in 0..count {
        let list = restrictions.row(i);
        elements += list.len();
        if takes_too_far(total, elements, list) {
            return Err(TableFault::CostSum(i as u64 + 2));
        }
    }
    Ok(())
}

/// The sum of the costs of the links of a table, each once.
fn cost_of_links(edges: &EdgeTable, directed: bool) -> u128
    ensures total { result ≡ table_cost directed edges.now }
    ensures small { result ≤ most_rows * 2 ^ 65 }
{
    let count = edges.len();
    let mut total = 0;
    for i in 0..count {
        total += cost_of_row(edges.row(i), directed);
    }
    total
}

/// The sum of the costs of the links that a row gives, each once.
fn cost_of_row(row: EdgeRow, directed: bool) -> u128
    ensures total { result ≡ links_cost directed row }
    ensures small { result ≤ 2 ^ 65 }
{
    let once = cost_once(row.cost, row.reverse_cost);
    if row.source == row.target {
        return once;
    }
    if directed {
        return count(row.cost) + count(row.reverse_cost);
    }
    2 * once
}

/// The sum of two costs where equal ones count once.
fn cost_once(cost: i64, reverse_cost: i64) -> u128
    ensures total { result ≡ each_once cost reverse_cost }
    ensures small { result ≤ 2 ^ 64 }
{
    if cost == reverse_cost {
        return count(cost);
    }
    count(cost) + count(reverse_cost)
}

/// What a cost counts: itself, and nothing where it is negative.
fn count(cost: i64) -> u128
    ensures value { result ≡ counted cost }
    ensures small { result < 2 ^ 63 }
{
    u128::from(u64::try_from(cost).unwrap_or(0))
}

/// Whether a list with which there are this many elements takes the sum above 2^63 - 1.
fn takes_too_far(total: u128, elements: usize, list: &[i64]) -> bool
    requires total { total ≤ most_rows * 2 ^ 65 }
    requires elements { elements ≤ most_elements }
    ensures { result ≡ is_over total elements list.now }
{
    !list.is_empty() && total * (1 + elements as u128) > u128::from(i64::MAX.unsigned_abs())
}

#[cfg(test)]
mod tests {
    use super::*;
    use pgr_table::{read_edges, read_restrictions};
    use std::test::Fail;

    #[test]
    fn the_first_list_that_takes_the_sum_too_far_is_named(rt: HostRuntime) -> Result<(), Fail> {
        let edges = b"id,source,target,cost,reverse_cost\n1,1,2,4611686018427387903,-1\n";
        let one_way = read_edges(rt.alloc(), edges, false)?;
        let one = read_restrictions(rt.alloc(), b"path\n{}\n{7}\n{}\n")?;
        let two = read_restrictions(rt.alloc(), b"path\n{}\n{7}\n{}\n{8}\n{9}\n")?;
        assert_eq!(rt; restricted_sum(&one_way, true, &one), Ok(()));
        assert_eq!(rt;
            restricted_sum(&one_way, true, &two),
            Err(TableFault::CostSum(5))
        );
        assert_eq!(rt;
            restricted_sum(&one_way, false, &one),
            Err(TableFault::CostSum(3))
        );
        Ok(())
    }

    #[test]
    fn equal_costs_of_a_row_count_once_both_ways(rt: HostRuntime) -> Result<(), Fail> {
        let edges =
            b"id,source,target,cost,reverse_cost\n1,1,2,2305843009213693951,2305843009213693951\n";
        let table = read_edges(rt.alloc(), edges, false)?;
        let list = read_restrictions(rt.alloc(), b"path\n{1}\n")?;
        assert_eq!(rt; restricted_sum(&table, false, &list), Ok(()));
        assert_eq!(rt; restricted_sum(&table, true, &list), Ok(()));
        Ok(())
    }
}
