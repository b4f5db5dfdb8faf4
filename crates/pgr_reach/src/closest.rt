ghost use Rattle.std.specs.Prelude.{◌≡◌, ℕ, None, filter, map, OnOk, OnErr, IfOk};
ghost use Rattle.std.specs.BTreeMap.{get};
ghost use Rattle.std.specs.Ordering.{nat_cmp};
ghost use Rattle.pgr_reach.specs.Equicost.{AreClosest, listed};
ghost use Rattle.pgr_reach.specs.Closest.{is_closer, after_row, after_rows, after_reaches, is_found};

use crate::reach::{Reach, Reached};
use pgr_outside::NoMemory;
use std::alloc::Global;
use std::collections::BTreeMap;

/// The least cost at which a vertex is reached, and the least root that reaches it so.
#[derive(Clone, Copy)]
pub(crate) struct Closest {
    /// The cost from the root.
    pub cost: u64,
    /// The root.
    pub root: u32,
}

/// Leaves each vertex under its closest root alone, and at an equal cost under the least such root.
///
/// Roots that lose all rows stay, with none. Hops have no part. After `NoMemory`, which may come at any call, nothing
/// has changed.
pub fn equicost(alloc: Global, reaches: &mut Vec<Reach>) -> Result<(), NoMemory>
    ensures kept { OnOk result (AreClosest nat_cmp (map listed reaches.old.items) (map listed reaches.new.items)) }
    ensures unchanged { OnErr result (map listed reaches.new.items ≡ map listed reaches.old.items) }
{
    let closest = closest_of(alloc, reaches.as_slice())?;
    for reach in reaches.iter_mut() {
        keep_closest(reach, &closest);
    }
    Ok(())
}

/// The least cost and root of each vertex that has a row.
fn closest_of(alloc: Global, reaches: &[Reach]) -> Result<BTreeMap<u32, Closest>, NoMemory>
    ensures { IfOk result (λ closest. (v : ℕ) → get nat_cmp closest v ≡ after_reaches v None reaches.now) }
{
    let mut closest = BTreeMap::new(alloc);
    for reach in reaches {
        note_rows(&mut closest, reach.root, reach.rows.as_slice())?;
    }
    Ok(closest)
}

/// Notes the rows of a root.
fn note_rows(
    closest: &mut BTreeMap<u32, Closest>,
    root: u32,
    rows: &[Reached],
) -> Result<(), NoMemory>
    ensures { OnOk result ((v : ℕ) → get nat_cmp closest.new v ≡ after_rows v root (get nat_cmp closest.old v) rows.now) }
{
    for row in rows {
        note(closest, root, row)?;
    }
    Ok(())
}

/// Notes a row of a root, where its vertex has no row yet or only ones that are further.
fn note(closest: &mut BTreeMap<u32, Closest>, root: u32, row: &Reached) -> Result<(), NoMemory>
    ensures { OnOk result ((v : ℕ) → get nat_cmp closest.new v ≡ after_row v root (get nat_cmp closest.old v) row.now) }
{
    let cost = row.label.cost;
    if is_closer(closest.get(&row.node).copied(), cost, root) {
        closest.insert(row.node, Closest { cost, root })?;
    }
    Ok(())
}

/// Whether a cost and root are before those that were found, if any.
fn is_closer(found: Option<Closest>, cost: u64, root: u32) -> bool
    ensures { result ≡ is_closer found cost root }
{
    match found {
        None => true,
        Some(found) => cost < found.cost || (cost == found.cost && root < found.root),
    }
}

/// Keeps the rows of a root that are what was found of their vertices.
fn keep_closest(reach: &mut Reach, closest: &BTreeMap<u32, Closest>)
    ensures { listed reach.new ≡ (reach.old.root, filter (λ row. is_found (get nat_cmp closest.now row.node) row.label.cost reach.old.root) reach.old.rows.items) }
{
    let root = reach.root;
    reach
        .rows
        .retain(|row| is_found_closest(closest, root, row));
}

/// Whether a row of a root is what was found of its vertex.
fn is_found_closest(closest: &BTreeMap<u32, Closest>, root: u32, row: &Reached) -> bool
    ensures { result ≡ is_found (get nat_cmp closest.now row.now.node) row.now.label.cost root }
{
    match closest.get(&row.node) {
        None => false,
        Some(found) => found.cost == row.label.cost && found.root == root,
    }
}

#[cfg(test)]
mod tests {
    use super::*;
    use pgr_walks::Label;
    use std::alloc::AllocError;
    use std::test::Fail;

    fn row(node: u32, cost: u64, hops: u32) -> Reached {
        Reached {
            node,
            label: Label { cost, hops },
            pred: 0,
            edge: 7,
            cost,
        }
    }

    fn reach(alloc: Global, root: u32, rows: &[Reached]) -> Result<Reach, AllocError> {
        let rows = Vec::from_slice(alloc, rows)?;
        Ok(Reach { root, rows })
    }

    #[test]
    fn a_vertex_stays_under_its_closest_root_and_at_a_tie_under_the_least(
        rt: HostRuntime,
    ) -> Result<(), Fail> {
        let alloc = rt.alloc();
        let mut reaches = Vec::new(alloc);
        reaches.push(reach(alloc, 1, &[row(1, 0, 0), row(2, 3, 9), row(3, 5, 1)])?)?;
        reaches.push(reach(alloc, 4, &[row(4, 0, 0), row(2, 3, 1), row(3, 4, 9)])?)?;
        reaches.push(reach(alloc, 9, &[row(4, 0, 1)])?)?;
        equicost(alloc, &mut reaches)?;
        let kept: [(u32, &[Reached]); 3] = [
            (1, &[row(1, 0, 0), row(2, 3, 9)]),
            (4, &[row(4, 0, 0), row(3, 4, 9)]),
            (9, &[]),
        ];
        assert_eq!(rt; reaches.len(), kept.len());
        for (reach, (root, rows)) in reaches.iter().zip(kept) {
            assert_eq!(rt; reach.root, root);
            assert_eq!(rt; reach.rows.as_slice(), rows);
        }
        Ok(())
    }
}
