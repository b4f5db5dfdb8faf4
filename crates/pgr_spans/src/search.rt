ghost use Rattle.std.specs.Prelude.{◌≡◌, ℕ, ◌+◌, ◌<◌, ◌^◌, List, ◌++◌, ◌∷◌, [], Some, None, All, IfOk, length, map, slice_index_or, slice_set};
ghost use Rattle.std.specs.Result.{OnOk};
ghost use Rattle.std.specs.List.Sorted.{IsNonDecreasingBy};
ghost use Rattle.pgr_spans.specs.Network.{AreBothWays};
ghost use Rattle.pgr_spans.specs.declared.search.Lead.{Lead};
ghost use Rattle.pgr_spans.specs.declared.arrow.Arrow.{Arrow};
ghost use Rattle.pgr_spans.specs.Exploring.{IsExploring, IsDepthFirst, HasPlacesBelow, arrows_from, lead_along, left_to_do};

use crate::arrow::Arrow;
use pgr_outside::NoMemory;
use std::alloc::Global;

/// A vertex that is to be numbered next, as a child of the number that it is reached from, or as a root.
#[derive(Clone, Copy, Debug, PartialEq, Eq)]
pub(crate) struct Lead {
    /// The number of the vertex that it is reached from, or none for a root.
    pub from: Option<u32>,
    /// The place of the vertex.
    pub to: u32,
}

/// A search into the depth: the numbers of vertices, the parents of numbers, and a stack of leads.
#[derive(Drop)]
pub(crate) struct Search {
    /// The number of each vertex that the search has come to.
    pub numbers: Vec<Option<u32>>,
    /// For each number that of its parent, or none for a root.
    pub parents: Vec<Option<u32>>,
    /// What is still to be followed, the last first.
    pub leads: Vec<Lead>,
}

/// Numbers the vertices below the size as a search into the depth comes to them, and gives each its parent.
///
/// Of two vertices with an arrow between them one becomes an ancestor of the other. A vertex gets its number
/// when its lead is taken, not when the lead is found: else the ancestors would be others.
/// `NoMemory` may come at any call.
/// Source: Tarjan 1972, with a stack of arrows in place of recursion.
pub(crate) fn depth_first(alloc: Global, size: u32, arrows: &[Arrow]) -> Result<Search, NoMemory>
    requires sorted { IsNonDecreasingBy (λ arrow. arrow.from) arrows.now }
    requires below { All (HasPlacesBelow size) arrows.now }
    requires back { AreBothWays arrows.now }
    ensures { IfOk result (λ search. IsDepthFirst size arrows.now search.numbers.items search.parents.items) }
{
    let mut search = Search::of_roots(alloc, size)?;
    while let Some(lead) = search.leads.pop() {
        search.follow(size, arrows, lead)?;
    }
    Ok(search)
}

impl Search {
    /// No vertex has a number yet, and each is to be a root.
    fn of_roots(alloc: Global, size: u32) -> Result<Search, NoMemory>
        ensures { IfOk result (λ search. (arrows : List Arrow) → IsExploring size arrows search.numbers.items search.parents.items search.leads.items) }
    {
        let numbers = vec![in alloc; None; size as usize].map_err(|_| NoMemory)?;
        let leads = roots(alloc, size)?;
        Ok(Search {
            numbers,
            parents: Vec::new(alloc),
            leads,
        })
    }

    /// Follows a lead that was taken off the stack: a vertex that has a number stays as it is.
    fn follow(&mut self, size: u32, arrows: &[Arrow], lead: Lead) -> Result<(), NoMemory>
        requires sorted { IsNonDecreasingBy (λ arrow. arrow.from) arrows.now }
        requires below { All (HasPlacesBelow size) arrows.now }
        requires back { AreBothWays arrows.now }
        requires exploring { IsExploring size arrows.now self.old.numbers.items self.old.parents.items (self.old.leads.items ++ lead ∷ []) }
        ensures exploring { OnOk result (IsExploring size arrows.now self.new.numbers.items self.new.parents.items self.new.leads.items) }
        ensures nearer { OnOk result (left_to_do arrows.now self.new.numbers.items self.new.leads.items
            < left_to_do arrows.now self.old.numbers.items (self.old.leads.items ++ lead ∷ [])) }
    {
        if self.numbers[lead.to as usize].is_none() {
            self.enter(arrows, lead)?;
        }
        Ok(())
    }

    /// Gives a vertex the next number, and its arrows become the next leads.
    fn enter(&mut self, arrows: &[Arrow], lead: Lead) -> Result<(), NoMemory>
        requires sorted { IsNonDecreasingBy (λ arrow. arrow.from) arrows.now }
        requires place { lead.to < length self.old.numbers.items }
        requires few { length self.old.parents.items < 2 ^ 32 }
        ensures numbers { OnOk result (self.new.numbers.items ≡ slice_set self.old.numbers.items lead.to (Some (length self.old.parents.items))) }
        ensures parents { OnOk result (self.new.parents.items ≡ self.old.parents.items ++ lead.from ∷ []) }
        ensures leads { OnOk result (self.new.leads.items ≡ self.old.leads.items
            ++ map (lead_along (length self.old.parents.items)) (arrows_from arrows.now lead.to)) }
    {
        let number = self.parents.len() as u32;
        self.numbers[lead.to as usize] = Some(number);
        self.parents.push(lead.from).map_err(|_| NoMemory)?;
        push_leads(&mut self.leads, number, run_from(arrows, lead.to))
    }
}

/// A lead to each vertex as a root.
fn roots(alloc: Global, size: u32) -> Result<Vec<Lead>, NoMemory>
    ensures { IfOk result (λ leads. (length leads.items ≡ size)
        × ((v : ℕ) (d : Lead) → v < size → slice_index_or leads.items v d ≡ record { from = None; to = v })) }
{
    let mut leads = Vec::with_capacity(alloc, size as usize).map_err(|_| NoMemory)?;
    for v in 0..size {
        leads
            .push(Lead { from: None, to: v })
            .map_err(|_| NoMemory)?;
    }
    Ok(leads)
}

/// Adds the lead along each arrow from a vertex with a number.
fn push_leads(leads: &mut Vec<Lead>, number: u32, arrows: &[Arrow]) -> Result<(), NoMemory>
    ensures { OnOk result (leads.new.items ≡ leads.old.items ++ map (lead_along number) arrows.now) }
{
    for arrow in arrows {
        leads
            .push(Lead {
                from: Some(number),
                to: arrow.to,
            })
            .map_err(|_| NoMemory)?;
    }
    Ok(())
}

/// Of arrows by where they lead from, those that lead from a vertex.
fn run_from(arrows: &[Arrow], v: u32) -> &[Arrow]
    requires { IsNonDecreasingBy (λ arrow. arrow.from) arrows.now }
    ensures { result.now ≡ arrows_from arrows.now v }
{
    let (_, rest) = arrows.split_at(arrows.partition_point(|arrow| arrow.from < v));
    let (run, _) = rest.split_at(rest.partition_point(|arrow| arrow.from <= v));
    run
}
