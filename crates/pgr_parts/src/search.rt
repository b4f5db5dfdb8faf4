ghost use Rattle.std.specs.Prelude.{◌≡◌, ℕ, ◌<◌, ◌≤◌, ◌^◌, ◌++◌, [], All, Contains, IfOk, OnOk, IfSome, IfNone, length, slice_index, slice_index_or};
ghost use Rattle.std.specs.Bool.{OnTrue, OnFalse};
ghost use Rattle.std.specs.List.Sorted.{IsNonDecreasingBy};
ghost use Rattle.pgr_parts.specs.Trails.{AreWithin};
ghost use Rattle.pgr_parts.specs.Standings.{EndsWithLeadFrom, EndsWithLeadBefore, leads_from_place, AreNamed};

use crate::lead::Lead;
use crate::standing::Standing;
use pgr_outside::NoMemory;
use pgr_walks::Adjacency;
use std::alloc::Global;

/// A search for strong classes by a path of groups.
///
/// The vertices of a group reach each other, and each group leads to the next. What the last group leads to
/// is followed: a vertex not found yet becomes a new last group, one on the path makes a cycle, so that the
/// groups from its own on become one, and one with a name is of another class. A group with no lead left is
/// a class.
#[derive(Drop)]
pub(crate) struct Search {
    /// How each vertex stands.
    pub(crate) standing: Vec<Standing>,
    /// The vertices found and not named, as they were found.
    pub(crate) path: Vec<u32>,
    /// The places of the path where its groups begin.
    pub(crate) firsts: Vec<u32>,
    /// The leads not followed yet; the next is the last.
    pub(crate) leads: Vec<Lead>,
}

impl Search {
    ghost use Rattle.pgr_parts.specs.Grouping.{IsFound, state_of, start, work, IsSearching, StaysFound, IsEntered, IsMerged, IsFollowed, IsTaken, HasNoLead, IsClosed};

    /// A search that has found no vertex.
    pub(crate) fn for_size(alloc: Global, size: u32) -> Result<Search, NoMemory>
        ensures { IfOk result (λ search. state_of search ≡ start size) }
    {
        let standing = vec![in alloc; Standing::Unseen; size as usize].map_err(|_| NoMemory)?;
        Ok(Search {
            standing,
            path: Vec::new(alloc),
            firsts: Vec::new(alloc),
            leads: Vec::new(alloc),
        })
    }

    /// Finds and names all that the lists lead to from a vertex.
    pub(crate) fn explore(&mut self, lists: &Adjacency, root: u32) -> Result<(), NoMemory>
        requires vertex { root < length lists.now }
        requires within { AreWithin lists.now }
        requires small { length lists.now < 2 ^ 32 }
        requires searching { IsSearching lists.now (state_of self.old) }
        requires idle { self.old.path.items ≡ [] }
        ensures searching { OnOk result (IsSearching lists.now (state_of self.new)) }
        ensures idle { OnOk result (self.new.path.items ≡ []) }
        ensures found { OnOk result (StaysFound (state_of self.old) (state_of self.new)) }
        ensures root { OnOk result (IsFound (state_of self.new) root) }
    {
        self.follow(lists, root)?;
        while !self.firsts.is_empty() {
            self.turn(lists)?;
        }
        Ok(())
    }

    /// Follows a lead of the last group, or makes it a class if it has none.
    fn turn(&mut self, lists: &Adjacency) -> Result<(), NoMemory>
        requires within { AreWithin lists.now }
        requires small { length lists.now < 2 ^ 32 }
        requires searching { IsSearching lists.now (state_of self.old) }
        requires group { 0 < length self.old.firsts.items }
        ensures searching { OnOk result (IsSearching lists.now (state_of self.new)) }
        ensures found { OnOk result (StaysFound (state_of self.old) (state_of self.new)) }
        ensures less { OnOk result (work lists.now (state_of self.new) < work lists.now (state_of self.old)) }
    {
        match self.take_lead() {
            Some(w) => self.follow(lists, w),
            None => {
                self.close();
                Ok(())
            }
        }
    }

    /// Takes the last lead, if it is one of the last group, and returns where it leads.
    fn take_lead(&mut self) -> Option<u32>
        requires { 0 < length self.old.firsts.items }
        ensures taken { IfSome result (λ w. IsTaken w (state_of self.old) (state_of self.new)) }
        ensures none { IfNone result (HasNoLead (state_of self.old)) }
        ensures stays { IfNone result (state_of self.new ≡ state_of self.old) }
    {
        if ends_with_lead_from(&self.leads, self.firsts[self.firsts.len() - 1]) {
            self.leads.pop().map(|lead| lead.to)
        } else {
            None
        }
    }

    /// Looks at a vertex that the last group leads to, or at a root.
    fn follow(&mut self, lists: &Adjacency, w: u32) -> Result<(), NoMemory>
        requires vertex { w < length lists.now }
        requires size { length self.old.standing.items ≡ length lists.now }
        requires room { length self.old.path.items < 2 ^ 32 }
        requires rising { IsNonDecreasingBy (λ first. first) self.old.firsts.items }
        ensures { OnOk result
            (IsFollowed (slice_index_or lists.now w []) w (state_of self.old) (state_of self.new)) }
    {
        match self.standing[w as usize] {
            Standing::Unseen => self.enter(lists, w),
            Standing::Waiting(place) => {
                self.merge(place);
                Ok(())
            }
            Standing::Named(_) => Ok(()),
        }
    }

    /// Puts a vertex behind the path, as a group of its own, and its list behind the leads.
    fn enter(&mut self, lists: &Adjacency, v: u32) -> Result<(), NoMemory>
        requires vertex { v < length lists.now }
        requires size { length self.old.standing.items ≡ length lists.now }
        requires room { length self.old.path.items < 2 ^ 32 }
        ensures { OnOk result
            (IsEntered (slice_index_or lists.now v []) v (state_of self.old) (state_of self.new)) }
    {
        let place = self.path.len() as u32;
        self.standing[v as usize] = Standing::Waiting(place);
        self.path.push(v).map_err(|_| NoMemory)?;
        self.firsts.push(place).map_err(|_| NoMemory)?;
        push_leads(&mut self.leads, place, lists.of(v))
    }

    /// Makes one group of that of a place and all later ones.
    fn merge(&mut self, place: u32)
        requires { IsNonDecreasingBy (λ first. first) self.old.firsts.items }
        ensures { IsMerged place (state_of self.old) (state_of self.new) }
    {
        let count = groups_up_to(&self.firsts, place);
        self.firsts.truncate(count);
    }

    /// Names the vertices of the last group by the least of them, and takes them off the path.
    fn close(&mut self)
        requires group { 0 < length self.old.firsts.items }
        requires firsts { All (λ first. first < length self.old.path.items) self.old.firsts.items }
        requires path { All (λ v. v < length self.old.standing.items) self.old.path.items }
        ensures { IsClosed (state_of self.old) (state_of self.new) }
    {
        if let Some(first) = self.firsts.pop() {
            let (_, members) = self.path.as_slice().split_at(first as usize);
            name_all(members, least_of(members), self.standing.as_mut_slice());
            self.path.truncate(first as usize);
        }
    }
}

/// Whether the last lead is of a place from `first` on.
fn ends_with_lead_from(leads: &[Lead], first: u32) -> bool
    ensures yes { OnTrue result (EndsWithLeadFrom leads.now first) }
    ensures no { OnFalse result (EndsWithLeadBefore leads.now first) }
{
    match leads.last() {
        Some(lead) => lead.from >= first,
        None => false,
    }
}

/// Puts leads from a place to each vertex of a list behind the leads.
fn push_leads(leads: &mut Vec<Lead>, from: u32, list: &[u32]) -> Result<(), NoMemory>
    ensures { OnOk result (leads.new.items ≡ leads.old.items ++ leads_from_place from list.now) }
{
    for to in list {
        leads.push(Lead { from, to: *to }).map_err(|_| NoMemory)?;
    }
    Ok(())
}

/// How many groups begin up to a place.
fn groups_up_to(firsts: &[u32], place: u32) -> usize
    requires { IsNonDecreasingBy (λ first. first) firsts.now }
    ensures low { (i : ℕ) → i < result → i < length firsts.now → slice_index firsts.now i ≤ place }
    ensures high { (i : ℕ) → result ≤ i → i < length firsts.now → place < slice_index firsts.now i }
{
    firsts.partition_point(|first| *first <= place)
}

/// The least of some vertices.
fn least_of(members: &[u32]) -> u32
    requires { 0 < length members.now }
    ensures among { Contains members.now result }
    ensures least { (u : ℕ) → Contains members.now u → result ≤ u }
{
    let mut least = members[0];
    for v in members {
        if *v < least {
            least = *v;
        }
    }
    least
}

/// Gives each of the members the name.
fn name_all(members: &[u32], name: u32, standing: &mut [Standing])
    requires { All (λ v. v < length standing.old) members.now }
    ensures { AreNamed members.now name standing.old standing.new }
{
    for v in members {
        standing[*v as usize] = Standing::Named(name);
    }
}
