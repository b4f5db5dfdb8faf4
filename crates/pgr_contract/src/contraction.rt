ghost use Rattle.std.specs.Prelude.{◌≡◌, ◌≤◌, ◌<◌, ◌^◌, ◌↔◌, ℤ, List, false, IfOk, Contains, length};
ghost use Rattle.pgr_walks.specs.Graph.{Fits, greatest};
ghost use Rattle.pgr_walks.specs.Walk.{IsVertex};
ghost use Rattle.pgr_numbers.specs.Names.{AreEnds};
ghost use Rattle.pgr_contract.specs.State.{State, first_state};
ghost use Rattle.pgr_contract.specs.Running.{IsLogFrom};
ghost use Rattle.pgr_contract.specs.Events.{state_of};
ghost use Rattle.pgr_contract.specs.Run.{IsRun, times_over};
ghost use Rattle.pgr_contract.specs.Given.{AreGiven, HaveOpposites};
ghost use Rattle.pgr_contract.specs.Weight.{weight};
ghost use Rattle.pgr_contract.specs.Distances.{KeepsDistances};
ghost use Rattle.pgr_contract.specs.Shown.{IsHeld, IsPrinted, IsShown, nodes_of};

use crate::candidates::set_of;
use crate::contracted::Contracted;
use crate::event::Event;
use crate::rests::rests_of;
use crate::running::{Shrinking, Task};
use crate::shown::{contents_of, links_left, shortcuts_left, vertices_left};
use pgr_numbers::Names;
use pgr_outside::NoMemory;
use pgr_walks::NamedLink;
use pgr_words::Method;
use std::alloc::Global;

/// Contracts links between vertex ids: dead ends and vertices between two others go, and every distance between the
/// vertices that are left stays.
///
/// The methods of `order` are done one after the other, so many times over; each takes the least vertex that isn't
/// forbidden and qualifies, again and again, until there is none. No edge is negative. Where `directed` is false, the
/// opposite of each link stands among them. Their costs add up to at most 2^63 - 1, where `directed` is false only those of
/// the links that don't lead to a lesser vertex, and they have fewer than 2^32 ends. The forbidden vertices may be in any
/// order, repeat themselves and be no ends. `NoMemory` may come at any call.
pub fn contract(
    alloc: Global,
    links: &[NamedLink],
    order: &[Method],
    cycles: u32,
    forbidden: &[i64],
    directed: bool,
) -> Result<Contracted, NoMemory>
    requires given { AreGiven links.now }
    requires opposites { directed ≡ false → HaveOpposites links.now }
    requires light { weight directed links.now ≤ greatest }
    requires few { (names : List ℤ) → AreEnds links.now names → length names < 2 ^ 32 }

    // The end of the run is shown.
    ensures run { IfOk result (λ left. (end : State)
        × (IsRun directed forbidden.now (times_over cycles order.now) (first_state links.now) end
        × IsShown directed end left.vertices.items left.shortcuts.items left.links.items)) }

    // Distances between the vertices that are left stay, over the links that are left and over what rows say of them.
    ensures distances { IfOk result (λ left. KeepsDistances (Contains (nodes_of left.vertices.items)) (Contains links.now) (Contains left.links.items)) }
    ensures printed { IfOk result (λ left. KeepsDistances (Contains (nodes_of left.vertices.items)) (Contains links.now)
        (IsPrinted directed links.now left.vertices.items left.shortcuts.items)) }

    // A vertex is left exactly where nothing that is left holds it.
    ensures held { IfOk result (λ left. (v : ℤ) → IsVertex (Contains links.now) v
        → Contains (nodes_of left.vertices.items) v ↔ ¬ IsHeld left.vertices.items left.shortcuts.items v) }
    ensures fits { IfOk result (λ left. Fits (Contains left.links.items)) }
{
    let barred = set_of(alloc, forbidden)?;
    let task = Task {
        links,
        directed,
        forbidden,
        barred,
    };
    let mut shrinking = Shrinking::start(alloc, &task)?;
    shrinking.run(&task, order, cycles)?;
    let left = shown(alloc, links, directed, shrinking.events.as_slice())?;
    Ok(left)
}

/// What is left after the steps of a contraction.
fn shown(
    alloc: Global,
    links: &[NamedLink],
    directed: bool,
    events: &[Event],
) -> Result<Contracted, NoMemory>
    requires given { AreGiven links.now }
    requires opposites { directed ≡ false → HaveOpposites links.now }
    requires few { (names : List ℤ) → AreEnds links.now names → length names < 2 ^ 32 }
    requires log { IsLogFrom directed (first_state links.now) events.now }
    ensures { IfOk result (λ left. IsShown directed (state_of directed links.now events.now) left.vertices.items left.shortcuts.items left.links.items) }
{
    let names = Names::of(alloc, links)?;
    let rests = rests_of(alloc, events)?;
    let contents = contents_of(alloc, &names, &rests)?;
    let vertices = vertices_left(alloc, &names, &rests, &contents.at)?;
    let shortcuts = shortcuts_left(alloc, directed, events, &rests, &contents.over)?;
    let left = links_left(alloc, directed, links, &rests, shortcuts.as_slice())?;
    Ok(Contracted {
        vertices,
        shortcuts,
        links: left,
    })
}
