ghost use Rattle.std.specs.Prelude.{◌≡◌, ◌<◌, ◌≤◌, ◌+◌, ◌-◌, ◌^◌, ◌++◌, length, min, take, vec_len, OnOk, IfOk};
ghost use Rattle.pgr_walks.specs.Ends.{heads_of, tails_of, ends_at, HaveNoted};
ghost use Rattle.pgr_walks.specs.Ends as ends;

use crate::graph::Graph;
use crate::link::Link;
use crate::visitor::{LinkVisitor, Next};
use pgr_outside::NoMemory;

/// Puts where the links out of `v` lead behind the list, in the order of the links.
///
/// It needs a vertex below the size. `NoMemory` may come at any call; nothing is said of the list then.
pub fn append_heads<G: Graph>(g: &G, v: u32, vertices: &mut Vec<u32>) -> Result<(), NoMemory>
    requires { v < G.count g.now }
    ensures { OnOk result (vertices.new.items ≡ vertices.old.items ++ heads_of (G.outs g.now v)) }
{
    append_ends(g, v, End::Head, vertices)
}

/// Puts where the links into `v` begin behind the list, in the order of the links.
///
/// It needs a vertex below the size. `NoMemory` may come at any call; nothing is said of the list then.
pub fn append_tails<G: Graph>(g: &G, v: u32, vertices: &mut Vec<u32>) -> Result<(), NoMemory>
    requires { v < G.count g.now }
    ensures { OnOk result (vertices.new.items ≡ vertices.old.items ++ tails_of (G.ins g.now v)) }
{
    append_ends(g, v, End::Tail, vertices)
}

/// An end of a link.
#[derive(Clone, Copy)]
pub(crate) enum End {
    /// Where it leads.
    Head,
    /// Where it begins.
    Tail,
}

/// Notes an end of each link that it is shown, at the places from the next on, as far as there are places.
#[derive(Drop)]
pub(crate) struct Noting<'a> {
    /// The places.
    places: &'a mut [u32],
    /// The next place, whether it is there or not.
    next: usize,
    /// The end that it notes.
    end: End,
}

impl LinkVisitor for Noting<'_> {
    ghost use Rattle.pgr_walks.specs.declared.visitor.Next.TheVariants.{Go};
    ghost use Rattle.pgr_walks.specs.Ends.{Notes, notes_after};

    ghost Meaning = { Notes };

    ghost meaning = { λ noting. record {
      reference = noting.places.ghost_name;
      places = noting.places.now;
      next = noting.next;
      end = noting.end;
    } };

    ghost after = { notes_after };

    ghost answer = { λ _ _. Go };

    ghost ready = { λ _ _. Unit {0} };

    fn see(&mut self, link: Link) -> Next {
        if self.next < self.places.len() {
            self.places[self.next] = end_of(self.end, link);
        }
        self.next = self.next.saturating_add(1);
        Next::Go
    }
}

/// An end of the link.
fn end_of(end: End, link: Link) -> u32
    ensures { result ≡ ends.end_of end link }
{
    match end {
        End::Head => link.to,
        End::Tail => link.from,
    }
}

/// How many links of a vertex are looked for at first.
const FEW: usize = 8;

/// Puts the far ends of a vertex's links behind the list.
///
/// Most vertices have few links, so places for few are made first; only for a vertex with more its links are
/// shown twice.
fn append_ends<G: Graph>(g: &G, v: u32, end: End, vertices: &mut Vec<u32>) -> Result<(), NoMemory>
    requires { v < G.count g.now }
    ensures { OnOk result (vertices.new.items ≡ vertices.old.items ++ ends_at end (G.outs g.now) (G.ins g.now) v) }
{
    let at = vertices.len();
    let room = at.checked_add(FEW).ok_or(NoMemory)?;
    let few = note_in(g, v, end, vertices, at, room)?;
    if few <= room {
        vertices.truncate(few);
        return Ok(());
    }
    if few == usize::MAX {
        return Err(NoMemory);
    }
    let all = note_in(g, v, end, vertices, at, few)?;
    vertices.truncate(all);
    Ok(())
}

/// Makes the list as long as `room`, with a vertex's far ends from the place `at` on where they have room, and
/// returns the place behind the last of them, whether it is there or not.
fn note_in<G: Graph>(
    g: &G,
    v: u32,
    end: End,
    vertices: &mut Vec<u32>,
    at: usize,
    room: usize,
) -> Result<usize, NoMemory>
    requires vertex { v < G.count g.now }
    requires place { at ≤ vec_len vertices.old }
    requires room { at ≤ room }
    ensures last { IfOk result
        (λ last. last ≡ min (at + length (ends_at end (G.outs g.now) (G.ins g.now) v)) (2 ^ 64 - 1)) }
    ensures len { OnOk result (vec_len vertices.new ≡ room) }
    ensures before { OnOk result (take at vertices.new.items ≡ take at vertices.old.items) }
    ensures noted { IfOk result (λ last. last ≤ room → room < 2 ^ 64 - 1
        → take last vertices.new.items
        ≡ take at vertices.old.items ++ ends_at end (G.outs g.now) (G.ins g.now) v) }
{
    vertices.resize(room, 0).map_err(|_| NoMemory)?;
    Ok(note(g, v, end, vertices.as_mut_slice(), at))
}

/// Notes a vertex's far ends at the places from `at` on, as far as there are places, and returns the place
/// behind the last of them, whether it is there or not.
fn note<G: Graph>(g: &G, v: u32, end: End, places: &mut [u32], at: usize) -> usize
    requires vertex { v < G.count g.now }
    requires place { at ≤ length places.old }
    ensures { HaveNoted at (ends_at end (G.outs g.now) (G.ins g.now) v) places.old places.new result }
{
    match end {
        End::Head => note_heads(g, v, places, at),
        End::Tail => note_tails(g, v, places, at),
    }
}

/// Notes where the links out of a vertex lead.
fn note_heads<G: Graph>(g: &G, v: u32, places: &mut [u32], at: usize) -> usize
    requires vertex { v < G.count g.now }
    requires place { at ≤ length places.old }
    ensures { HaveNoted at (heads_of (G.outs g.now v)) places.old places.new result }
{
    let mut noting = Noting {
        places,
        next: at,
        end: End::Head,
    };
    g.each_out(v, &mut noting);
    noting.next
}

/// Notes where the links into a vertex begin.
fn note_tails<G: Graph>(g: &G, v: u32, places: &mut [u32], at: usize) -> usize
    requires vertex { v < G.count g.now }
    requires place { at ≤ length places.old }
    ensures { HaveNoted at (tails_of (G.ins g.now v)) places.old places.new result }
{
    let mut noting = Noting {
        places,
        next: at,
        end: End::Tail,
    };
    g.each_in(v, &mut noting);
    noting.next
}
