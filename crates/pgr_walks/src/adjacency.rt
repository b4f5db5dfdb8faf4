ghost use Rattle.std.specs.Prelude.{◌≡◌, ◌<◌, ◌+◌, ◌++◌, [], length, IfOk, slice_index_or};
ghost use Rattle.pgr_walks.specs.Ends.{AreListsOf, ArePlaces, heads_of, tails_of, piece};

use crate::ends::{append_heads, append_tails};
use crate::graph::Graph;
use pgr_outside::NoMemory;
use std::alloc::Global;
use std::marker::Model;

/// A list of vertices for each vertex of a graph, all in one list: made in one pass, and read as slices.
///
/// Contracts see it as the list of these lists.
#[derive(Drop)]
pub struct Adjacency {
    starts: Vec<usize>,
    vertices: Vec<u32>,
}

impl Model for Adjacency {
    ghost use Rattle.std.specs.Prelude.{List, ℕ};
    ghost use Rattle.pgr_walks.specs.Ends.{pieces, ArePlaces};

    ghost Value = { List (List ℕ) };

    ghost view = { λ a. pieces a.starts.items a.vertices.items };

    ghost invariant = { λ a. ArePlaces a.starts.items a.vertices.items };
}

impl Adjacency {
    /// For each vertex the vertices that the links out of it lead to, in the order of the links.
    ///
    /// A vertex stands there once for each link. `NoMemory` may come at any call.
    pub fn heads<G: Graph>(alloc: Global, g: &G) -> Result<Adjacency, NoMemory>
        ensures { IfOk result (AreListsOf (G.count g.now) (λ v. heads_of (G.outs g.now v))) }
    {
        let mut starts = vec![in alloc; 0usize; 1].map_err(|_| NoMemory)?;
        let mut vertices = Vec::new(alloc);
        for v in 0..g.size() {
            append_heads(g, v, &mut vertices)?;
            starts.push(vertices.len()).map_err(|_| NoMemory)?;
        }
        Ok(Adjacency { starts, vertices })
    }

    /// For each vertex those that the links out of it lead to, and then those that the links into it begin at.
    ///
    /// A vertex stands there once for each link. `NoMemory` may come at any call.
    pub fn neighbours<G: Graph>(alloc: Global, g: &G) -> Result<Adjacency, NoMemory>
        ensures { IfOk result
            (AreListsOf (G.count g.now) (λ v. heads_of (G.outs g.now v) ++ tails_of (G.ins g.now v))) }
    {
        let mut starts = vec![in alloc; 0usize; 1].map_err(|_| NoMemory)?;
        let mut vertices = Vec::new(alloc);
        for v in 0..g.size() {
            append_heads(g, v, &mut vertices)?;
            append_tails(g, v, &mut vertices)?;
            starts.push(vertices.len()).map_err(|_| NoMemory)?;
        }
        Ok(Adjacency { starts, vertices })
    }

    /// The number of vertices.
    pub fn size(&self) -> u32
        ensures { result ≡ length self.now }
    {
        (self.starts.len() - 1) as u32
    }

    /// The list of a vertex.
    ///
    /// It needs a vertex below the size.
    pub fn of(&self, v: u32) -> &[u32]
        requires { v < length self.now }
        ensures { result.now ≡ slice_index_or self.now v [] }
    {
        piece_at(self.starts.as_slice(), self.vertices.as_slice(), v as usize)
    }
}

/// The part of a list from the place `v` up to the next.
fn piece_at<'a>(starts: &[usize], vertices: &'a [u32], v: usize) -> &'a [u32]
    requires places { ArePlaces starts.now vertices.now }
    requires vertex { v + 1 < length starts.now }
    ensures { result.now ≡ piece starts.now vertices.now v }
{
    let start = starts[v];
    let end = starts[v + 1];
    &vertices[start..end]
}

#[cfg(test)]
mod tests;
