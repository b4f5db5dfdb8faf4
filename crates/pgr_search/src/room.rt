ghost use Rattle.std.specs.Prelude.{◌≡◌, ◌<◌, None, All, IsNone, IfOk, length, slice_index_or};

use crate::heap::Heap;
use crate::settled::Settled;
use pgr_outside::NoMemory;
use pgr_walks::Label;
use std::alloc::Global;
use std::marker::Model;

/// Room for the labels of a search, one place for each vertex number.
#[derive(Drop)]
pub struct Room {
    pub(crate) settled: Settled,
    pub(crate) waiting: Heap<Label>,
}

impl Model for Room {
    ghost use Rattle.std.specs.Prelude.{◌≡◌, ◌<◌, ◌^◌, All, IsNone, List, Option, length};
    ghost use Rattle.pgr_walks.specs.declared.label.Label.{Label};

    ghost Value = { List (Option Label) };

    ghost view = { λ room. room.settled };

    ghost invariant = { λ room. (length room.waiting ≡ length room.settled) × (length room.settled < 2 ^ 32) × All IsNone room.waiting };
}

impl Room {
    /// Takes all memory of a search over `n` vertices; none of them has a label.
    ///
    /// `NoMemory` may come at any call.
    pub fn for_size(alloc: Global, n: u32) -> Result<Room, NoMemory>
        ensures size { IfOk result (λ room. length room ≡ n) }
        ensures empty { IfOk result (All IsNone) }
    {
        let settled = Settled::for_size(alloc, n)?;
        let waiting = Heap::for_size(alloc, n)?;
        Ok(Room { settled, waiting })
    }

    /// The label of a vertex, if it has one.
    ///
    /// It needs `v` below the room's size.
    pub fn label(&self, v: u32) -> Option<Label>
        requires { v < length self.now }
        ensures { result ≡ slice_index_or self.now v None }
    {
        self.settled.label(v)
    }
}
