ghost use Rattle.std.specs.Prelude.{◌≡◌, ◌-◌, ◌+◌, ◌<◌, ◌≤◌, ◌↔◌, [], ◌++◌, Some, length, vec_len, vec_capacity, min, take, IsErr, IfOk, OnOk, OnErr};
ghost use Rattle.pgr_outside.specs.Calls.{raised};
ghost use Rattle.pgr_outside.specs.Faults.{HasRisen};
ghost use Rattle.pgr_outside.specs.MemorySink.{SinkState, FailsNext};
ghost use Rattle.pgr_outside.specs.Sink.{with_added};

use crate::fault::{Failed, NoMemory};
use crate::sink::Sink;
use std::alloc::Global;
use std::marker::Model;

/// A sink into memory of a fixed size, written in pieces of a size of one's choice, that fails at chosen calls.
#[derive(Drop)]
pub struct MemorySink {
    bytes: Vec<u8>,
    room: usize,
    most: usize,
    fails: Vec<u64>,
    calls: u64,
    faults: u64,
}

impl Model for MemorySink {
    ghost Value = { SinkState };

    ghost view = { λ sink. record {
      bytes = sink.bytes.items;
      room = sink.room;
      most = sink.most;
      fails = sink.fails.items;
      calls = sink.calls;
      faults = sink.faults;
    } };

    ghost invariant = { λ sink. (1 ≤ sink.most) × (vec_len sink.bytes + sink.room ≤ vec_capacity sink.bytes) };
}

impl MemorySink {
    /// An empty sink with room for so many bytes, at which no call was made and no fault was counted.
    ///
    /// A write takes at most `most` bytes, and the calls whose numbers stand in `fails`, counted from 1,
    /// fail. All its memory is taken here, and `NoMemory` may come at any call.
    pub fn with_room(
        alloc: Global,
        room: usize,
        most: usize,
        fails: Vec<u64>,
    ) -> Result<MemorySink, NoMemory>
        requires { 1 ≤ most }
        ensures { IfOk result (λ sink. sink ≡ record {
          bytes = [];
          room = room;
          most = most;
          fails = fails.items;
          calls = 0;
          faults = 0;
        }) }
    {
        let bytes = Vec::with_capacity(alloc, room).map_err(|_| NoMemory)?;
        Ok(MemorySink {
            bytes,
            room,
            most,
            fails,
            calls: 0,
            faults: 0,
        })
    }

    /// What was written so far, in order. It takes no memory.
    pub fn bytes(&self) -> &[u8]
        ensures { result.now ≡ self.now.bytes }
    {
        self.bytes.as_slice()
    }
}

impl Sink for MemorySink {
    ghost written = { λ sink. Some sink.bytes };

    ghost faults = { λ sink. sink.faults };

    /// Takes a front of the piece, and answers how many bytes.
    ///
    /// A call that doesn't fail takes the least of `most`, the piece's length and the room that is left. It
    /// fails exactly where its number is one of those that fail, or where the room is full and the piece
    /// isn't empty, and then counts one fault more and takes nothing.
    fn write(&mut self, piece: &[u8]) -> Result<usize, Failed>
        ensures at_most { IfOk result (λ count. count ≤ length piece.now) }
        ensures some { IfOk result (λ count. 0 < length piece.now → 0 < count) }
        ensures added { IfOk result (λ count. Some self.new.bytes ≡ with_added (Some self.old.bytes) (take count piece.now)) }
        ensures failed { OnErr result (HasRisen self.old.faults self.new.faults) }
        ensures nothing_added { OnErr result (Some self.new.bytes ≡ Some self.old.bytes) }
        ensures faults { self.old.faults ≤ self.new.faults }

        // Exactly how much, when it fails, and what is counted.
        ensures exact { IfOk result (λ count. count ≡ min self.old.most (min (length piece.now) self.old.room)) }
        ensures fails { IsErr result ↔ FailsNext self.old piece.now }
        ensures ok { IfOk result (λ count. self.new ≡ record self.old {
          bytes = self.old.bytes ++ take count piece.now;
          room = self.old.room - count;
          calls = raised self.old.calls;
        }) }
        ensures err { OnErr result (self.new ≡ record self.old {
          calls = raised self.old.calls;
          faults = raised self.old.faults;
        }) }
    {
        self.calls = self.calls.saturating_add(1);
        let is_full = self.room == 0 && !piece.is_empty();
        if is_full || self.fails.contains(&self.calls) {
            self.faults = self.faults.saturating_add(1);
            return Err(Failed);
        }
        let count = self.most.min(piece.len()).min(self.room);
        self.bytes.extend_from_slice(&piece[..count]).unwrap();
        self.room -= count;
        Ok(count)
    }
}
