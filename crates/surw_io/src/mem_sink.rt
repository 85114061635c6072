ghost use Rattle.std.specs.Prelude.{◌≡◌, ◌<◌, ◌≤◌, [], length, take, IfOk, MatchResult, Some};
ghost use Rattle.surw_io.specs.Cause.{HasCause, one_more};
ghost use Rattle.surw_io.specs.Calls.{is_listed};
ghost use Rattle.surw_io.specs.MemSink.{write_gives, took, refused};

use crate::calls::is_listed;
use crate::{Failed, Sink};
use std::alloc::Global;
use std::marker::Model;
use surw_base::OutOfMemory;

/// A sink that keeps what it takes. Its writes are numbered from 0; those that are listed fail.
#[derive(Drop)]
pub struct MemSink {
    taken: Vec<u8>,
    room: usize,
    piece: usize,
    fails: Vec<u32>,
    calls: u64,
    faults: u64,
}

impl Model for MemSink {
    ghost use Rattle.std.specs.Prelude.{◌<◌, ◌≤◌, vec_len, vec_capacity};
    ghost use Rattle.surw_io.specs.MemSink.{SinkState};

    ghost Value = { SinkState };

    ghost view = { λ sink. record {
      taken = sink.taken.items;
      room = sink.room;
      piece = sink.piece;
      fails = sink.fails.items;
      calls = sink.calls;
      faults = sink.faults;
    } };

    ghost invariant = { λ sink. (0 < sink.piece) × (vec_len sink.taken ≤ sink.room) × (sink.room ≤ vec_capacity sink.taken) };
}

impl MemSink {
    /// A sink that takes at most `room` bytes in all and `piece` in one write. It takes all its memory here.
    pub fn new(
        alloc: Global,
        room: usize,
        piece: usize,
        fails: Vec<u32>,
    ) -> Result<MemSink, OutOfMemory>
        requires { 1 ≤ piece }
        ensures { IfOk result (λ sink. sink ≡ record {
          taken = [];
          room = room;
          piece = piece;
          fails = fails.items;
          calls = 0;
          faults = 0;
        }) }
    {
        let taken = Vec::with_capacity(alloc, room)?;
        Ok(MemSink {
            taken,
            room,
            piece,
            fails,
            calls: 0,
            faults: 0,
        })
    }

    /// The bytes taken.
    pub fn taken(&self) -> &[u8]
        ensures { result.now ≡ self.now.taken }
    {
        self.taken.as_slice()
    }

    // Counts a write, and answers whether it is listed to fail.
    fn next_fails(&mut self) -> bool
        ensures answer { result ≡ is_listed self.old.fails self.old.calls }
        ensures counted { self.new ≡ record self.old { calls = one_more self.old.calls } }
    {
        let fails = is_listed(&self.fails, self.calls);
        self.calls = self.calls.saturating_add(1);
        fails
    }
}

impl Sink for MemSink {
    ghost taken = { λ sink. Some sink.taken };

    ghost faults = { λ sink. sink.faults };

    /// Takes at most `piece` bytes, and no more than what is left of the room. Fails where the call is listed,
    /// and where no room is left and the piece isn't empty.
    fn write(&mut self, piece: &[u8]) -> Result<usize, Failed>
        ensures gives { MatchResult result
            (λ n. write_gives self.old (length piece.now) ≡ Some n)
            (λ _. write_gives self.old (length piece.now) ≡ None) }
        ensures after { MatchResult result
            (λ n. self.new ≡ took self.old (take n piece.now))
            (λ _. self.new ≡ refused self.old) }
        ensures some { IfOk result (λ n. 0 < length piece.now → 0 < n) }
        ensures cause { HasCause self.old.faults self.new.faults result ⊥ }
    {
        let fails = self.next_fails();
        let left = self.room - self.taken.len();
        if fails || (left == 0 && !piece.is_empty()) {
            self.faults = self.faults.saturating_add(1);
            return Err(Failed);
        }
        let n = piece.len().min(self.piece).min(left);
        match self.taken.extend_from_slice(&piece[..n]) {
            Ok(()) => Ok(n),
            Err(_) => unreachable!(),
        }
    }
}
