//! A sink into memory, some of whose calls fail.

ghost use Rattle.std.specs.Prelude.{◌≡◌, ℕ, ◌⊎◌, ◌↔◌, ◌-◌, ◌<◌, ◌≤◌, min, length, Some, IfOk, IsErr, MatchResult};
ghost use Rattle.std.specs.Io.{WritesAtMost};
ghost use Rattle.std.specs.Io.KnownBytes.{WriteAppends};
ghost use Rattle.pls_streams.specs.Plan.{HasRoomFor, new_sink};
ghost use Rattle.pls_streams.specs.inner.Planned.{IsFullFor, IsPlanned};
ghost use Rattle.pls_streams.specs.Steps.{up_by};
ghost use Rattle.pls_streams.specs.Streams.{HasCause, StaysSure};

use crate::counter::Steps;
use crate::memory::NoMemory;
use crate::pieces::is_due;
use crate::streams::{Sink, StreamFailure};
use std::alloc::Global;
use std::marker::Model;

/// Keeps the bytes that it takes, at most `room` in all and at most `step` in a call. It tells
/// them.
#[derive(Drop)]
pub struct MemSink {
    bytes: Vec<u8>,
    room: usize,
    step: usize,
    fails: Vec<u64>,
    calls: Steps,
    faults: Steps,
}

impl Model for MemSink {
    ghost use Rattle.std.specs.Prelude.{◌≤◌, vec_capacity, vec_len};
    ghost use Rattle.pls_streams.specs.Plan.{PlannedSink};

    ghost Value = { PlannedSink };

    ghost view = { λ s. record {
      taken = s.bytes.items;
      room = s.room;
      plan = record { step = s.step; fails = s.fails.items };
      calls = s.calls;
      faults = s.faults;
    } };

    ghost invariant = { λ s. record {
      step : 1 ≤ s.step;
      within : vec_len s.bytes ≤ s.room;
      memory : s.room ≤ vec_capacity s.bytes;
    } };
}

impl MemSink {
    /// A sink that has taken nothing. It takes all its memory here, and `NoMemory` says that there
    /// is not so much. `fails` are the numbers of the writes that fail, the first being 1; besides
    /// these, any write fails that has bytes to write when the room is used up.
    pub fn new(
        alloc: Global,
        room: usize,
        step: usize,
        fails: Vec<u64>,
    ) -> Result<MemSink, NoMemory>
        requires { 1 ≤ step }
        ensures { IfOk result (λ sink. sink ≡ new_sink room step fails.items) }
    {
        let bytes = Vec::with_capacity(alloc, room)?;
        Ok(MemSink {
            bytes,
            room,
            step,
            fails,
            calls: Steps::new(),
            faults: Steps::new(),
        })
    }

    /// All the bytes taken, in order.
    pub fn bytes(&self) -> &[u8]
        ensures { result.now ≡ self.now.taken }
    {
        self.bytes.as_slice()
    }
}

impl Sink for MemSink {
    ghost use Rattle.pls_streams.specs.Plan.{HasRoomFor};

    ghost taken = { λ s. Some s.taken };

    ghost faults = { λ s. s.faults };

    ghost IsSureOf = { HasRoomFor };

    fn write(&mut self, piece: &[u8]) -> Result<usize, StreamFailure>
        ensures bound { WritesAtMost result piece.now }
        ensures some { IfOk result (λ n. 0 < length piece.now → 0 < n) }
        ensures bytes { WriteAppends (Some self.old.taken) (Some self.new.taken) result piece.now }
        ensures cause { HasCause self.old.faults self.new.faults result }
        ensures sure { (most : ℕ) → HasRoomFor self.old most → length piece.now ≤ most
            → MatchResult result (λ n. StaysSure (HasRoomFor self.new) (most - n) self.old.faults
            self.new.faults) (λ _. ⊥) }

        // Which calls fail, how far the others come, and what is counted.
        ensures fails { IsErr result ↔
            (IsPlanned self.old.plan self.old.calls ⊎ IsFullFor self.old piece.now) }
        ensures count { IfOk result (λ n. n ≡ min (min (length piece.now) self.old.plan.step)
            (self.old.room - length self.old.taken)) }
        ensures raised { MatchResult result (λ _. self.new.faults ≡ self.old.faults)
            (λ _. self.new.faults ≡ up_by 1 self.old.faults) }
        ensures calls { self.new.calls ≡ up_by 1 self.old.calls }
        ensures plan { self.new.plan ≡ self.old.plan }
        ensures room { self.new.room ≡ self.old.room }
    {
        let due = is_due(&self.fails, self.calls.number());
        let free = self.room - self.bytes.len();
        self.calls.tick();
        if due || (free == 0 && !piece.is_empty()) {
            self.faults.tick();
            return Err(StreamFailure);
        }
        let count = piece.len().min(self.step).min(free);
        self.bytes.extend_from_slice(&piece[..count]).unwrap();
        Ok(count)
    }
}
