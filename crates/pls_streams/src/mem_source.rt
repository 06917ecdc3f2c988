//! A source of bytes in memory, some of whose calls fail.

ghost use Rattle.std.specs.Prelude.{◌≡◌, ◌↔◌, ◌<◌, ◌≤◌, min, length, Some, IfOk, IsErr, MatchResult};
ghost use Rattle.std.specs.Io.{ReadsAtMost};
ghost use Rattle.std.specs.Io.KnownBytes.{ReadConsumes};
ghost use Rattle.pls_streams.specs.Plan.{new_source};
ghost use Rattle.pls_streams.specs.inner.Planned.{IsPlanned};
ghost use Rattle.pls_streams.specs.Steps.{up_by};
ghost use Rattle.pls_streams.specs.Streams.{HasCause};

use crate::counter::Steps;
use crate::pieces::is_due;
use crate::streams::{Source, StreamFailure};
use crate::sure_source::SureSource;
use std::marker::Model;

/// Gives the bytes of a vector, at most `step` in a call. It tells its bytes.
#[derive(Drop)]
pub struct MemSource {
    rest: SureSource,
    step: usize,
    fails: Vec<u64>,
    calls: Steps,
    faults: Steps,
}

impl Model for MemSource {
    ghost use Rattle.std.specs.Prelude.{◌≤◌};
    ghost use Rattle.pls_streams.specs.Plan.{PlannedSource};

    ghost Value = { PlannedSource };

    ghost view = { λ s. record {
      left = s.rest;
      plan = record { step = s.step; fails = s.fails.items };
      calls = s.calls;
      faults = s.faults;
    } };

    ghost invariant = { λ s. 1 ≤ s.step };
}

impl MemSource {
    /// A source of all the bytes. `fails` are the numbers of the calls that fail, the first being
    /// 1; all others succeed.
    pub fn new(bytes: Vec<u8>, step: usize, fails: Vec<u64>) -> MemSource
        requires { 1 ≤ step }
        ensures { result ≡ new_source bytes.items step fails.items }
    {
        MemSource {
            rest: SureSource::new(bytes),
            step,
            fails,
            calls: Steps::new(),
            faults: Steps::new(),
        }
    }
}

impl Source for MemSource {
    ghost left = { λ s. Some s.left };

    ghost faults = { λ s. s.faults };

    fn read(&mut self, into: &mut [u8]) -> Result<usize, StreamFailure>
        ensures bound { ReadsAtMost result into.new }
        ensures bytes { ReadConsumes (Some self.old.left) (Some self.new.left) result into.new }
        ensures cause { HasCause self.old.faults self.new.faults result }

        // Which calls fail, how far the others come, and what is counted.
        ensures fails { IsErr result ↔ IsPlanned self.old.plan self.old.calls }
        ensures count { IfOk result (λ n.
            n ≡ min (min self.old.plan.step (length into.new)) (length self.old.left)) }
        ensures raised { MatchResult result (λ _. self.new.faults ≡ self.old.faults)
            (λ _. self.new.faults ≡ up_by 1 self.old.faults) }
        ensures calls { self.new.calls ≡ up_by 1 self.old.calls }
        ensures plan { self.new.plan ≡ self.old.plan }
    {
        let due = is_due(&self.fails, self.calls.number());
        self.calls.tick();
        if due {
            self.faults.tick();
            return Err(StreamFailure);
        }
        Ok(self.rest.give(into, self.step))
    }
}
