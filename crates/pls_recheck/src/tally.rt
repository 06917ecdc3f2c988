//! A bench that asks the checkers themselves.

ghost use Rattle.std.specs.Prelude.{◌≡◌};

use crate::bench::Bench;
use pls_configuration::Verdict;
use pls_labels::View;
use pls_scheme::Checker;
use pls_streams::{NoMemory, Steps};
use std::alloc::Global;
use std::marker::Model;

/// A bench that asks each checker itself, seen as the number of questions so far.
#[derive(Debug, Drop)]
pub struct Tally {
    questions: Steps,
}

impl Model for Tally {
    ghost use Rattle.std.specs.Prelude.{ℕ};

    ghost Value = { ℕ };

    ghost view = { λ tally. tally.questions };
}

impl Tally {
    /// A bench that was not asked yet. It takes no memory.
    pub fn new() -> Tally
        ensures { result ≡ 0 }
    {
        Tally {
            questions: Steps::new(),
        }
    }

    /// The number of questions so far; at 2^64-1 it stays there.
    pub fn number(&self) -> u64
        ensures { result ≡ self.now }
    {
        self.questions.number()
    }
}

impl Bench for Tally {
    ghost asked = { λ tally. tally };

    fn ask<K: Checker>(
        &mut self,
        alloc: Global,
        checker: &K,
        view: &View<'_>,
        steps: &mut Steps,
    ) -> Result<Verdict, NoMemory> {
        self.questions.tick();
        checker.verify(alloc, view, steps)
    }
}
