//! A counter of steps.

ghost use Rattle.std.specs.Prelude.{◌≡◌};
ghost use Rattle.pls_streams.specs.Steps.{up_by};

use std::marker::Model;

/// How many steps there were, seen as a number. At 2^64-1 it stays there.
#[derive(Debug, Drop)]
pub struct Steps {
    count: u64,
}

impl Model for Steps {
    ghost use Rattle.std.specs.Prelude.{ℕ};

    ghost Value = { ℕ };

    ghost view = { λ steps. steps.count };
}

impl Steps {
    /// A counter at 0.
    pub fn new() -> Steps
        ensures { result ≡ 0 }
    {
        Steps { count: 0 }
    }

    /// The number of steps so far.
    pub fn number(&self) -> u64
        ensures { result ≡ self.now }
    {
        self.count
    }

    /// Counts one step.
    pub fn tick(&mut self)
        ensures { self.new ≡ up_by 1 self.old }
    {
        self.count = self.count.saturating_add(1);
    }
}
