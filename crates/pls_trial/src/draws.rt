//! Random numbers.

ghost use Rattle.std.specs.Prelude.{◌≡◌, ◌≤◌};
ghost use Rattle.pls_trial.specs.declared.draws.TheConstants.{MAX_SEED};
ghost use Rattle.pls_trial.specs.Generator.{next};

use std::marker::Model;

/// The greatest number that a network is made from: each draw is at most as great.
pub const MAX_SEED: u32 = 2_147_483_646;

/// The draws from a number on, seen as the last number drawn.
#[derive(Drop)]
pub(crate) struct Draws {
    number: u64,
}

impl Model for Draws {
    ghost use Rattle.std.specs.Prelude.{ℕ, ◌≤◌};
    ghost use Rattle.pls_trial.specs.declared.draws.TheConstants.{MAX_SEED};

    ghost Value = { ℕ };

    ghost view = { λ draws. draws.number };

    ghost invariant = { λ draws. draws.number ≤ MAX_SEED };
}

impl Draws {
    /// The draws from a seed on.
    pub(crate) fn new(seed: u32) -> Draws
        requires { seed ≤ MAX_SEED }
        ensures { result ≡ seed }
    {
        Draws {
            number: seed as u64,
        }
    }

    /// The next number.
    pub(crate) fn draw(&mut self) -> u32
        ensures drawn { result ≡ next self.old }
        ensures kept { self.new ≡ next self.old }
        ensures below { result ≤ MAX_SEED }
    {
        self.number = self.number * 48271 % 2147483647;
        self.number as u32
    }
}
