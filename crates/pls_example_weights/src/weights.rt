//! A few weights.

ghost use Rattle.std.specs.Prelude.{◌≡◌, ◌<◌, ◌≤◌, ◌++◌, ◌∷◌, [], length, take};

use std::marker::Model;

/// How many weights a label has at most.
pub const MOST: usize = 4;

/// Weights, [`MOST`] at most, seen as their list.
#[derive(Drop)]
pub struct Weights {
    numbers: [u64; MOST],
    count: usize,
    ghost few: { count ≤ 4 },
}

impl Model for Weights {
    ghost use Rattle.std.specs.Prelude.{ℕ, List, take};

    ghost Value = { List ℕ };

    ghost view = { λ weights. take weights.count weights.numbers };
}

impl Weights {
    /// No weight.
    pub fn none() -> Weights
        ensures { result ≡ [] }
    {
        Weights {
            numbers: [0; MOST],
            count: 0,
        }
    }

    /// The weights in order.
    pub fn as_slice(&self) -> &[u64]
        ensures same { result.now ≡ self.now }
        ensures few { length result.now ≤ 4 }
    {
        &self.numbers[..self.count]
    }

    /// One weight more behind them, where there is room.
    pub fn push(&mut self, weight: u64)
        ensures { self.new ≡ take 4 (self.old ++ weight ∷ []) }
    {
        if self.count < MOST {
            self.numbers[self.count] = weight;
            self.count += 1;
        }
    }
}
