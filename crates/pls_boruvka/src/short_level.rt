//! Levels in as few bytes as the numbers of a network need.

ghost use Rattle.std.specs.Prelude.{◌≡◌};

use crate::level::Level;
use std::marker::Model;

// A level of a network, in whose rows all its numbers are, seen as the level.
#[derive(Drop)]
pub(crate) struct ShortLevel {
    fragment: u32,
    weight: u32,
    a: u32,
    b: u32,
}

impl Model for ShortLevel {
    ghost use Rattle.pls_boruvka.specs.declared.level.Level.{Level};

    ghost Value = { Level };

    ghost view = { λ short. record {
      fragment = short.fragment;
      weight = short.weight;
      a = short.a;
      b = short.b;
    } };
}

impl ShortLevel {
    pub(crate) fn of(fragment: u32, weight: u32, a: u32, b: u32) -> ShortLevel
        ensures { result ≡ record { fragment = fragment; weight = weight; a = a; b = b } }
    {
        ShortLevel {
            fragment,
            weight,
            a,
            b,
        }
    }

    // The same level in the wider numbers of a label.
    #[inline(always)]
    pub(crate) fn whole(&self) -> Level
        ensures { result ≡ self.now }
    {
        Level {
            fragment: u64::from(self.fragment),
            weight: u64::from(self.weight),
            a: u64::from(self.a),
            b: u64::from(self.b),
        }
    }
}
