//! Labels that are one colour.

use pls_bits::{BitBuf, Bits, NumCode};
use pls_numbers::{Format, ReadsInPlace};
use pls_streams::NoMemory;
use std::alloc::Global;

/// What a label says: one of two colours.
#[derive(Clone, Copy, Debug, PartialEq, Eq)]
pub struct ColourLabel {
    /// The colour.
    pub colour: bool,
}

/// The format of labels of one bit, the colour.
#[derive(Clone, Copy, Debug, PartialEq, Eq)]
pub struct ColourFormat;

impl Format for ColourFormat {
    ghost use Rattle.pls_colour.specs.Bipartite.{colour_shape};
    ghost use Rattle.pls_colour.specs.laws.ColourLaws.{colour_numbers};

    type Label = ColourLabel;

    ghost shape = { λ _. colour_shape };

    fn read<C: NumCode>(
        &self,
        _alloc: Global,
        bits: &Bits<'_>,
    ) -> Result<Option<ColourLabel>, NoMemory> {
        Ok(self.read_in_place::<C>(bits))
    }

    fn append<C: NumCode>(&self, bits: &mut BitBuf, label: &ColourLabel) -> Result<(), NoMemory> {
        bits.push(label.colour)
    }

    ghost numbers_law = { λ _. colour_numbers };
}

impl ReadsInPlace for ColourFormat {
    fn read_in_place<C: NumCode>(&self, bits: &Bits<'_>) -> Option<ColourLabel> {
        if bits.len() == 1 {
            Some(ColourLabel {
                colour: bits.bit(0),
            })
        } else {
            None
        }
    }
}
