//! How labels of a few weights are written.

ghost use Rattle.std.specs.Prelude.{◌≡◌};
ghost use Rattle.pls_numbers.specs.Shape.{said_by};
ghost use Rattle.pls_example_weights.specs.SameWeights.{weights_shape};

use crate::weights::{MOST, Weights};
use pls_bits::{BitBuf, Bits, NumCode};
use pls_numbers::{Format, Numbers, ReadsInPlace, append_numbers};
use pls_streams::NoMemory;
use std::alloc::Global;

/// How many weights there are, and then these.
#[derive(Clone, Copy, Debug, PartialEq, Eq)]
pub struct WeightsFormat;

impl Format for WeightsFormat {
    ghost use Rattle.pls_example_weights.specs.SameWeights.{weights_shape};
    ghost use Rattle.pls_example_weights.specs.laws.SameWeightsLaws.{weights_numbers};

    type Label = Weights;

    ghost shape = { λ _. weights_shape };

    fn read<C: NumCode>(
        &self,
        _alloc: Global,
        bits: &Bits<'_>,
    ) -> Result<Option<Weights>, NoMemory> {
        Ok(self.read_in_place::<C>(bits))
    }

    fn append<C: NumCode>(&self, bits: &mut BitBuf, label: &Weights) -> Result<(), NoMemory> {
        let weights = label.as_slice();
        append_numbers::<C>(bits, &[weights.len() as u64])?;
        append_numbers::<C>(bits, weights)
    }

    ghost numbers_law = { λ _. weights_numbers };
}

impl ReadsInPlace for WeightsFormat {
    fn read_in_place<C: NumCode>(&self, bits: &Bits<'_>) -> Option<Weights> {
        read_weights::<C>(bits)
    }
}

// `None` unless the bits are weights to the last bit.
fn read_weights<C: NumCode>(bits: &Bits<'_>) -> Option<Weights>
    ensures { result ≡ said_by weights_shape C.takes bits.now }
{
    let mut left = Numbers::<C>::of(bits);
    let count = left.next()?;
    if count > MOST as u64 {
        return None;
    }
    let mut weights = Weights::none();
    for _ in 0..count {
        weights.push(left.next()?);
    }
    if left.is_end() { Some(weights) } else { None }
}
