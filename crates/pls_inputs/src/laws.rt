//! Laws of inputs. The functions change nothing: their contracts are the laws.

ghost use Rattle.std.specs.Prelude.{◌≡◌, ℕ, List};
ghost use Rattle.pls_streams.specs.declared.text_error.TextError.{TextError as Error};
ghost use Rattle.pls_inputs.specs.Parts.{Input as Said};
ghost use Rattle.pls_inputs.specs.Order.{IsInput, IsInputOrNot, IsNoInput};

use crate::parts::Parts;
use crate::scanning::scan_parts;
use std::alloc::Global;

/// The bytes of an input fix what it says.
pub fn one_input()
    ensures { (parts : Parts) (bytes : List ℕ) (input other : Said)
        → IsInput parts bytes input → IsInput parts bytes other → input ≡ other }
{}

/// Bytes are refused in one way at most.
pub fn one_refusal()
    ensures { (parts : Parts) (bytes : List ℕ) (error other : Error)
        → IsNoInput parts bytes error → IsNoInput parts bytes other → error ≡ other }
{}

/// An input is not refused.
pub fn no_refusal()
    ensures { (parts : Parts) (bytes : List ℕ) (input : Said) (error : Error)
        → IsInput parts bytes input → IsNoInput parts bytes error → ⊥ }
{}

/// Bytes are an input, or are refused.
pub fn input_or_refusal(alloc: Global, parts: Parts, bytes: &[u8])
    ensures { IsInputOrNot parts bytes.now }
{
    let _ = scan_parts(alloc, parts, bytes);
}
