//! The same label under another number code.

ghost use Rattle.std.specs.Prelude.{◌≡◌, IfOk};
ghost use Rattle.pls_numbers.specs.Shape.{recoded};

use crate::format::Format;
use pls_bits::{BitBuf, Bits, NumCode};
use pls_streams::NoMemory;
use std::alloc::Global;

/// The label that the bits are under the code `C`, written under the code `D`, or `None` where
/// they are no label. The one error is want of memory.
pub fn recode<F: Format, C: NumCode, D: NumCode>(
    format: &F,
    alloc: Global,
    bits: &Bits<'_>,
) -> Result<Option<BitBuf>, NoMemory>
    ensures { IfOk result (λ found. found ≡ recoded (F.shape format.now) C.takes D.code bits.now) }
{
    let Some(label) = format.read::<C>(alloc, bits)? else {
        return Ok(None);
    };
    let mut written = BitBuf::new(alloc);
    format.append::<D>(&mut written, &label)?;
    Ok(Some(written))
}
