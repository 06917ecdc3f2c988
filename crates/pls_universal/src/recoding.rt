//! Labels with maps under another number code.

ghost use Rattle.std.specs.Prelude.{◌≡◌, ◌≤◌, ◌++◌, Some, IfOk};
ghost use Rattle.pls_bits.specs.declared.num_code.TheConstants.{MAX_CODED};
ghost use Rattle.pls_numbers.specs.Shape.{recoded};
ghost use Rattle.pls_universal.specs.Reading.{map_shape};

use crate::deciding::has_map;
use crate::format::MapFormat;
use crate::verifying::parts;
use pls_bits::{BitBuf, Bits, NumCode};
use pls_numbers::recode;
use pls_streams::NoMemory;
use std::alloc::Global;

/// The label that the bits are under the code `C`, written under the code `D`, or `None` where they
/// are no label, as `recode` gives it. Of another label this is known: what it is under `C`
/// (`old`), and under `D` (`new`). Where both have one map, that is not read but copied. The one
/// error is want of memory.
pub fn recode_beside<C: NumCode, D: NumCode>(
    alloc: Global,
    bits: &Bits<'_>,
    old: &Bits<'_>,
    new: &Bits<'_>,
) -> Result<Option<BitBuf>, NoMemory>
    requires { recoded map_shape C.takes D.code old.now ≡ Some new.now }
    ensures { IfOk result (λ found. found ≡ recoded map_shape C.takes D.code bits.now) }
{
    let Some((own, map)) = parts::<C>(bits) else {
        return Ok(None);
    };
    if !has_map::<C>(old, &map) {
        return recode::<MapFormat, C, D>(&MapFormat, alloc, bits);
    }
    match parts::<D>(new) {
        Some((_, map)) => Ok(Some(number_before_map::<D>(alloc, own, map)?)),
        None => recode::<MapFormat, C, D>(&MapFormat, alloc, bits),
    }
}

// The code of `own`, followed by the map.
fn number_before_map<D: NumCode>(alloc: Global, own: u64, map: Bits<'_>) -> Result<BitBuf, NoMemory>
    requires { own ≤ MAX_CODED }
    ensures { IfOk result (λ bits. bits ≡ D.code own ++ map.entry) }
{
    let mut bits = BitBuf::new(alloc);
    D::write(&mut bits, own)?;
    bits.append(map)?;
    Ok(bits)
}
