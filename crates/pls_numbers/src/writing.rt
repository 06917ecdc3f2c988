//! Numbers that are written one behind the other.

ghost use Rattle.std.specs.Prelude.{◌≡◌, ◌++◌, [], OnOk};
ghost use Rattle.pls_numbers.specs.Numbers.{AreCoded, codes_of};

use pls_bits::{BitBuf, NumCode};
use pls_streams::NoMemory;

/// Appends the codes of these numbers, one behind the other. The one error is want of memory;
/// nothing is known then of what `bits` holds.
pub fn append_numbers<C: NumCode>(bits: &mut BitBuf, numbers: &[u64]) -> Result<(), NoMemory>
    requires { AreCoded [] numbers.now }
    ensures { OnOk result (bits.new ≡ bits.old ++ codes_of C.code [] numbers.now) }
{
    for number in numbers {
        C::write(bits, *number)?;
    }
    Ok(())
}
