//! The delta code of numbers.

ghost use Rattle.std.specs.Prelude.{◌≡◌, ◌≤◌, ◌<◌, ◌+◌, Option, Some, None, length};
ghost use Rattle.pls_bits.specs.Delta.{delta_code, delta_takes};
ghost use Rattle.pls_bits.specs.Gamma.{behind_one, floor_log};
ghost use Rattle.pls_bits.specs.NumberCode.{Takes};
ghost use Rattle.pls_bits.specs.laws.DeltaLaws.{delta_code-grows, delta_takes-code, delta_takes-only, delta_short};

use crate::bit_buf::BitBuf;
use crate::cursor::Cursor;
use crate::gamma::{Gamma, log_of_next};
use crate::num_code::NumCode;
use pls_streams::NoMemory;

/// The delta code of Elias (1975, "Universal codeword sets and representations of the integers").
/// The code of a number `x` is the gamma code of n = floor(log2(x + 1)) and then the last n binary
/// digits of `x + 1`: that of 0 is `1`, and that of 4 is `01101`. No code has more than 73 bits.
#[derive(Clone, Copy, Debug, PartialEq, Eq)]
pub struct Delta;

impl NumCode for Delta {
    ghost code = { delta_code };

    ghost takes = { delta_takes };

    #[inline]
    fn write(buf: &mut BitBuf, number: u64) -> Result<(), NoMemory> {
        let count = log_of_next(number);
        let zeros = log_of_next(count as u64);
        let digits = number + 1 - (1 << count);
        buf.push_digits(count as u64 + 1, 2 * zeros + 1, digits, count)
    }

    // The cursor moves only where the count and all of its digits come.
    #[inline]
    fn read(cursor: &mut Cursor<'_>) -> Option<u64> {
        let mut ahead = cursor.rest().cursor();
        let count = Gamma::read(&mut ahead)?;
        let number = digits_behind_one(&mut ahead, count)?;
        *cursor = ahead;
        Some(number)
    }

    fn length(number: u64) -> u64 {
        let count = log_of_next(number) as u64;
        Gamma::length(count) + count
    }

    ghost takes_codes = { λ number rest small. delta_takes-code number rest small };

    ghost takes_only = { λ bits number rest taken. delta_takes-only bits number rest taken };

    ghost grows_law = { λ small great order _. delta_code-grows small great order };

    ghost short_law = { λ number _. delta_short number };
}

// A one and the next `count` bits as a binary number, less 1.
#[inline(always)]
fn digits_behind_one(cursor: &mut Cursor<'_>, count: u64) -> Option<u64>
    ensures { Takes (behind_one count) result cursor.old cursor.new }
{
    if count > 62 {
        return None;
    }
    if count > cursor.len() as u64 {
        return None;
    }
    if count == 0 {
        return Some(0);
    }
    let ahead = cursor.ahead();
    cursor.skip(count as usize);
    Some((1 << count) - 1 + (ahead >> (64 - count)))
}
