//! The gamma code of numbers.

ghost use Rattle.std.specs.Prelude.{◌≡◌, ◌≤◌, ◌<◌, ◌+◌, ◌-◌, ◌/◌, ◌==◌, Option, Some, None, length};
ghost use Rattle.pls_bits.specs.Gamma.{floor_log, gamma_code, gamma_takes};
ghost use Rattle.pls_bits.specs.declared.num_code.TheConstants.{MAX_CODED};
ghost use Rattle.pls_bits.specs.laws.GammaLaws.{gamma_code-grows, gamma_takes-code, gamma_takes-only, gamma_short};

use crate::bit_buf::BitBuf;
use crate::cursor::Cursor;
use crate::num_code::{MAX_CODED, NumCode};
use pls_streams::NoMemory;

/// The gamma code of Elias (1975, "Universal codeword sets and representations of the integers").
/// The code of a number `x` is floor(log2(x + 1)) zeros and then `x + 1` in binary: that of 0 is
/// `1`, and that of 4 is `00101`. No code has more than [`MAX_CODE_BITS`] bits.
#[derive(Clone, Copy, Debug, PartialEq, Eq)]
pub struct Gamma;

impl NumCode for Gamma {
    ghost code = { gamma_code };

    ghost takes = { gamma_takes };

    #[inline]
    fn write(buf: &mut BitBuf, number: u64) -> Result<(), NoMemory> {
        let zeros = log_of_next(number);
        buf.push_digits(0, zeros, number + 1, zeros + 1)
    }

    // The next 64 bits mostly show the whole code. Some of them may lie behind the last bit: a code
    // that would need them is longer than what is left, and none is read. The cursor moves only
    // where a code comes.
    #[inline(always)]
    fn read(cursor: &mut Cursor<'_>) -> Option<u64> {
        let ahead = cursor.ahead();
        let zeros = ahead.leading_zeros() as usize;
        let size = 2 * zeros + 1;
        if size > cursor.len() {
            return None;
        }
        if size <= 64 {
            cursor.skip(size);
            return Some((ahead >> (64 - size)) - 1);
        }
        if zeros > 62 {
            return None;
        }
        cursor.skip(zeros);
        let behind = cursor.ahead();
        cursor.skip(zeros + 1);
        Some((behind >> (63 - zeros)) - 1)
    }

    fn length(number: u64) -> u64 {
        2 * log_of_next(number) as u64 + 1
    }

    ghost takes_codes = { λ number rest small. gamma_takes-code number rest small };

    ghost takes_only = { λ bits number rest taken. gamma_takes-only bits number rest taken };

    ghost grows_law = { λ small great order _. gamma_code-grows small great order };

    ghost short_law = { λ number _. gamma_short number };
}

// To the base 2, rounded down: the number of zeros that begin the gamma code.
#[inline(always)]
pub(crate) fn log_of_next(number: u64) -> usize
    requires { number ≤ MAX_CODED }
    ensures value { result ≡ floor_log (number + 1) }
    ensures small { result ≤ 62 }
{
    (number + 1).ilog2() as usize
}
