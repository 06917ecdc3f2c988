//! Numbers that are kept in half of their bytes.

ghost use Rattle.std.specs.Prelude.{◌≡◌, nat_lt};

/// Whether a number is below 2^32, as each number of a right label is.
#[inline(always)]
pub fn is_short(number: u64) -> bool
    ensures { result ≡ nat_lt number 4294967296 }
{
    number < 1 << 32
}
