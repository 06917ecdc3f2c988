//! The limits of a part whose last line closes it.

ghost use Rattle.std.specs.Prelude.{◌≡◌, ℕ, IfErr, OnOk};
ghost use Rattle.pls_streams.specs.Steps.{capped};
ghost use Rattle.pls_closing.specs.Closing.{AreFew, IsBeyond};

use pls_configuration::{MAX_LINES, MAX_ROUNDS};
use pls_streams::{Quantity, TextError};

/// Whether so many lines, and so many that close, are within their limits. The counts are those of
/// a [`ClosingTally`](crate::ClosingTally), which stop at `u64::MAX`.
///
/// `Limit(Events)` where there are more lines than [`MAX_LINES`], else `Limit(Rounds)` where more
/// of them close than [`MAX_ROUNDS`].
pub fn check_limits(lines: u64, closing: u64) -> Result<(), TextError>
    ensures few { OnOk result ((all ends : ℕ) → lines ≡ capped all → closing ≡ capped ends
        → AreFew all ends) }
    ensures beyond { IfErr result (λ error. (all ends : ℕ) → lines ≡ capped all
        → closing ≡ capped ends → IsBeyond all ends error) }
{
    if lines > MAX_LINES as u64 {
        return Err(TextError::Limit(Quantity::Events));
    }
    if closing > MAX_ROUNDS as u64 {
        return Err(TextError::Limit(Quantity::Rounds));
    }
    Ok(())
}
