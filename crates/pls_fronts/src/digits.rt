//! Numbers at the front of a text.

ghost use Rattle.std.specs.Prelude.{◌≡◌, option_map};
ghost use Rattle.pls_fronts.specs.Front.{found_front};
ghost use Rattle.pls_fronts.specs.NumberFront.{digits_ahead, number_front};

use pls_streams::read_decimal;

/// The number that all digits at the front of a text spell, and what follows them; `None` where
/// they are not the decimal of a number that is at most `most`.
pub fn number_front(text: &[u8], most: u64) -> Option<(u64, &[u8])>
    ensures { option_map found_front result ≡ number_front most text.now }
{
    let (digits, rest) = text.split_at(digits_ahead(text));
    let number = read_decimal(digits, most)?;
    Some((number, rest))
}

fn digits_ahead(text: &[u8]) -> usize
    ensures { result ≡ digits_ahead text.now }
{
    let mut count = 0;
    for character in text {
        if !character.is_ascii_digit() {
            return count;
        }
        count += 1;
    }
    count
}
