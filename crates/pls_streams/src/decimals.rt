//! Numbers in decimal.

ghost use Rattle.std.specs.Prelude.{◌≡◌, ◌+◌, ◌*◌, ◌/◌, ◌^◌, ◌<◌, ◌≤◌, ◌↔◌, IfNone, IfSome, IsTrue, decimal, length, slice_index, take};
ghost use Rattle.std.specs.Char.{digit_value};
ghost use Rattle.std.specs.Str.Parse.{AllDigits, digits_value};
ghost use Rattle.pls_streams.specs.Decimal.{IsDecimal, IsNoDecimal};

/// The number that a text spells in decimal, without leading zeros, where it is at most `most`;
/// `None` for every other text.
#[tactic(auto, using(crate::proofs::Numerals::numeral_from_decimal, crate::proofs::Numerals::decimal_from_numeral))]
pub fn read_decimal(text: &[u8], most: u64) -> Option<u64>
    ensures spelled { IfSome result (λ number. IsDecimal text.now number) }
    ensures within { IfSome result (λ number. number ≤ most) }
    ensures none { IfNone result (IsNoDecimal text.now most) }
{
    if !is_plain(text) {
        return None;
    }
    let number = digits_number(text)?;
    if number <= most { Some(number) } else { None }
}

// Whether there is a digit, and no zero before other digits.
fn is_plain(text: &[u8]) -> bool
    ensures { IsTrue result ↔ ((0 < length text.now)
        × (slice_index text.now 0 ≡ 48 → length text.now ≡ 1)) }
{
    !text.is_empty() && (text.len() == 1 || text[0] != b'0')
}

// Leading zeros are allowed; `None` for a byte that is no digit, or from 2^64 on.
#[tactic(auto, using(crate::proofs::Numerals::digit_below, crate::proofs::Numerals::front_below))]
fn digits_number(text: &[u8]) -> Option<u64>
    ensures digits { IfSome result (λ _. AllDigits 10 text.now) }
    ensures value { IfSome result (λ number. number ≡ digits_value 10 text.now) }
    ensures none { IfNone result (AllDigits 10 text.now → 2 ^ 64 ≤ digits_value 10 text.now) }
{
    let mut number = 0;
    for byte in text {
        number = with_digit(number, *byte)?;
    }
    Some(number)
}

// `None` where the byte is no digit, or the number would reach 2^64.
fn with_digit(number: u64, byte: u8) -> Option<u64>
    ensures digit { IfSome result (λ _. digit_value byte < 10) }
    ensures value { IfSome result (λ next. next ≡ number * 10 + digit_value byte) }
    ensures none { IfNone result (digit_value byte < 10
        → 2 ^ 64 ≤ number * 10 + digit_value byte) }
{
    match byte {
        b'0'..=b'9' => number.checked_mul(10)?.checked_add((byte - b'0') as u64),
        _ => None,
    }
}

/// Writes a number in decimal, without leading zeros, into the front of `into`, and answers how
/// many digits there are.
pub fn write_decimal(value: u64, into: &mut [u8; 20]) -> usize
    ensures digits { IsDecimal (take result into.new) value }
    ensures within { result ≤ 20 }
{
    put_digits(value, into)
}

// Writes two digits at a time; `into` must have room for all.
#[tactic(auto, using(crate::proofs::Numerals::one_more_digit))]
fn put_digits(value: u64, into: &mut [u8]) -> usize
    requires { length (decimal value) ≤ length into.old }
    ensures digits { IsDecimal (take result into.new) value }
    ensures count { result ≡ length (decimal value) }
{
    if value < 100 {
        return put_few(value, into);
    }
    let front = put_digits(value / 100, into);
    let next = put_last(value / 10, front, into);
    put_last(value, next, into)
}

// `value` is below 100.
#[tactic(auto, using(crate::proofs::Numerals::one_digit, crate::proofs::Numerals::one_more_digit))]
fn put_few(value: u64, into: &mut [u8]) -> usize
    requires few { value < 100 }
    requires room { length (decimal value) ≤ length into.old }
    ensures digits { IsDecimal (take result into.new) value }
    ensures count { result ≡ length (decimal value) }
{
    if value < 10 {
        return put_one(value, into);
    }
    let front = put_one(value / 10, into);
    put_last(value, front, into)
}

// `value` is below 10.
#[tactic(auto, using(crate::proofs::Numerals::one_digit))]
fn put_one(value: u64, into: &mut [u8]) -> usize
    requires one { value < 10 }
    requires room { 1 ≤ length into.old }
    ensures digits { IsDecimal (take result into.new) value }
    ensures count { result ≡ length (decimal value) }
{
    into[0] = b'0' + value as u8;
    1
}

// Writes the last digit of `value` at `front`, behind its others.
#[tactic(auto, using(crate::proofs::Numerals::one_more_digit))]
fn put_last(value: u64, front: usize, into: &mut [u8]) -> usize
    requires several { 10 ≤ value }
    requires others { IsDecimal (take front into.old) (value / 10) }
    requires front { front ≡ length (decimal (value / 10)) }
    requires room { length (decimal value) ≤ length into.old }
    ensures digits { IsDecimal (take result into.new) value }
    ensures count { result ≡ length (decimal value) }
{
    into[front] = b'0' + (value % 10) as u8;
    front + 1
}
