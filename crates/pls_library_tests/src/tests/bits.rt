//! Known hex texts, and digits that are refused.

use pls_bits::{BitBuf, Bits, Cursor, HexError, from_hex, spells_bits};
use pls_streams::NoMemory;
use std::alloc::Global;
use std::process::Abort;
use std::test::Fail;

// `text` is made of `0` and `1`.
pub(super) fn bits_of(alloc: Global, text: &str) -> Result<BitBuf, NoMemory> {
    let mut buf = BitBuf::new(alloc);
    for byte in text.as_bytes() {
        buf.push(*byte == b'1')?;
    }
    Ok(buf)
}

// Tests both writing and reading.
fn is_text(alloc: Global, bits: &str, digits: &str) -> Result<bool, NoMemory> {
    let buf = bits_of(alloc, bits)?;
    let written = buf.bits().to_hex(alloc)?;
    let is_read = match from_hex(alloc, buf.len(), digits.as_bytes()) {
        Ok(read) => read.bits().equal(buf.bits()),
        Err(_) => false,
    };
    Ok(
        is_read
            && written.as_bytes() == digits.as_bytes()
            && spells_bits(buf.len(), digits.as_bytes()),
    )
}

// Bits, and their text.
const TEXTS: &[(&str, &str)] = &[
    ("", ""),
    ("0", "00"),
    ("10", "80"),
    ("11111110", "fe"),
    ("00110001100011011", "318d80"),
    (
        "000000010010001101000101011001111000100110101011110011011110111110001",
        "0123456789abcdef88",
    ),
];

#[test]
fn known_texts_both_ways(rt: HostRuntime) -> Result<(), Fail> {
    for (bits, text) in TEXTS {
        assert!(rt; is_text(rt.alloc(), bits, text)?, "{text} of {bits}");
    }
    Ok(())
}

// `None` where `digits` spell `len` bits.
fn refusal(alloc: Global, len: usize, digits: &str) -> Option<HexError> {
    if spells_bits(len, digits.as_bytes()) {
        return None;
    }
    from_hex(alloc, len, digits.as_bytes()).err()
}

// A number of bits, digits, and why they are refused.
const REFUSED: &[(usize, &str, HexError)] = &[
    (0, "00", HexError::Length),
    (9, "80", HexError::Length),
    (8, "0", HexError::Length),
    (8, "FE", HexError::Digit),
    (4, "0 ", HexError::Digit),
    (7, "01", HexError::Spare),
    (17, "318d40", HexError::Spare),
];

#[test]
fn refused_digits(rt: HostRuntime) {
    for (len, text, error) in REFUSED {
        assert!(rt;
            refusal(rt.alloc(), *len, text) == Some(*error),
            "{text} for {len} bits"
        );
    }
}

pub(super) fn bits_of_both(alloc: Global, front: &str, back: &str) -> Result<BitBuf, NoMemory> {
    let mut buf = bits_of(alloc, front)?;
    append(alloc, &mut buf, back)?;
    Ok(buf)
}

fn append(alloc: Global, buf: &mut BitBuf, text: &str) -> Result<(), NoMemory> {
    let bits = bits_of(alloc, text)?;
    buf.append(bits.bits())
}

// The cursor must hold four bits: `0`, the two of `front`, `1`.
fn assert_cursor(rt: &impl Abort, cursor: &mut Cursor<'_>, front: Bits<'_>) -> Result<(), Fail> {
    assert!(rt; cursor.bit() == Some(false), "the first bit");
    assert!(rt; cursor.take(4).is_none(), "only three bits are left");
    let two = cursor.take(2).ok_or("two bits")?;
    assert!(rt; two.equal(front), "the two bits behind it");
    assert!(rt; cursor.rest().len() == 1, "one bit is left");
    assert!(rt; cursor.bit() == Some(true), "the last bit");
    assert!(rt; cursor.bit().is_none(), "no bit is left");
    assert!(rt; cursor.rest().is_empty(), "the rest is empty");
    Ok(())
}

#[test]
fn a_cursor_stays_where_too_little_is_left(rt: HostRuntime) -> Result<(), Fail> {
    let front = bits_of(rt.alloc(), "10")?;
    let buf = bits_of_both(rt.alloc(), "101", "01")?;
    assert_eq!(rt; buf.len(), 5);
    assert_cursor(&rt, &mut buf.bits().cut(1, 5).cursor(), front.bits())
}

pub(super) fn zeros_and_ones(alloc: Global, zeros: usize, ones: usize) -> Result<BitBuf, NoMemory> {
    let mut buf = BitBuf::new(alloc);
    for place in 0..zeros.saturating_add(ones) {
        buf.push(place >= zeros)?;
    }
    Ok(buf)
}
