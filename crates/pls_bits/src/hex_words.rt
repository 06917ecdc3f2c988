//! Hex digits as words of bits, sixteen digits a word.

ghost use Rattle.std.specs.Prelude.{◌≡◌, ◌≤◌, ◌+◌, ◌*◌, ◌/◌, ◌++◌, Bool, IsOk, List, OnErr, OnOk, drop, length, replicate, take, true};
ghost use Rattle.std.specs.List.{list_all};
ghost use Rattle.std.specs.Vec.{vec_capacity};
ghost use Rattle.pls_bits.specs.Hex.{Spells, hex_digits, is_lower_digit};
ghost use Rattle.pls_bits.specs.Words.{bits_of};
ghost use Rattle.pls_bits.specs.inner.Word.{bits_of_word};

use crate::hex_bytes::eight_bytes;
use crate::words::make_room;
use pls_streams::NoMemory;
use std::simd::prelude::*;

// One lane of the first eight, then one of the second eight.
const HALVES: [usize; 16] = [0, 8, 1, 9, 2, 10, 3, 11, 4, 12, 5, 13, 6, 14, 7, 15];

/// Appends the `len` bits whose hex text `digits` is to some words, from a word of their own on.
/// The digits are not tested. It takes no memory where there is room, and for want of memory the
/// words stay.
pub fn append_hex(words: &mut Vec<u64>, len: usize, digits: &[u8]) -> Result<(), NoMemory>
    requires { Spells len digits.now }
    ensures put { OnOk result ((bits : List Bool) → length bits ≡ len → hex_digits bits ≡ digits.now
        → bits_of words.new.items (64 * length words.old.items) len ≡ bits) }
    ensures kept { OnOk result (take (length words.old.items) words.new.items ≡ words.old.items) }
    ensures long { OnOk result (length words.new.items
        ≡ length words.old.items + (len + 63) / 64) }
    ensures unchanged { OnErr result (words.new.items ≡ words.old.items) }
    ensures succeeds { length words.old.items + (len + 63) / 64 ≤ vec_capacity words.old
        → IsOk result }
    ensures capacity { vec_capacity words.old ≤ vec_capacity words.new }
{
    let more = len.div_ceil(64);
    make_room(words, more)?;
    for k in 0..more {
        words.push(word_at(digits, k))?;
    }
    Ok(())
}

// Zeros stand behind the last digit.
fn word_at(digits: &[u8], k: usize) -> u64
    requires within { 16 * k ≤ length digits.now }
    requires lower { list_all is_lower_digit digits.now ≡ true }
    ensures { hex_digits (bits_of_word result)
        ≡ take 16 (drop (16 * k) (digits.now ++ replicate 16 48)) }
{
    let rest = &digits[16 * k..];
    if rest.len() >= 16 {
        return word_of(&rest[..16]);
    }
    let mut padded = [b'0'; 16];
    padded[..rest.len()].copy_from_slice(rest);
    word_of(&padded)
}

// There are sixteen digits.
fn word_of(digits: &[u8]) -> u64
    requires long { length digits.now ≡ 16 }
    requires lower { list_all is_lower_digit digits.now ≡ true }
    ensures { hex_digits (bits_of_word result) ≡ digits.now }
{
    u64::from_be_bytes(eight_bytes(u8x16::from_slice(digits)).to_array())
}

// All digits at once: the upper and the lower half of each byte in turn, 48 above the digits and 87
// above the letters, which begin at 10.
pub(crate) fn word_digits(word: u64) -> [u8; 16]
    ensures { result ≡ hex_digits (bits_of_word word) }
{
    let bytes = u8x8::from_array(word.to_be_bytes());
    let values = (bytes >> u8x8::splat(4)).shuffle(bytes & u8x8::splat(15), HALVES);
    let letters = values.simd_ge(u8x16::splat(10));
    (values + letters.select(u8x16::splat(87), u8x16::splat(48))).to_array()
}
