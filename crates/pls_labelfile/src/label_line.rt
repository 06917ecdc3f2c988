//! The line of a label.

ghost use Rattle.std.specs.Prelude.{◌≡◌, ◌≢◌, ◌≤◌, ◌<◌, ◌+◌, ◌^◌, ◌↔◌, ◌∷◌, ◌++◌, ℕ, List, length, slice_set, IfNone, IfOk, IfSome, IsTrue};
ghost use Rattle.pls_configuration.specs.declared.limits.TheConstants.{MAX_BITS};
ghost use Rattle.pls_lines.specs.LineKind.{Says};
ghost use Rattle.pls_lines.specs.Lines.{Stands};
ghost use Rattle.pls_bits.specs.Hex.{hex_digits};
ghost use Rattle.pls_labels.specs.Stored.{cost};
ghost use Rattle.pls_labelfile.specs.LabelsText.{FitsLabel, NamedLabel, label_line, label_of_words};
ghost use Rattle.pls_labelfile.specs.inner.HexWord.{IsHexWord, SaysLabels, word_length};

use pls_bits::{BitBuf, from_hex, spells_bits};
use pls_configuration::MAX_BITS;
use pls_labels::LabelRoom;
use pls_lines::{LineKind, after_word, bytes_before, is_same, number_before, u32_before};
use pls_streams::NoMemory;
use std::alloc::Global;
use std::marker::Model;

/// What a line `label ID LEN HEX` says, seen as the label. The word for its bits is lent.
#[derive(Drop)]
pub struct LabelLine<'a> {
    id: u32,
    len: usize,
    hex: &'a [u8],
}

impl<'a> Model for LabelLine<'a> {
    ghost use Rattle.pls_labelfile.specs.LabelsText.{NamedLabel};
    ghost use Rattle.pls_labelfile.specs.inner.HexWord.{IsHexWord, word_bits};

    ghost Value = { NamedLabel };

    ghost view = { λ line. record { id = line.id; bits = word_bits line.len line.hex.now } };

    ghost invariant = { λ line. IsHexWord line.len line.hex.now };
}

impl<'a> LineKind<'a> for LabelLine<'a> {
    ghost use Rattle.pls_labelfile.specs.LabelsText.{FitsLabel, label_line};
    ghost use Rattle.pls_labelfile.specs.laws.LabelLaws.{label_lines};

    ghost written = { label_line };

    ghost Fits = { FitsLabel };

    ghost kind_law = { label_lines };

    fn read(text: &'a [u8]) -> Option<(Self, &'a [u8])> {
        let (id, len, hex, rest) = label_words(text)?;
        if is_hex_word(len, hex) {
            Some((LabelLine { id, len, hex }, rest))
        } else {
            None
        }
    }
}

impl<'a> LabelLine<'a> {
    /// The identity that the label names.
    pub fn id(&self) -> u32
        ensures { result ≡ self.now.id }
    {
        self.id
    }

    /// How many bits the label has.
    pub fn len(&self) -> usize
        ensures { result ≡ length self.now.bits }
    {
        self.len
    }

    // The digits were tested when the line was read, so not again here.
    pub(crate) fn put_into(&self, room: &mut LabelRoom, place: usize)
        requires within { place < length room.old.labels }
        requires room { cost (length self.now.bits) ≤ room.old.spare }
        ensures replaced { room.new.labels ≡ slice_set room.old.labels place self.now.bits }
        ensures spare { room.new.spare + cost (length self.now.bits) ≡ room.old.spare }
    {
        room.replace_spare_hex(place, self.len(), self.digits());
    }

    /// The bits of the label, on their own. The one error is want of memory.
    pub fn to_bits(&self, alloc: Global) -> Result<BitBuf, NoMemory>
        ensures { IfOk result (λ bits. bits ≡ self.now.bits) }
    {
        // The digits were tested when the line was read.
        match from_hex(alloc, self.len(), self.digits()) {
            Ok(bits) => Ok(bits),
            Err(_) => Err(NoMemory),
        }
    }

    // The hex digits of the bits; empty where there is no bit.
    fn digits(&self) -> &'a [u8]
        ensures { hex_digits self.now.bits ≡ result.now }
    {
        if self.len == 0 { b"" } else { self.hex }
    }

    // Like `read`, for text read before: the digits are not tested.
    pub(crate) fn read_again(text: &'a [u8]) -> Option<(LabelLine<'a>, &'a [u8])>
        requires { SaysLabels text.now }
        ensures fits { IfSome result (λ read. FitsLabel read.0) }
        ensures stands { IfSome result (λ read. text.now ≡ label_line read.0 ++ 10 ∷ read.1.now) }
        ensures none { IfNone result (Stands (Says FitsLabel label_line) text.now → ⊥) }
    {
        let (id, len, hex, rest) = label_words(text)?;
        Some((LabelLine { id, len, hex }, rest))
    }
}

// Splits a line `label ID LEN HEX`, testing only the length of the last word.
fn label_words<'a>(text: &'a [u8]) -> Option<(u32, usize, &'a [u8], &'a [u8])>
    ensures id { IfSome result (λ words. words.0 < 2 ^ 32) }
    ensures short { IfSome result (λ words. words.1 ≤ MAX_BITS) }
    ensures long { IfSome result (λ words. length words.2.now ≡ word_length words.1) }
    ensures stands { IfSome result (λ words.
        text.now ≡ label_of_words words.0 words.1 words.2.now ++ 10 ∷ words.3.now) }
    ensures none { IfNone result ((label : NamedLabel) (rest : List ℕ) → FitsLabel label
        → text.now ≢ label_line label ++ 10 ∷ rest) }
{
    let words = after_word(text, b"label")?;
    let (id, words) = u32_before(words, b' ')?;
    let (len, last) = number_before(words, b' ', MAX_BITS)?;
    let len = len as usize;
    let (hex, rest) = bytes_before(last, word_length_of(len), b'\n')?;
    Some((id, len, hex, rest))
}

// In bytes, for a label of `len` bits.
fn word_length_of(len: usize) -> usize
    requires { len ≤ MAX_BITS }
    ensures { result ≡ word_length len }
{
    if len == 0 { 1 } else { 2 * len.div_ceil(8) }
}

// Whether `word` spells `len` bits; looks at each digit once.
fn is_hex_word(len: usize, word: &[u8]) -> bool
    ensures { IsTrue result ↔ IsHexWord len word.now }
{
    if len == 0 {
        is_same(word, b"-")
    } else {
        spells_bits(len, word)
    }
}
