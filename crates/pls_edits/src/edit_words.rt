//! The lines of an edits part, read without memory.

ghost use Rattle.std.specs.Prelude.{◌≡◌, ◌≢◌, ℕ, true, List, ◌∷◌, ◌++◌, IfNone, IfOk, IfSome};
ghost use Rattle.pls_edits.specs.EditsText.{FitsEdit, edit_line, is_round};
ghost use Rattle.pls_edits.specs.inner.Words.{IsPlain, IsPlainEdit, bits_of};
ghost use Rattle.pls_edits.specs.declared.edit.Edit.{Edit};
ghost use Rattle.pls_edits.specs.declared.edit_line.EditLine.{EditLine};
ghost use Rattle.pls_edits.specs.declared.edit_line.EditLine.TheVariants.{Edit as Makes};

use crate::edit::Edit;
use crate::edit_line::EditLine;
use crate::number_words::{state_after, three_numbers};
use pls_closing::{ClosingLine, OwnLine};
use pls_configuration::{MAX_NUM, MAX_WORD};
use pls_labelfile::LabelLine;
use pls_lines::{HeadingWord, LineKind, after_line, one_number, two_numbers};
use pls_streams::NoMemory;
use std::alloc::Global;
use std::marker::Model;

/// The heading of an edits part.
#[derive(Drop)]
pub struct EditsWord;

impl HeadingWord for EditsWord {
    ghost use Rattle.std.specs.Prelude.{codes};
    ghost use Rattle.pls_edits.specs.laws.EditLaws.{edits_word};

    ghost word = { codes "edits" };

    ghost word_law = { edits_word };

    fn word() -> &'static [u8] {
        b"edits"
    }
}

/// What a line of an edits part says, seen as the [`EditLine`]. The word for a label's bits is
/// lent.
#[derive(Drop)]
pub(crate) struct EditWords<'a> {
    words: Words<'a>,
}

/// The line of a label, or any other.
#[derive(Drop)]
pub(crate) enum Words<'a> {
    // A line that gives a label.
    Label(LabelLine<'a>),
    // Any other.
    Plain(EditLine),
}

impl<'a> Model for EditWords<'a> {
    ghost use Rattle.pls_edits.specs.declared.edit_line.EditLine.{EditLine};
    ghost use Rattle.pls_edits.specs.inner.Words.{line_said};

    ghost Value = { EditLine };

    ghost view = { λ line. line_said line.words };
}

impl<'a> LineKind<'a> for EditWords<'a> {
    ghost use Rattle.pls_edits.specs.EditsText.{FitsEdit, edit_line};
    ghost use Rattle.pls_edits.specs.laws.EditLaws.{edit_lines};

    ghost written = { edit_line };

    ghost Fits = { FitsEdit };

    ghost kind_law = { edit_lines };

    fn read(text: &'a [u8]) -> Option<(Self, &'a [u8])> {
        if let Some((label, rest)) = LabelLine::read(text) {
            let words = Words::Label(label);
            return Some((EditWords { words }, rest));
        }
        let (line, rest) = plain_line(text)?;
        let words = Words::Plain(line);
        Some((EditWords { words }, rest))
    }
}

impl<'a> ClosingLine<'a> for EditWords<'a> {
    ghost use Rattle.std.specs.Prelude.{true};
    ghost use Rattle.pls_edits.specs.EditsText.{is_round};
    ghost use Rattle.pls_edits.specs.inner.Words.{bits_of};
    ghost use Rattle.pls_edits.specs.laws.EditLaws.{some_round};

    ghost closes = { is_round };

    ghost bits = { bits_of };

    ghost may_lack = { true };

    ghost closing_law = { some_round };

    fn closes(&self) -> bool
        ensures { result ≡ is_round self.now }
    {
        matches!(&self.words, Words::Plain(EditLine::Round))
    }

    fn bits(&self) -> u64
        ensures { result ≡ bits_of self.now }
    {
        match &self.words {
            Words::Label(label) => label.len() as u64,
            Words::Plain(EditLine::Edit(Edit::Label { bits, .. })) => bits.len() as u64,
            Words::Plain(_) => 0,
        }
    }

    fn may_lack() -> bool
        ensures { result ≡ true }
    {
        true
    }
}

/// The bits of a label on their own.
impl<'a> OwnLine<'a> for EditWords<'a> {
    type Line = EditLine;

    ghost line = { λ words. words };

    fn into_line(self, alloc: Global) -> Result<EditLine, NoMemory> {
        match self.words {
            Words::Label(label) => {
                let bits = label.to_bits(alloc)?;
                let id = label.id();
                Ok(EditLine::Edit(Edit::Label { id, bits }))
            }
            Words::Plain(line) => Ok(line),
        }
    }
}

// A line that gives no label, and the text after it; `None` where none stands there.
fn plain_line(text: &[u8]) -> Option<(EditLine, &[u8])>
    ensures fits { IfSome result (λ read. FitsEdit read.0) }
    ensures stands { IfSome result (λ read. text.now ≡ edit_line read.0 ++ 10 ∷ read.1.now) }
    ensures none { IfNone result ((line : EditLine) (rest : List ℕ) → IsPlain line → FitsEdit line
        → text.now ≢ edit_line line ++ 10 ∷ rest) }
{
    if let Some(rest) = after_line(text, b"round") {
        return Some((EditLine::Round, rest));
    }
    let (edit, rest) = plain_edit(text)?;
    Some((EditLine::Edit(edit), rest))
}

// An edit that gives no label, and the text after it; `None` where none stands there.
fn plain_edit(text: &[u8]) -> Option<(Edit, &[u8])>
    ensures fits { IfSome result (λ read. FitsEdit (Makes read.0)) }
    ensures stands { IfSome result
        (λ read. text.now ≡ edit_line (Makes read.0) ++ 10 ∷ read.1.now) }
    ensures none { IfNone result ((edit : Edit) (rest : List ℕ) → IsPlainEdit edit
        → FitsEdit (Makes edit) → text.now ≢ edit_line (Makes edit) ++ 10 ∷ rest) }
{
    if let Some((id, state, rest)) = state_after(text, b"state") {
        return Some((Edit::State { id, state }, rest));
    }
    if let Some((a, b, weight, rest)) = three_numbers(text, b"weight", MAX_WORD) {
        let weight = weight as u32;
        return Some((Edit::Weight { a, b, weight }, rest));
    }
    if let Some((a, b, weight, rest)) = three_numbers(text, b"link", MAX_WORD) {
        let weight = weight as u32;
        return Some((Edit::Link { a, b, weight }, rest));
    }
    if let Some((a, b, rest)) = two_numbers(text, b"unlink", MAX_WORD) {
        let (a, b) = (a as u32, b as u32);
        return Some((Edit::Unlink { a, b }, rest));
    }
    if let Some((id, mark, num, rest)) = three_numbers(text, b"join", MAX_NUM) {
        return Some((Edit::Join { id, mark, num }, rest));
    }
    let (id, rest) = one_number(text, b"leave", MAX_WORD)?;
    Some((Edit::Leave { id: id as u32 }, rest))
}
