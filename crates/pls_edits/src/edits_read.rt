//! An edits part that is read once: what its lines say is kept while it is passed.

ghost use Rattle.std.specs.Prelude.{◌≡◌, ◌+◌, ◌<◌, ◌^◌, List, IfErr, IfOk};
ghost use Rattle.pls_edits.specs.EditsText.{AreFew, IsEditsRefusal, TellsEdits};
ghost use Rattle.pls_edits.specs.declared.edit_line.EditLine.{EditLine};

use crate::edit_line::EditLine;
use crate::edit_words::{EditWords, EditsWord};
use crate::edits_text::EditsText;
use pls_closing::ClosingTally;
use pls_lines::{Lines, Part, ReadOnce, keep_list};
use pls_streams::TextError;
use std::alloc::Global;
use std::marker::Model;

/// The text of an edits part, and its edits and rounds where they were kept while it was passed.
/// Seen as its text.
#[derive(Drop)]
pub struct ReadEdits<'a> {
    text: EditsText<'a>,
    list: Option<Vec<EditLine>>,
}

impl<'a> Model for ReadEdits<'a> {
    ghost use Rattle.std.specs.Prelude.{IfSome};
    ghost use Rattle.pls_edits.specs.EditsText.{TellsEdits, WrittenEdits};

    ghost Value = { WrittenEdits };

    ghost view = { λ part. part.text };

    ghost invariant = { λ part. IfSome part.list (λ list. TellsEdits part.text.text list.items) };
}

impl<'a> Part<'a> for ReadEdits<'a> {
    ghost use Rattle.pls_edits.specs.EditsText.{IsEditsPart, PassesEdits};
    ghost use Rattle.pls_edits.specs.laws.EditLaws.{edits_some_part};

    ghost Format = { IsEditsPart };

    ghost Passed = { PassesEdits };

    ghost part_law = { edits_some_part };

    fn pass(lines: &mut Lines<'a>) -> Result<Self, TextError> {
        let text = EditsText::pass(lines)?;
        Ok(ReadEdits { text, list: None })
    }
}

impl<'a> ReadOnce<'a> for ReadEdits<'a> {
    fn keep(alloc: Global, lines: &mut Lines<'a>) -> Result<Self, TextError> {
        match keep_list::<'a, ClosingTally<EditsWord, EditWords<'a>>>(alloc, lines) {
            Some((part, list)) => Ok(ReadEdits {
                text: EditsText { part },
                list: Some(list),
            }),
            None => Self::pass(lines),
        }
    }
}

impl<'a> ReadEdits<'a> {
    /// How many lines stand between heading and `end`, and `u64::MAX` at the most.
    pub fn events(&self) -> u64
        ensures { result ≡ self.now.events }
    {
        self.text.events()
    }

    /// How many of them ask for a round, and `u64::MAX` at the most.
    pub fn rounds(&self) -> u64
        ensures { result ≡ self.now.rounds }
    {
        self.text.rounds()
    }

    /// The number of the line at a place, or of `end` behind the last one.
    pub fn number_of(&self, place: usize) -> u64
        requires { place + 1 < 2 ^ 63 }
        ensures { result ≡ self.now.number + 1 + place }
    {
        self.text.number_of(place)
    }

    /// The edits and rounds, with the refusals of [`EditsText::list`]. The text is read again only
    /// where they were not kept.
    #[tactic(auto, using(crate::proofs::Told::one_told))]
    pub fn into_list(self, alloc: Global) -> Result<Vec<EditLine>, TextError>
        ensures ok { (lines : List EditLine) → TellsEdits self.entry.text lines
            → IfOk result (λ list. list.items ≡ lines) }
        ensures few { IfOk result (λ list. AreFew list.items) }
        ensures refused { (lines : List EditLine) → TellsEdits self.entry.text lines
            → IfErr result (λ error. IsEditsRefusal lines error) }
    {
        let ReadEdits { text, list } = self;
        text.check()?;
        match list {
            Some(list) => Ok(list),
            None => text.list(alloc),
        }
    }
}
