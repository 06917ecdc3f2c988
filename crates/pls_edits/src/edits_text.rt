//! The text of edits: scanned without memory, and read as the list of its lines.

ghost use Rattle.std.specs.Prelude.{◌≡◌, ◌<◌, ◌+◌, ◌^◌, List, IfErr, IfOk, OnErr, OnOk};
ghost use Rattle.pls_lines.specs.Lines.{IsFormFault};
ghost use Rattle.pls_edits.specs.EditsText.{AreFew, IsEditsPart, IsEditsRefusal, PassesEdits, TellsEdits};
ghost use Rattle.pls_edits.specs.declared.edit_line.EditLine.{EditLine};

use crate::edit_line::EditLine;
use crate::edit_words::{EditWords, EditsWord};
use pls_closing::{ClosingTally, check_limits};
use pls_lines::{Lines, ListText, Part, scan};
use pls_streams::TextError;
use std::alloc::Global;
use std::marker::Model;

/// The text of an edits part, which it lends, the number of its heading line, and how many lines
/// and how many rounds it has.
#[derive(Drop)]
pub struct EditsText<'a> {
    pub(crate) part: ListText<'a, ClosingTally<EditsWord, EditWords<'a>>>,
}

impl<'a> Model for EditsText<'a> {
    ghost use Rattle.pls_edits.specs.EditsText.{HasEdits, WrittenEdits, written_edits};

    ghost Value = { WrittenEdits };

    ghost view = { λ text. written_edits text.part.lines.rest text.part.lines.number
        text.part.kept.lines text.part.kept.closing };

    ghost invariant = { λ text. HasEdits (written_edits text.part.lines.rest text.part.lines.number
        text.part.kept.lines text.part.kept.closing) };
}

impl<'a> Part<'a> for EditsText<'a> {
    ghost use Rattle.pls_edits.specs.EditsText.{IsEditsPart, PassesEdits};
    ghost use Rattle.pls_edits.specs.laws.EditLaws.{edits_some_part};

    ghost Format = { IsEditsPart };

    ghost Passed = { PassesEdits };

    ghost part_law = { edits_some_part };

    fn pass(lines: &mut Lines<'a>) -> Result<Self, TextError> {
        let part = ListText::<'a, ClosingTally<EditsWord, EditWords<'a>>>::pass(lines)?;
        Ok(EditsText { part })
    }
}

/// Reads one edits part, which the reader passes. It takes no memory.
///
/// The one refusal is `Form`, with the number of the first line that is not of the form; then the
/// reader stays.
pub fn scan_edits<'a>(lines: &mut Lines<'a>) -> Result<EditsText<'a>, TextError>
    ensures ok { IfOk result (λ part. PassesEdits lines.old lines.new part) }
    ensures form { IfErr result (λ error. IsFormFault IsEditsPart lines.old error) }
    ensures unchanged { OnErr result (lines.new ≡ lines.old) }
{
    scan(lines)
}

impl<'a> EditsText<'a> {
    /// How many lines stand between heading and `end`, and `u64::MAX` at the most.
    pub fn events(&self) -> u64
        ensures { result ≡ self.now.events }
    {
        self.part.kept.lines
    }

    /// How many of them ask for a round, and `u64::MAX` at the most.
    pub fn rounds(&self) -> u64
        ensures { result ≡ self.now.rounds }
    {
        self.part.kept.closing
    }

    /// The number of the line at a place, or of `end` behind the last one.
    pub fn number_of(&self, place: usize) -> u64
        requires { place + 1 < 2 ^ 63 }
        ensures { result ≡ self.now.number + 1 + place }
    {
        self.part.number_of(place)
    }

    /// The edits and rounds, in the order of their lines.
    ///
    /// `Limit(Events)` where there are more lines than [`MAX_LINES`](pls_configuration::MAX_LINES),
    /// else `Limit(Rounds)` where there are more rounds than
    /// [`MAX_ROUNDS`](pls_configuration::MAX_ROUNDS), before any memory is taken; `NoMemory` for
    /// want of memory.
    pub fn list(&self, alloc: Global) -> Result<Vec<EditLine>, TextError>
        ensures ok { (lines : List EditLine) → TellsEdits self.now.text lines
            → IfOk result (λ list. list.items ≡ lines) }
        ensures few { IfOk result (λ list. AreFew list.items) }
        ensures refused { (lines : List EditLine) → TellsEdits self.now.text lines
            → IfErr result (λ error. IsEditsRefusal lines error) }
    {
        self.check()?;
        Ok(self.part.list(alloc)?)
    }

    // Refuses more lines than the limits allow.
    pub(crate) fn check(&self) -> Result<(), TextError>
        ensures few { OnOk result ((lines : List EditLine) → TellsEdits self.now.text lines
            → AreFew lines) }
        ensures refused { IfErr result (λ error. (lines : List EditLine)
            → TellsEdits self.now.text lines → IsEditsRefusal lines error) }
    {
        check_limits(self.part.kept.lines, self.part.kept.closing)
    }
}
