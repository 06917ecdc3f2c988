//! The text of a watch part: scanned without memory, and read as the list of its lines.

ghost use Rattle.std.specs.Prelude.{◌≡◌, ◌<◌, ◌+◌, ◌^◌, List, length, IfErr, IfOk, OnErr, OnOk};
ghost use Rattle.pls_lines.specs.Lines.{IsFormFault};
ghost use Rattle.pls_closing.specs.Closing.{AreFew};
ghost use Rattle.pls_watch_part.specs.WatchText.{IsWatchPart, IsWatchRefusal, PassesWatch, TellsWatch, looks_of};
ghost use Rattle.pls_watch_part.specs.declared.watch_event.WatchLine.{WatchLine};

use crate::watch_event::WatchLine;
use crate::watch_words::{WatchWord, WatchWords};
use pls_closing::{ClosingTally, check_limits};
use pls_lines::{Lines, ListText, Part, scan};
use pls_streams::TextError;
use std::alloc::Global;
use std::marker::Model;

/// The text of a watch part, which it lends, the number of its heading line, and how many lines,
/// how many looks and how many bits of labels it has.
#[derive(Drop)]
pub struct WatchText<'a> {
    pub(crate) part: ListText<'a, ClosingTally<WatchWord, WatchWords<'a>>>,
}

impl<'a> Model for WatchText<'a> {
    ghost use Rattle.pls_watch_part.specs.WatchText.{HasWatch, WrittenWatch, written_watch};

    ghost Value = { WrittenWatch };

    ghost view = { λ text. written_watch text.part.lines.rest text.part.lines.number
        text.part.kept.lines text.part.kept.closing text.part.kept.bits };

    ghost invariant = { λ text. HasWatch (written_watch text.part.lines.rest
        text.part.lines.number text.part.kept.lines text.part.kept.closing text.part.kept.bits) };
}

impl<'a> Part<'a> for WatchText<'a> {
    ghost use Rattle.pls_watch_part.specs.WatchText.{IsWatchPart, PassesWatch};
    ghost use Rattle.pls_watch_part.specs.laws.WatchLaws.{watch_some_part};

    ghost Format = { IsWatchPart };

    ghost Passed = { PassesWatch };

    ghost part_law = { watch_some_part };

    fn pass(lines: &mut Lines<'a>) -> Result<Self, TextError> {
        let part = ListText::<'a, ClosingTally<WatchWord, WatchWords<'a>>>::pass(lines)?;
        Ok(WatchText { part })
    }
}

/// Reads one watch part, which the reader passes. It takes no memory.
///
/// The one refusal is `Form`, with the number of the first line that is not of the form; then the
/// reader stays. Where the last line before `end` is no look, or there is none, that is `end`.
pub fn scan_watch<'a>(lines: &mut Lines<'a>) -> Result<WatchText<'a>, TextError>
    ensures ok { IfOk result (λ part. PassesWatch lines.old lines.new part) }
    ensures form { IfErr result (λ error. IsFormFault IsWatchPart lines.old error) }
    ensures unchanged { OnErr result (lines.new ≡ lines.old) }
{
    scan(lines)
}

impl<'a> WatchText<'a> {
    /// How many bits the labels have together that the lines give, and `u64::MAX` at the most.
    pub fn bits(&self) -> u64
        ensures { result ≡ self.now.bits }
    {
        self.part.kept.bits
    }

    /// How many lines stand between heading and `end`, and `u64::MAX` at the most.
    pub fn events(&self) -> u64
        ensures { result ≡ self.now.events }
    {
        self.part.kept.lines
    }

    /// How many of them ask for a look, and `u64::MAX` at the most.
    pub fn looks(&self) -> u64
        ensures { result ≡ self.now.looks }
    {
        self.part.kept.closing
    }

    /// The number of the line at a place, or of `end` at the place behind the last one.
    pub fn number_of(&self, place: usize) -> u64
        requires { place + 1 < 2 ^ 63 }
        ensures { result ≡ self.now.number + 1 + place }
    {
        self.part.number_of(place)
    }

    /// The events and looks, in the order of their lines.
    ///
    /// `Limit(Events)` where there are more lines than [`MAX_LINES`](pls_configuration::MAX_LINES),
    /// else `Limit(Rounds)` where there are more looks than
    /// [`MAX_ROUNDS`](pls_configuration::MAX_ROUNDS), before any memory is taken; `NoMemory` for
    /// want of memory.
    pub fn list(&self, alloc: Global) -> Result<Vec<WatchLine>, TextError>
        ensures ok { (lines : List WatchLine) → TellsWatch self.now.text lines
            → IfOk result (λ list. list.items ≡ lines) }
        ensures few { IfOk result (λ list. AreFew (length list.items)
            (length (looks_of list.items))) }
        ensures refused { (lines : List WatchLine) → TellsWatch self.now.text lines
            → IfErr result (λ error. IsWatchRefusal lines error) }
    {
        self.check()?;
        Ok(self.part.list(alloc)?)
    }

    // Refuses a text with more lines than a limit allows.
    pub(crate) fn check(&self) -> Result<(), TextError>
        ensures few { OnOk result ((lines : List WatchLine) → TellsWatch self.now.text lines
            → AreFew (length lines) (length (looks_of lines))) }
        ensures refused { IfErr result (λ error. (lines : List WatchLine)
            → TellsWatch self.now.text lines → IsWatchRefusal lines error) }
    {
        check_limits(self.part.kept.lines, self.part.kept.closing)
    }
}
