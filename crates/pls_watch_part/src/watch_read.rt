//! A watch part that is read once: what its lines say is kept while it is passed.

ghost use Rattle.std.specs.Prelude.{◌≡◌, ◌+◌, ◌<◌, ◌^◌, List, length, IfErr, IfOk};
ghost use Rattle.pls_closing.specs.Closing.{AreFew};
ghost use Rattle.pls_watch_part.specs.WatchText.{IsWatchRefusal, TellsWatch, looks_of};
ghost use Rattle.pls_watch_part.specs.declared.watch_event.WatchLine.{WatchLine};

use crate::watch_event::WatchLine;
use crate::watch_text::WatchText;
use crate::watch_words::{WatchWord, WatchWords};
use pls_closing::ClosingTally;
use pls_lines::{Lines, Part, ReadOnce, keep_list};
use pls_streams::TextError;
use std::alloc::Global;
use std::marker::Model;

/// The text of a watch part, and its events and looks where they were kept while it was passed.
/// Seen as its text.
#[derive(Drop)]
pub struct ReadWatch<'a> {
    text: WatchText<'a>,
    list: Option<Vec<WatchLine>>,
}

impl<'a> Model for ReadWatch<'a> {
    ghost use Rattle.std.specs.Prelude.{IfSome};
    ghost use Rattle.pls_watch_part.specs.WatchText.{TellsWatch, WrittenWatch};

    ghost Value = { WrittenWatch };

    ghost view = { λ part. part.text };

    ghost invariant = { λ part. IfSome part.list (λ list. TellsWatch part.text.text list.items) };
}

impl<'a> Part<'a> for ReadWatch<'a> {
    ghost use Rattle.pls_watch_part.specs.WatchText.{IsWatchPart, PassesWatch};
    ghost use Rattle.pls_watch_part.specs.laws.WatchLaws.{watch_some_part};

    ghost Format = { IsWatchPart };

    ghost Passed = { PassesWatch };

    ghost part_law = { watch_some_part };

    fn pass(lines: &mut Lines<'a>) -> Result<Self, TextError> {
        let text = WatchText::pass(lines)?;
        Ok(ReadWatch { text, list: None })
    }
}

impl<'a> ReadOnce<'a> for ReadWatch<'a> {
    fn keep(alloc: Global, lines: &mut Lines<'a>) -> Result<Self, TextError> {
        match keep_list::<'a, ClosingTally<WatchWord, WatchWords<'a>>>(alloc, lines) {
            Some((part, list)) => Ok(ReadWatch {
                text: WatchText { part },
                list: Some(list),
            }),
            None => Self::pass(lines),
        }
    }
}

impl<'a> ReadWatch<'a> {
    /// How many bits the labels have together that the lines give, and `u64::MAX` at the most.
    pub fn bits(&self) -> u64
        ensures { result ≡ self.now.bits }
    {
        self.text.bits()
    }

    /// How many lines stand between heading and `end`, and `u64::MAX` at the most.
    pub fn events(&self) -> u64
        ensures { result ≡ self.now.events }
    {
        self.text.events()
    }

    /// How many of them ask for a look, and `u64::MAX` at the most.
    pub fn looks(&self) -> u64
        ensures { result ≡ self.now.looks }
    {
        self.text.looks()
    }

    /// The number of the line at a place, or of `end` at the place behind the last one.
    pub fn number_of(&self, place: usize) -> u64
        requires { place + 1 < 2 ^ 63 }
        ensures { result ≡ self.now.number + 1 + place }
    {
        self.text.number_of(place)
    }

    /// The events and looks, with the refusals of [`WatchText::list`]. The text is read again only
    /// where they were not kept.
    #[tactic(auto, using(crate::proofs::Told::one_told))]
    pub fn into_list(self, alloc: Global) -> Result<Vec<WatchLine>, TextError>
        ensures ok { (lines : List WatchLine) → TellsWatch self.entry.text lines
            → IfOk result (λ list. list.items ≡ lines) }
        ensures few { IfOk result (λ list. AreFew (length list.items)
            (length (looks_of list.items))) }
        ensures refused { (lines : List WatchLine) → TellsWatch self.entry.text lines
            → IfErr result (λ error. IsWatchRefusal lines error) }
    {
        let ReadWatch { text, list } = self;
        text.check()?;
        match list {
            Some(list) => Ok(list),
            None => text.list(alloc),
        }
    }
}
