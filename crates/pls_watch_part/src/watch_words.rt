//! The lines of a watch part, read without memory.

ghost use Rattle.std.specs.Prelude.{◌≡◌, ◌≢◌, ℕ, false, List, ◌∷◌, ◌++◌, IfNone, IfSome};
ghost use Rattle.pls_labelfile.specs.LabelsText.{FitsLabel, NamedLabel, label_line};
ghost use Rattle.pls_watch_part.specs.WatchText.{FitsWatch, is_look, relabel_bits, watch_line};

use crate::boxed_label::BoxedLabel;
use crate::watch_event::{WatchEvent, WatchLine};
use pls_closing::{ClosingLine, OwnLine};
use pls_labelfile::LabelLine;
use pls_lines::{HeadingWord, LineKind, after_byte, after_line};
use pls_schedule::Event;
use pls_streams::NoMemory;
use std::alloc::Global;
use std::marker::Model;

/// The heading of a watch part.
#[derive(Drop)]
pub struct WatchWord;

impl HeadingWord for WatchWord {
    ghost use Rattle.std.specs.Prelude.{codes};
    ghost use Rattle.pls_watch_part.specs.laws.WatchLaws.{watch_heading};

    ghost word = { codes "watch" };

    ghost word_law = { watch_heading };

    fn word() -> &'static [u8] {
        b"watch"
    }
}

/// What a line of a watch part says, seen as the [`WatchLine`]. The word for a label's bits is
/// lent.
#[derive(Drop)]
pub(crate) struct WatchWords<'a> {
    words: Words<'a>,
}

/// The line of an event of a round, of a label, or of a look.
#[derive(Drop)]
pub(crate) enum Words<'a> {
    // A line that is no label's and no look's.
    Plain(Event),
    // A line that gives a label.
    Relabel(LabelLine<'a>),
    // A line that asks for a look.
    Look,
}

impl<'a> Model for WatchWords<'a> {
    ghost use Rattle.pls_watch_part.specs.declared.watch_event.WatchLine.{WatchLine};
    ghost use Rattle.pls_watch_part.specs.inner.Words.{line_said};

    ghost Value = { WatchLine };

    ghost view = { λ line. line_said line.words };
}

impl<'a> LineKind<'a> for WatchWords<'a> {
    ghost use Rattle.pls_watch_part.specs.WatchText.{FitsWatch, watch_line};
    ghost use Rattle.pls_watch_part.specs.laws.WatchLaws.{watch_lines};

    ghost written = { watch_line };

    ghost Fits = { FitsWatch };

    ghost kind_law = { watch_lines };

    fn read(text: &'a [u8]) -> Option<(Self, &'a [u8])> {
        if let Some((event, rest)) = Event::read(text) {
            let words = Words::Plain(event);
            return Some((WatchWords { words }, rest));
        }
        if let Some(rest) = after_line(text, b"look") {
            let words = Words::Look;
            return Some((WatchWords { words }, rest));
        }
        let (label, rest) = relabel_line(text)?;
        let words = Words::Relabel(label);
        Some((WatchWords { words }, rest))
    }
}

impl<'a> ClosingLine<'a> for WatchWords<'a> {
    ghost use Rattle.std.specs.Prelude.{false};
    ghost use Rattle.pls_watch_part.specs.WatchText.{is_look, relabel_bits};
    ghost use Rattle.pls_watch_part.specs.laws.WatchLaws.{some_look};

    ghost closes = { is_look };

    ghost bits = { relabel_bits };

    ghost may_lack = { false };

    ghost closing_law = { some_look };

    fn closes(&self) -> bool
        ensures { result ≡ is_look self.now }
    {
        matches!(&self.words, Words::Look)
    }

    fn bits(&self) -> u64
        ensures { result ≡ relabel_bits self.now }
    {
        match &self.words {
            Words::Relabel(label) => label.len() as u64,
            _ => 0,
        }
    }

    fn may_lack() -> bool
        ensures { result ≡ false }
    {
        false
    }
}

/// The bits of a label on their own.
impl<'a> OwnLine<'a> for WatchWords<'a> {
    type Line = WatchLine;

    ghost line = { λ words. words };

    fn into_line(self, alloc: Global) -> Result<WatchLine, NoMemory> {
        match self.words {
            Words::Plain(event) => Ok(WatchLine::Event(WatchEvent::of(event))),
            Words::Relabel(label) => {
                let bits = BoxedLabel::new(alloc, label.to_bits(alloc)?)?;
                let node = label.id();
                Ok(WatchLine::Event(WatchEvent::Relabel { node, bits }))
            }
            Words::Look => Ok(WatchLine::Look),
        }
    }
}

// Reads `relabel ID LEN HEX` up to its line feed and returns the rest; behind `re` it is a label
// line.
fn relabel_line<'a>(text: &'a [u8]) -> Option<(LabelLine<'a>, &'a [u8])>
    ensures fits { IfSome result (λ read. FitsLabel read.0) }
    ensures stands { IfSome result (λ read.
        text.now ≡ 114 ∷ 101 ∷ label_line read.0 ++ 10 ∷ read.1.now) }
    ensures none { IfNone result ((label : NamedLabel) (rest : List ℕ) → FitsLabel label
        → text.now ≢ 114 ∷ 101 ∷ label_line label ++ 10 ∷ rest) }
{
    let word = after_byte(text, b'r')?;
    let label = after_byte(word, b'e')?;
    LabelLine::read(label)
}
