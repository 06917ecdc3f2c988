//! The text of a schedule: scanned without memory, and read as the list of its events.

ghost use Rattle.std.specs.Prelude.{◌≡◌, ◌<◌, ◌≤◌, ◌+◌, ◌^◌, List, length, IfErr, IfOk, OnErr, OnOk};
ghost use Rattle.pls_lines.specs.Lines.{IsFormFault};
ghost use Rattle.pls_schedule.specs.ScheduleText.{IsEventsRefusal, IsRefusedSchedule, IsSchedulePart, PassesSchedule, TellsSchedule};

use crate::event::Event;
use pls_configuration::MAX_LINES;
use pls_lines::{Count, HeadingWord, Lines, ListText, Part, read_whole, scan};
use pls_streams::{Quantity, TextError};
use std::alloc::Global;
use std::marker::Model;

/// The heading of a schedule.
#[derive(Drop)]
pub struct ScheduleWord;

impl HeadingWord for ScheduleWord {
    ghost use Rattle.std.specs.Prelude.{codes};
    ghost use Rattle.pls_schedule.specs.laws.EventLaws.{schedule_word};

    ghost word = { codes "schedule" };

    ghost word_law = { schedule_word };

    fn word() -> &'static [u8] {
        b"schedule"
    }
}

/// The text of a schedule part, which it lends, the number of its heading line, and how many events
/// it has.
#[derive(Drop)]
pub struct ScheduleText<'a> {
    pub(crate) part: ListText<'a, Count<ScheduleWord, Event>>,
}

impl<'a> Model for ScheduleText<'a> {
    ghost use Rattle.pls_schedule.specs.ScheduleText.{HasEvents, WrittenSchedule, written_schedule};

    ghost Value = { WrittenSchedule };

    ghost view = { λ text. written_schedule text.part.lines.rest text.part.lines.number
        text.part.kept.items };

    ghost invariant = { λ text.
        HasEvents (written_schedule text.part.lines.rest text.part.lines.number
        text.part.kept.items) };
}

impl<'a> Part<'a> for ScheduleText<'a> {
    ghost use Rattle.pls_schedule.specs.ScheduleText.{IsSchedulePart, PassesSchedule};
    ghost use Rattle.pls_schedule.specs.laws.EventLaws.{schedule_some_part};

    ghost Format = { IsSchedulePart };

    ghost Passed = { PassesSchedule };

    ghost part_law = { schedule_some_part };

    fn pass(lines: &mut Lines<'a>) -> Result<Self, TextError> {
        let part = ListText::<'a, Count<ScheduleWord, Event>>::pass(lines)?;
        Ok(ScheduleText { part })
    }
}

/// Reads one schedule part, which the reader passes. It takes no memory.
///
/// The one refusal is `Form`, with the number of the first line that is not of the form; then the
/// reader stays.
pub fn scan_schedule<'a>(lines: &mut Lines<'a>) -> Result<ScheduleText<'a>, TextError>
    ensures ok { IfOk result (λ part. PassesSchedule lines.old lines.new part) }
    ensures form { IfErr result (λ error. IsFormFault IsSchedulePart lines.old error) }
    ensures unchanged { OnErr result (lines.new ≡ lines.old) }
{
    scan(lines)
}

impl<'a> ScheduleText<'a> {
    /// How many events there are, and `u64::MAX` at the most.
    pub fn events(&self) -> u64
        ensures { result ≡ self.now.events }
    {
        self.part.kept.items
    }

    /// The number of the line of the event at a place, or of `end` behind the last one.
    pub fn number_of(&self, place: usize) -> u64
        requires { place + 1 < 2 ^ 63 }
        ensures { result ≡ self.now.number + 1 + place }
    {
        self.part.number_of(place)
    }

    /// The events, in the order of their lines.
    ///
    /// `Limit(Events)` where there are more than [`MAX_LINES`], before any memory is taken;
    /// `NoMemory` for want of memory.
    pub fn list(&self, alloc: Global) -> Result<Vec<Event>, TextError>
        ensures ok { (events : List Event) → TellsSchedule self.now.text events
            → IfOk result (λ list. list.items ≡ events) }
        ensures few { IfOk result (λ list. length list.items ≤ MAX_LINES) }
        ensures refused { (events : List Event) → TellsSchedule self.now.text events
            → IfErr result (λ error. IsEventsRefusal events error) }
    {
        self.check()?;
        Ok(self.part.list(alloc)?)
    }

    // Refuses more events than the limit.
    pub(crate) fn check(&self) -> Result<(), TextError>
        ensures few { OnOk result ((events : List Event) → TellsSchedule self.now.text events
            → length events ≤ MAX_LINES) }
        ensures refused { IfErr result (λ error. (events : List Event)
            → TellsSchedule self.now.text events → IsEventsRefusal events error) }
    {
        if self.part.kept.items > MAX_LINES as u64 {
            return Err(TextError::Limit(Quantity::Events));
        }
        Ok(())
    }
}

/// The events of a text that is one schedule part and nothing more.
///
/// `Form` with the number of the first line that is not of the form, as is a line behind `end`;
/// else the refusals of [`ScheduleText::list`].
pub fn read_schedule(alloc: Global, text: &[u8]) -> Result<Vec<Event>, TextError>
    ensures ok { IfOk result (λ list. TellsSchedule text.now list.items) }
    ensures few { IfOk result (λ list. length list.items ≤ MAX_LINES) }
    ensures refused { IfErr result (λ error. IsRefusedSchedule text.now error) }
{
    let part = read_whole::<ScheduleText<'_>>(text)?;
    part.list(alloc)
}
