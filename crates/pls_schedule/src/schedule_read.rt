//! A schedule part that is read once: what its lines say is kept while it is passed.

ghost use Rattle.std.specs.Prelude.{◌≡◌, ◌<◌, ◌≤◌, ◌+◌, ◌^◌, List, length, IfErr, IfOk};
ghost use Rattle.pls_configuration.specs.declared.limits.TheConstants.{MAX_LINES};
ghost use Rattle.pls_schedule.specs.ScheduleText.{IsEventsRefusal, TellsSchedule};

use crate::event::Event;
use crate::schedule_text::{ScheduleText, ScheduleWord};
use pls_lines::{Count, Lines, Part, ReadOnce, keep_list};
use pls_streams::TextError;
use std::alloc::Global;
use std::marker::Model;

/// The text of a schedule part, and its events where they were kept while it was passed. Seen
/// as its text.
#[derive(Drop)]
pub struct ReadSchedule<'a> {
    text: ScheduleText<'a>,
    list: Option<Vec<Event>>,
}

impl<'a> Model for ReadSchedule<'a> {
    ghost use Rattle.std.specs.Prelude.{IfSome};
    ghost use Rattle.pls_schedule.specs.ScheduleText.{TellsSchedule, WrittenSchedule};

    ghost Value = { WrittenSchedule };

    ghost view = { λ part. part.text };

    ghost invariant = { λ part. IfSome part.list (λ list. TellsSchedule part.text.text list.items) };
}

impl<'a> Part<'a> for ReadSchedule<'a> {
    ghost use Rattle.pls_schedule.specs.ScheduleText.{IsSchedulePart, PassesSchedule};
    ghost use Rattle.pls_schedule.specs.laws.EventLaws.{schedule_some_part};

    ghost Format = { IsSchedulePart };

    ghost Passed = { PassesSchedule };

    ghost part_law = { schedule_some_part };

    fn pass(lines: &mut Lines<'a>) -> Result<Self, TextError> {
        let text = ScheduleText::pass(lines)?;
        Ok(ReadSchedule { text, list: None })
    }
}

impl<'a> ReadOnce<'a> for ReadSchedule<'a> {
    fn keep(alloc: Global, lines: &mut Lines<'a>) -> Result<Self, TextError> {
        match keep_list::<'a, Count<ScheduleWord, Event>>(alloc, lines) {
            Some((part, list)) => Ok(ReadSchedule {
                text: ScheduleText { part },
                list: Some(list),
            }),
            None => Self::pass(lines),
        }
    }
}

impl<'a> ReadSchedule<'a> {
    /// How many events there are, and `u64::MAX` at the most.
    pub fn events(&self) -> u64
        ensures { result ≡ self.now.events }
    {
        self.text.events()
    }

    /// The number of the line at a place, or of `end` behind the last one.
    pub fn number_of(&self, place: usize) -> u64
        requires { place + 1 < 2 ^ 63 }
        ensures { result ≡ self.now.number + 1 + place }
    {
        self.text.number_of(place)
    }

    /// The events, with the refusals of [`ScheduleText::list`]. The text is read again only
    /// where they were not kept.
    #[tactic(auto, using(crate::proofs::Told::one_told))]
    pub fn into_list(self, alloc: Global) -> Result<Vec<Event>, TextError>
        ensures ok { (events : List Event) → TellsSchedule self.entry.text events
            → IfOk result (λ list. list.items ≡ events) }
        ensures few { IfOk result (λ list. length list.items ≤ MAX_LINES) }
        ensures refused { (events : List Event) → TellsSchedule self.entry.text events
            → IfErr result (λ error. IsEventsRefusal events error) }
    {
        let ReadSchedule { text, list } = self;
        text.check()?;
        match list {
            Some(list) => Ok(list),
            None => text.list(alloc),
        }
    }
}
