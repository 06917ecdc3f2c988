//! The schedule part of an input: its text, [`ScheduleText`], with one [`Event`] a line. A
//! [`ReadSchedule`] has the events too, where they were kept while the text was passed.
#![tactic(auto)]

mod event;
mod schedule_read;
mod schedule_text;

pub use event::Event;
pub use schedule_read::ReadSchedule;
pub use schedule_text::{ScheduleText, ScheduleWord, read_schedule, scan_schedule};
