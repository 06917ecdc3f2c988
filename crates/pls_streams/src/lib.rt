//! Where bytes come from and where they go, and what every crate above shares.
//!
//! A [`Source`] gives bytes and a [`Sink`] takes them. Contracts see what bytes are left in a
//! source and what bytes are in a sink, if these are told, and how many calls failed so far; none
//! fails unless that number has risen. [`read_all`] and [`write_all`] move whole texts over them,
//! and [`Gathered`] writes a text that comes in small pieces, without memory. Forms in memory stand
//! beside the adapters over std's readers and writers.
//!
//! Beside these: the errors that texts and memory cause, a counter of steps that stays at its last
//! value, and numbers in decimal. Definitions stand in `specs/`: `Streams`, `Gathered`, `OverStd`,
//! `Plan`, `Steps`, `Decimal` and `Quantity`.
#![tactic(auto)]

mod count_sink;
mod counter;
mod decimals;
mod gathered;
mod mem_sink;
mod mem_source;
mod memory;
mod pieces;
mod reading;
pub mod refusal_number;
mod std_streams;
mod streams;
mod sure_source;
mod text_error;
mod writing;

pub use count_sink::CountSink;
pub use counter::Steps;
pub use decimals::{read_decimal, write_decimal};
pub use gathered::Gathered;
pub use mem_sink::MemSink;
pub use mem_source::MemSource;
pub use memory::NoMemory;
pub use pls_configuration::Status;
pub use reading::{ReadError, read_all};
pub use std_streams::{StdSink, StdSource};
pub use streams::{Sink, Source, StreamFailure};
pub use sure_source::SureSource;
pub use text_error::{Quantity, TextError};
pub use writing::{Fault, write_all};
