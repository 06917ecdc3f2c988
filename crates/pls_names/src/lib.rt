//! The basic schemes by their names.
//!
//! [`SchemeName`] is a name and [`name_of`] the word for it; [`name_front`] reads one off the front
//! of a text. What a name means stands in `specs/Named`, a table with one row for each: its word,
//! its property, the property as a test, the verdict, the labels and their length.
//!
//! [`SchemeByName`] is the scheme of a name: its calls are those of the scheme that it names.
//! [`by_name`] does anything with that scheme, so that what is done with each alike is written
//! once. Proofs may cite `specs/laws/NamedLaws`, a table with one row for each name too.
#![tactic(auto)]

mod front;
mod named;
pub mod scheme_name;
mod with_checker;

pub use front::name_front;
pub use named::SchemeByName;
pub use scheme_name::{SchemeName, name_of};
pub use with_checker::WithChecker;
