//! The rule sets that have names.
//!
//! [`builtin`] makes the set of a name, each being one of those that stand in `specs/Builtin`
//! (`set_named`). [`builtin_sets_make_sense`] says that they are sets that can be compiled and run,
//! and [`builtin_agrees`] that each judges every view as the scheme of its name does, down to the
//! number of the rule that rejects (`JudgesAs`, in `specs/Judges`).
#![tactic(auto)]

mod agrees;
mod by_name;
mod fields;
mod parts;
mod sets;
mod trees;

pub use agrees::{builtin_agrees, builtin_sets_make_sense, named_agrees};
pub use by_name::{builtin, builtin_set, name_with_set};
