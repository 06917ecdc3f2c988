//! What an input says, part by part, and why it is refused.
//!
//! An input has a part of each kind that is wanted ([`Parts`]), one behind the other.
//! [`read_input`] reads it: `specs/Parts` says which bytes are the text of which input, and
//! `specs/Order` by which refusal bytes are none.
#![tactic(auto)]

mod building;
mod input;
mod laws;
mod parts;
mod scanning;
mod texts;

pub use input::{Input, read_input};
pub use laws::{input_or_refusal, no_refusal, one_input, one_refusal};
pub use parts::Parts;
