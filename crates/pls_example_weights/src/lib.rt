//! An example of a scheme whose labels are lists of no fixed length: all nodes have the same
//! weights at their first ports. What such a scheme states beside its rules is a format of its own
//! ([`WeightsFormat`]): how a label is a list of numbers, and how these are read and written.
//!
//! Definitions stand in `specs/SameWeights`, the theorem in `specs/laws/SameWeightsLaws`.
#![tactic(auto)]

mod format;
mod marker;
mod rules;
mod weights;

pub use format::WeightsFormat;
pub use rules::{SameWeights, SameWeightsRules, SeenWeights};
pub use weights::{MOST, Weights};
