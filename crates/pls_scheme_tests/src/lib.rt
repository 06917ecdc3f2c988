//! A scheme as an example of what a new one has to state, and the tests of schemes and searches at
//! worked examples.
#![tactic(auto)]

mod independent_set;
#[cfg(test)]
mod tests;

pub use independent_set::{IndependentRules, IndependentSet, MarkLabel};
