//! The tests of the example scheme whose labels are lists of no fixed length.
#![tactic(auto)]

#[cfg(test)]
mod tests;
