//! The tests of rings and of crossing two edges of one.
#![tactic(auto)]

#[cfg(test)]
mod tests;
