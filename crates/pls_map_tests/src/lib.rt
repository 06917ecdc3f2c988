//! The tests of the universal scheme, and of what decides whether there is a bridge.
#![tactic(auto)]

#[cfg(test)]
mod bridges;
#[cfg(test)]
mod tests;
