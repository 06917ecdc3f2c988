//! The tests of bits, networks, texts, views and rechecks, one file a subject.
#![tactic(auto)]

#[cfg(test)]
mod tests;
