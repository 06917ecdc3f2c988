//! The tests of labels that change while messages are under way: the text of the part, worked rows,
//! and random events on all small networks against a plain program.
#![tactic(auto)]

#[cfg(test)]
mod tests;
