//! The tests of schemes on small networks, all of them, against plain programs.
#![tactic(auto)]

#[cfg(test)]
mod tests;
