//! Tables of runs of the program as tests.
#![tactic(auto)]

#[cfg(test)]
mod tests;
