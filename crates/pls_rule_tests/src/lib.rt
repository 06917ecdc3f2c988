//! The tests of the rule language: texts of rules, rules parts, code, and verdicts.
#![tactic(auto)]

#[cfg(test)]
mod tests;
