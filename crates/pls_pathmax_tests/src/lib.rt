//! Tests of centroid levels and of the scheme `pathmax`.
#![tactic(auto)]

#[cfg(test)]
mod tests;
