//! The names of the codes of numbers.

/// The number code of the labels of a text.
#[derive(Clone, Copy, Debug, PartialEq, Eq)]
pub enum CodeName {
    /// The gamma code of Elias, [`Gamma`](crate::Gamma).
    Gamma,
    /// The delta code of Elias, [`Delta`](crate::Delta).
    Delta,
}
