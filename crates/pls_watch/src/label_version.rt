//! Versions of labels.

/// A version of a label.
#[derive(Clone, Copy, Debug, PartialEq, Eq)]
pub(crate) struct LabelVersion {
    /// The version, from 0.
    pub(crate) version: u32,
    /// The number of the label that it is, among all labels that there were.
    pub(crate) label: u32,
}
