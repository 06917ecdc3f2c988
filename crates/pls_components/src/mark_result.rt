//! What the marking of components comes to.

use crate::id_list::IdList;
use pls_labels::LabelStore;

/// What the marking of the components of a network comes to.
#[derive(Drop)]
pub enum MarkResult {
    /// For each node its marked label in its component.
    Labels(LabelStore),
    /// The smallest identities of the components that lack the property, rising.
    Lacking(IdList),
}
