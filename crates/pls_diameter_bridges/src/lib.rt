//! Two more properties of networks, with what decides them: [`Diameter`], that any two nodes are
//! at most so many edges apart, and [`Bridgeless`], that the network stays in one part when any one
//! edge is left out. The first is decided by a search from each node, the second by searches from a
//! few, whose outcome is checked.
//!
//! They have no scheme of their own here; any scheme over a [`Property`](pls_scheme::Property) can
//! use them. Definitions stand in `specs/`, one file a property (`HasDiameterAtMost`,
//! `IsBridgeless`). `Tests` there has each as a function from rows to a truth value
//! (`diameter_test`, `bridgeless_test`); the laws in `specs/laws/`, and [`diameter_is_tested`] and
//! [`bridgeless_is_tested`], say that it gives true exactly where the property holds.
#![tactic(auto)]

mod bridgeless;
mod crossing;
mod descent;
mod diameter;
mod laws;
mod orientation;

pub use bridgeless::Bridgeless;
pub use diameter::Diameter;
pub use laws::{bridgeless_is_tested, diameter_is_tested};
