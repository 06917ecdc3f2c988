//! Crossing two edges of a ring, so that it becomes two rings and no node sees a difference.
//!
//! A [`Ring`] is the order of a ring's nodes, as one meets them who goes round it; [`find_pair`] names
//! the first two of its edges that may be crossed, and [`cross`] is the network with these two
//! crossed. The laws [`views_stay`], [`leaderless`] and [`two_rings`] say what became of it, and
//! [`one_order`] that a ring has one order.
//!
//! Proofs above may cite `proofs/OneOrder` (a ring has one order), `proofs/CrossedRows` (what is
//! crossed is a network), `proofs/SameViews`, `proofs/NoLeader` and `proofs/Parted`, which are the
//! laws over rows.
#![tactic(auto)]

mod crossing;
mod edge_key;
mod finding;
mod laws;
mod ring;
mod ring_error;

pub use crossing::cross;
pub use finding::{Pair, find_pair};
pub use laws::{leaderless, one_order, two_rings, views_stay};
pub use ring::Ring;
pub use ring_error::RingError;
