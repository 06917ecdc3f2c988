//! Networks made from a number, for runs of any size: [`trial_network`] gives the one of
//! `specs/Generator`, which is connected and whose pointers make a minimum spanning tree.
#![tactic(auto)]

mod draws;
mod trial;

pub use draws::MAX_SEED;
pub use trial::trial_network;
