//! Labels with levels, as `mst` and `pathmax` have them: where a node stands in a tree, and what it
//! has on each level, whatever that is.
//!
//! A [`LevelKind`] says how one level is numbers and how the levels of a node are held. By it
//! labels ([`LevelLabel`]) are lists of numbers ([`LevelFormat`]), are read where they lie
//! ([`head_in`], [`levels_of`], [`levels_behind`], [`pass_levels`]) and are made of a root, depths
//! and levels ([`make_labels`]). What stands in front of the levels ([`LevelHead`]) places a node
//! in the tree ([`is_placed`]) and tells which edges at its ports are in it ([`is_in_tree`]).
//! Definitions stand in `specs/Labels` (`level_shape`), `specs/Rules` (`is_placed_in_tree`,
//! `is_in_tree`), `specs/Making` (`IsRightHead`) and `specs/inner/ShortForm` (`kept_front`: the
//! first levels, as a scheme keeps them at a glance, where [`is_short`] says so); what a scheme
//! proves with them in `specs/laws` (`level_numbers`, `IsPlaced`, `told_in`, `passes_from_0`).
#![tactic(auto)]

mod format;
mod label;
mod level_kind;
mod making;
mod placing;
mod reading;
mod short;

pub use format::LevelFormat;
pub use label::{LevelHead, LevelLabel};
pub use level_kind::LevelKind;
pub use making::{floor_log, make_labels};
pub use placing::{is_in_tree, is_placed};
pub use reading::{
    are_levels, head_in, levels_behind, levels_of, pass_levels, read_head, read_levels,
};
pub use short::is_short;
