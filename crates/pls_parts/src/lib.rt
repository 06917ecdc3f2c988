//! Labels, views and verdicts of combinations, whatever the two schemes are that are combined.
//!
//! A label of a conjunction is the code of the first label's length, the first label and the
//! second; one of a disjunction is a tag and the label of the part that the tag names
//! (`specs/Parts`, `specs/Joined`, `specs/Tagged`). [`FirstPart`], [`SecondPart`] and [`Rest`] lend
//! the parts of a view, [`part_all`], [`tags_of`] and [`rests_of`] those of all labels;
//! [`joined_labels`] and [`tagged_labels`] put labels together. `specs/Combined` has the verdicts.
//!
//! Proofs may cite `specs/laws/` (`BothLaws`, `OneOfLaws`: the laws of schemes for any two judges)
//! and `proofs/` (`Marking`, `Verdicts`, `JudgedParts`).
#![tactic(auto)]

mod joined;
mod label_parts;
mod narrowing;
mod part_rules;
mod part_verdicts;
mod raising;

pub use joined::{
    joined_bits, joined_bound, joined_labels, tagged_bits, tagged_bound, tagged_labels,
};
pub use label_parts::{LabelParts, lend_all, part_all, rests_of, tags_of};
pub use narrowing::{FirstPart, Rest, SecondPart, parts, tag_of};
pub use part_rules::{lacks_parts, own_tag};
pub use part_verdicts::{both_verdicts, has_tag, one_of_verdicts};
pub use raising::verdict_behind;
