//! What a proof labelling scheme is: a verifier at each node ([`Checker`]), a property of networks
//! ([`Property`]), and the two together with a marker and a layout of labels ([`Scheme`]), as in
//! Korman, Kutten and Peleg, "Proof labeling schemes", Distributed Computing 22 (2010).
//!
//! The meanings (`judge`, `holds`, `layout`, `marked`, `longest`) are definitions over views and
//! rows; the calls answer them, and the laws say that a scheme is sound, that its labels have one
//! spelling, and that a network is marked in one way. Code over any scheme rests on these texts
//! alone.
//!
//! A basic scheme states only what is its own: how its labels are lists of numbers ([`Format`];
//! [`NumbersFormat`] for a fixed count of them), its rules ([`Rules`] over labels that are read,
//! each once, or [`JudgesInPlace`] over labels that are kept at a glance), its property and what
//! labels are right ([`Marker`]). [`Basic`] makes the scheme of it, [`RuleScheme`] of [`Rules`].
//! Other schemes implement [`Checker`], [`Property`] and [`Scheme`] themselves. A checker that
//! [`Remembers`] judges a node by a memory of each label, as [`Basic`] does by a [`GlanceMemory`]
//! of it, which may be a [`BoxedGlance`].
//!
//! Definitions stand in `specs/`: `Judging` has verdicts and rounds, `Reading` what a node reads,
//! `Basic` what a basic scheme means, `Theorem` what makes rules and a marker a scheme, `Marked`
//! marked labels, `SchemeLaws` the laws.
//! Proofs may cite `specs/laws/` (`Saying`: rounds in which each label says what a function of the
//! identity says), and of `proofs/` what is right for each node (`Markings`), labels of numbers
//! within limits (`Fitting`), labels that are stored one after the other (`Storing`), tests at the
//! ports (`SaidPorts`) and what is read with one more port (`MorePorts`).
#![tactic(auto)]

mod basic;
mod certify;
mod checker;
mod holding;
mod in_place;
mod judgement;
mod judging;
mod labels;
mod length;
mod marker;
mod memory;
mod once;
mod pointer;
mod property;
mod remembers;
mod round;
mod rules;
mod scheme;
mod settling;
mod view_judged;

pub use basic::{Basic, RuleScheme};
pub use certify::{are_accepted, certifies, is_scheme, some_node_rejects};
pub use checker::Checker;
pub use holding::hold_everywhere;
pub use in_place::{JudgesInPlace, LabelGlance};
pub use judgement::Judgement;
pub use judging::{is_one_more, judged_from};
pub use labels::labels_of;
pub use length::{code_length, codes_length};
pub use marker::Marker;
pub use memory::{BoxedGlance, GlanceMemory};
pub use once::Once;
pub use pls_configuration::Verdict;
pub use pls_numbers::{Format, NumbersFormat, OfNumbers, ReadsInPlace};
pub use pointer::is_pointer;
pub use property::Property;
pub use remembers::Remembers;
pub use rules::Rules;
pub use scheme::Scheme;
