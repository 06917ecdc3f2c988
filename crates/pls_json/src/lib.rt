//! Reports as JSON, their nodes made with `serde_json`.
//!
//! [`json_report`] gives the text of a report as one compact line; `specs/Json` says which, key by
//! key. No other crate uses `serde_json`.
#![tactic(auto)]

mod json;

pub use json::json_report;
