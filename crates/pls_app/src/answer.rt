//! How a run ends, and the text that it writes.

ghost use Rattle.std.specs.Prelude.{◌≡◌, ◌≢◌, ◌++◌, if◌then◌else◌, length, string_bytes, IfOk, OnOk};
ghost use Rattle.pls_streams.specs.declared.text_error.TextError.TheVariants.{Sense};
ghost use Rattle.pls_components.specs.Components.{AreComponents};
ghost use Rattle.pls_report.specs.Report.{all_accept};
ghost use Rattle.pls_report.specs.ComponentLines.{if_several};
ghost use Rattle.pls_report.specs.inner.Pieces.{spaced};
ghost use Rattle.pls_app.specs.Answer.{no_answer, refusal_answer, refusal_status, report_answer, rounds_answer, usage_answer};
ghost use Rattle.pls_app.specs.Reports.{rounds_end_well};
ghost use Rattle.pls_app.specs.inner.Tasks.{IsWorked};

use crate::command::ReportForm;
use crate::component_rows::component_rows;
use crate::round_report::RoundReport;
use pls_bits::CodeName;
use pls_components::Components;
use pls_graph::Network;
use pls_json::json_report;
use pls_labels::LabelStore;
use pls_report::{ComponentRow, LookRows, all_accept};
use pls_sim::Outcome;
use pls_streams::{NoMemory, Status, TextError};
use std::alloc::Global;
use std::fmt::Write;
use std::marker::Model;

/// How a run ends, and the text that it writes.
#[derive(Drop)]
pub(crate) struct Answer {
    pub(crate) status: Status,
    pub(crate) content: Content,
}

/// What the text is made of.
#[derive(Drop)]
pub(crate) enum Content {
    /// A text that is always the same.
    Known(&'static [u8]),
    /// A text that was made.
    Written(Vec<u8>),
    /// The labels of a network, which become text as they are written.
    Labels {
        code: CodeName,
        net: Network,
        labels: LabelStore,
    },
    /// The text of a network, and behind it labels of the same nodes, which become text as they are
    /// written.
    Configuration {
        network_text: Vec<u8>,
        code: CodeName,
        net: Network,
        labels: LabelStore,
    },
    /// A report, which becomes text as it is written.
    Report {
        simulated: bool,
        parts: Vec<ComponentRow>,
        rows: Vec<(u32, Outcome)>,
    },
    /// Reports of rounds, which become text as they are written.
    Rounds(Vec<RoundReport>),
    /// Looks that were kept, which are put together as they are written.
    Looks(LookRows),
}

impl Model for Answer {
    ghost use Rattle.pls_app.specs.Said.{Answer as Said};
    ghost use Rattle.pls_app.specs.inner.Written.{text_in};

    ghost Value = { Said };

    ghost view = { λ answer. record { status = answer.status; text = text_in answer.content } };
}

// The answer to words that are no command.
pub(crate) fn usage_answer() -> Answer
    ensures { result ≡ usage_answer }
{
    Answer {
        status: Status::Usage,
        content: Content::Known(b"usage\n"),
    }
}

// `ids` are the smallest identities of the components that lack the property.
pub(crate) fn no_answer(alloc: Global, parts: &Components, ids: &[u32]) -> Result<Answer, NoMemory>
    ensures says { IfOk result (λ answer. answer ≡ no_answer parts.now ids.now) }
    ensures worked { IfOk result (λ answer. IsWorked answer.status) }
{
    let mut text = String::new(alloc);
    text.push_str("no")?;
    push_ids(&mut text, named_ids(parts, ids))?;
    text.push_str("\n")?;
    Ok(Answer {
        status: Status::No,
        content: Content::Written(text.into_bytes()),
    })
}

// A single component is not named.
fn named_ids<'a>(parts: &Components, ids: &'a [u32]) -> &'a [u32]
    ensures { result.now ≡ if_several parts.now ids.now }
{
    if parts.len() > 1 { ids } else { &[] }
}

// Each number follows a space.
fn push_ids(text: &mut String, ids: &[u32]) -> Result<(), NoMemory>
    ensures { OnOk result (string_bytes text.new ≡ string_bytes text.old ++ spaced ids.now) }
{
    for id in ids {
        write!(text, " {id}")?;
    }
    Ok(())
}

pub(crate) fn report_answer(
    alloc: Global,
    form: ReportForm,
    simulated: bool,
    net: &Network,
    parts: &Components,
    rows: Vec<(u32, Outcome)>,
) -> Result<Answer, NoMemory>
    requires made { AreComponents net.now parts.now }
    requires each { length rows.items ≡ length net.now }
    ensures report { IfOk result
        (λ answer. answer ≡ report_answer form simulated net.now parts.now rows.items) }
    ensures worked { IfOk result (λ answer. IsWorked answer.status) }
{
    let status = round_status(&rows);
    let parts = component_rows(alloc, net, parts, &rows)?;
    let content = match form {
        ReportForm::Lines => Content::Report {
            simulated,
            parts,
            rows,
        },
        ReportForm::Json => Content::Written(json_report(alloc, &rows, &parts)?.into_bytes()),
    };
    Ok(Answer { status, content })
}

pub(crate) fn rounds_answer(reports: Vec<RoundReport>) -> Answer
    ensures reports { result ≡ rounds_answer reports.items }
    ensures worked { IsWorked result.status }
{
    let status = if ends_well(&reports) {
        Status::Done
    } else {
        Status::No
    };
    Answer {
        status,
        content: Content::Rounds(reports),
    }
}

// Whether all is well in the last report; true where there is none.
fn ends_well(reports: &[RoundReport]) -> bool
    ensures { result ≡ rounds_end_well reports.now }
{
    match reports.last() {
        Some(last) => last.is_well(),
        None => true,
    }
}

fn round_status(rows: &[(u32, Outcome)]) -> Status
    ensures status { result ≡ (if all_accept rows.now then Status.Done else Status.No) }
    ensures worked { IsWorked result }
{
    if all_accept(rows) {
        Status::Done
    } else {
        Status::No
    }
}

// `TextError::NoMemory` has no text, and is passed on as the error.
pub(crate) fn refuse(alloc: Global, error: TextError) -> Result<Answer, NoMemory>
    ensures says { IfOk result (λ answer. answer ≡ refusal_answer error) }
    ensures refused { OnOk result (error ≢ TextError.NoMemory) }
    ensures worked { IfOk result (λ answer. IsWorked answer.status) }
{
    let text = match error {
        TextError::Form(line) => format!(in alloc; "refused form at {line}\n"),
        TextError::Limit(quantity) => format!(in alloc; "limit {quantity}\n"),
        TextError::Sense { number, place } => format!(in alloc; "refused {number} at {place}\n"),
        TextError::NoMemory => return Err(NoMemory),
    }?;
    Ok(Answer {
        status: refusal_status(error),
        content: Content::Written(text.into_bytes()),
    })
}

// `number` is that of the refusal, `place` the line or the identity at which it occurs.
pub(crate) fn refuse_at(alloc: Global, number: u8, place: u64) -> Result<Answer, NoMemory>
    ensures says { IfOk result (λ answer. answer ≡ refusal_answer (Sense number place)) }
    ensures worked { IfOk result (λ answer. IsWorked answer.status) }
{
    refuse(alloc, TextError::Sense { number, place })
}

fn refusal_status(error: TextError) -> Status
    ensures { result ≡ refusal_status error }
{
    match error {
        TextError::Form(_) | TextError::Sense { .. } => Status::Refused,
        TextError::Limit(_) => Status::Limit,
        TextError::NoMemory => Status::NoMemory,
    }
}
