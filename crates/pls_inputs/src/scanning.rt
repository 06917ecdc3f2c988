//! How the parts of an input are scanned, one behind the other.

ghost use Rattle.std.specs.Prelude.{IfErr, IfOk, OnOk};
ghost use Rattle.pls_lines.specs.Fault.{NamesFirstFault};
ghost use Rattle.pls_lines.specs.Lines.{IsFormFault};
ghost use Rattle.pls_lines.specs.Part.{PassesFormat};
ghost use Rattle.pls_labelfile.specs.LabelsScan.{PassesPart};
ghost use Rattle.pls_labelfile.specs.LabelsText.{IsLabelsPart};
ghost use Rattle.pls_netfile.specs.NetworkScan.{PassesNetwork};
ghost use Rattle.pls_netfile.specs.NetworkText.{IsNetworkPart};
ghost use Rattle.pls_inputs.specs.Parts.{AreLines};
ghost use Rattle.pls_inputs.specs.inner.Scanned.{If, IsScanned, PassesIf};

use crate::parts::Parts;
use crate::texts::Texts;
use pls_edits::ReadEdits;
use pls_labelfile::{LabelsText, scan_labels};
use pls_lines::{Lines, Part, ReadOnce};
use pls_netfile::{ReadNetwork, pass_network};
use pls_rules_part::RulesText;
use pls_schedule::ReadSchedule;
use pls_streams::TextError;
use pls_watch_part::ReadWatch;
use std::alloc::Global;

// The wanted parts must make up all of `bytes`; short memory only limits what is kept.
pub(crate) fn scan_parts<'a>(
    alloc: Global,
    parts: Parts,
    bytes: &'a [u8],
) -> Result<Texts<'a>, TextError>
    ensures scanned { IfOk result (λ texts. IsScanned parts bytes.now texts) }
    ensures form { IfErr result (λ error. NamesFirstFault (AreLines parts) bytes.now error) }
{
    let mut lines = Lines::new(bytes);
    let network = pass_network_if(alloc, parts.network, &mut lines)?;
    let labels = pass_labels_if(parts.labels, parts.delta, &mut lines)?;
    let schedule = keep_if::<ReadSchedule<'a>>(alloc, parts.schedule, &mut lines)?;
    let edits = keep_if::<ReadEdits<'a>>(alloc, parts.edits, &mut lines)?;
    let watch = keep_if::<ReadWatch<'a>>(alloc, parts.watch, &mut lines)?;
    let rules = pass_if::<RulesText<'a>>(parts.rules, &mut lines)?;
    if !lines.at_end() {
        return Err(lines.form_error());
    }
    Ok(Texts {
        network,
        labels,
        schedule,
        edits,
        watch,
        rules,
    })
}

fn pass_network_if<'a>(
    alloc: Global,
    wanted: bool,
    lines: &mut Lines<'a>,
) -> Result<Option<ReadNetwork<'a>>, TextError>
    ensures passed { IfOk result
        (λ part. PassesIf wanted PassesNetwork lines.old lines.new part) }
    ensures format { OnOk result (PassesFormat (If wanted IsNetworkPart) lines.old lines.new) }
    ensures form { IfErr result (λ error. IsFormFault (If wanted IsNetworkPart) lines.old error) }
{
    if !wanted {
        return Ok(None);
    }
    let part = pass_network(alloc, lines)?;
    Ok(Some(part))
}

// `delta` says whether the delta code is allowed.
fn pass_labels_if<'a>(
    wanted: bool,
    delta: bool,
    lines: &mut Lines<'a>,
) -> Result<Option<LabelsText<'a>>, TextError>
    ensures passed { IfOk result
        (λ part. PassesIf wanted (PassesPart delta) lines.old lines.new part) }
    ensures format { OnOk result
        (PassesFormat (If wanted (IsLabelsPart delta)) lines.old lines.new) }
    ensures form { IfErr result
        (λ error. IsFormFault (If wanted (IsLabelsPart delta)) lines.old error) }
{
    if !wanted {
        return Ok(None);
    }
    let part = scan_labels(lines, delta)?;
    Ok(Some(part))
}

fn pass_if<'a, P: Part<'a>>(wanted: bool, lines: &mut Lines<'a>) -> Result<Option<P>, TextError>
    ensures passed { IfOk result (λ part. PassesIf wanted P.Passed lines.old lines.new part) }
    ensures format { OnOk result (PassesFormat (If wanted P.Format) lines.old lines.new) }
    ensures form { IfErr result (λ error. IsFormFault (If wanted P.Format) lines.old error) }
{
    if !wanted {
        return Ok(None);
    }
    let part = P::pass(lines)?;
    Ok(Some(part))
}

// Keeps what the part says as far as there is memory.
fn keep_if<'a, P: ReadOnce<'a>>(
    alloc: Global,
    wanted: bool,
    lines: &mut Lines<'a>,
) -> Result<Option<P>, TextError>
    ensures passed { IfOk result (λ part. PassesIf wanted P.Passed lines.old lines.new part) }
    ensures format { OnOk result (PassesFormat (If wanted P.Format) lines.old lines.new) }
    ensures form { IfErr result (λ error. IsFormFault (If wanted P.Format) lines.old error) }
{
    if !wanted {
        return Ok(None);
    }
    let part = P::keep(alloc, lines)?;
    Ok(Some(part))
}
