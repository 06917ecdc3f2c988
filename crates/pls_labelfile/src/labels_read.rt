//! A text that is one labels part.

ghost use Rattle.std.specs.Prelude.{◌≡◌, ◌↔◌, ℕ, true, length, map, None, IfErr, IfOk, OnOk};
ghost use Rattle.std.specs.Result.{IsErrOf};
ghost use Rattle.pls_configuration.specs.Configuration.{ids_of};
ghost use Rattle.pls_lines.specs.Fault.{IsFirstFault};
ghost use Rattle.pls_labelfile.specs.LabelsText.{IsLabelsPart, Labelling, labelling_of, named};
ghost use Rattle.pls_labelfile.specs.LabelsScan.{TellsLabels};
ghost use Rattle.pls_labelfile.specs.Refusal.{IsLabelsRefusal, labels_refusal};

use crate::labels_text::LabelsText;
use pls_bits::CodeName;
use pls_graph::Network;
use pls_labels::LabelStore;
use pls_lines::read_whole;
use pls_streams::TextError;
use std::alloc::Global;

/// The labels of the nodes of a network and their number code, from a text that is one labels part
/// and nothing more.
///
/// `Form` with the number of the first line that is not of the form, which may stand behind `end`;
/// else the refusals of [`LabelsText::build`].
pub fn read_labels(
    alloc: Global,
    text: &[u8],
    net: &Network,
) -> Result<(CodeName, LabelStore), TextError>
    ensures ok { IfOk result (λ read.
        TellsLabels text.now (labelling_of read.0 (named (ids_of net.now) read.1))) }
    ensures lengths { IfOk result (λ read. length read.1 ≡ length net.now) }
    ensures code { (said : Labelling) → TellsLabels text.now said
        → IfOk result (λ read. read.0 ≡ said.code) }
    ensures only { (said : Labelling) → TellsLabels text.now said
        → IfOk result (λ read. read.1 ≡ map (λ label. label.bits) said.labels) }
    ensures accepted { (said : Labelling) → TellsLabels text.now said
        → OnOk result (labels_refusal (ids_of net.now) 1 said.labels ≡ None) }
    ensures refused { (said : Labelling) → TellsLabels text.now said
        → IfErr result (λ error. IsLabelsRefusal (ids_of net.now) 1 said.labels error) }
    ensures form { (line : ℕ) → IsErrOf result (TextError.Form line)
        ↔ IsFirstFault (IsLabelsPart true) text.now line }
{
    let part = read_whole::<LabelsText<'_>>(text)?;
    let labels = part.build(alloc, net)?;
    Ok((part.code(), labels))
}
