//! The text of a labels part, as it was scanned.

ghost use Rattle.std.specs.Prelude.{◌≡◌};

use crate::labels_tally::LabelsTally;
use pls_bits::CodeName;
use pls_lines::ListText;
use std::marker::Model;

/// The text of a labels part, which it lends, the number code of its labels, the number of its
/// heading line, and how many bits its labels have together.
#[derive(Drop)]
pub struct LabelsText<'a> {
    pub(crate) part: ListText<'a, LabelsTally>,
}

impl<'a> Model for LabelsText<'a> {
    ghost use Rattle.pls_labelfile.specs.LabelsScan.{HasLabels, WrittenLabels, written_labels};

    ghost Value = { WrittenLabels };

    ghost view = { λ text. written_labels text.part.heading text.part.lines.rest
        text.part.lines.number text.part.kept.bits };

    ghost invariant = { λ text.
        HasLabels (written_labels text.part.heading text.part.lines.rest text.part.lines.number
        text.part.kept.bits) };
}

impl<'a> LabelsText<'a> {
    /// The number code of the labels, which the heading names.
    pub fn code(&self) -> CodeName
        ensures { result ≡ self.now.code }
    {
        self.part.heading.code
    }

    /// How many bits the label lines state together, and `u64::MAX` at the most.
    pub fn bits(&self) -> u64
        ensures { result ≡ self.now.bits }
    {
        self.part.kept.bits
    }
}
