//! The labels part as a list of lines.

ghost use Rattle.std.specs.Prelude.{◌≡◌, List, [], All};
ghost use Rattle.std.specs.Bool.{OnFalse, OnTrue};
ghost use Rattle.pls_lines.specs.ListPart.{Begun};
ghost use Rattle.pls_labelfile.specs.LabelsText.{FitsLabel, NamedLabel};
ghost use Rattle.pls_labelfile.specs.inner.LabelsTally.{labels_tally};

use crate::label_line::LabelLine;
use crate::labels_heading::LabelsHeading;
use pls_lines::ListTally;

/// How many bits the labels of a part have together, and `u64::MAX` at the most.
#[derive(Drop)]
pub struct LabelsTally {
    /// The number of bits.
    pub bits: u64,
}

impl<'a> ListTally<'a> for LabelsTally {
    ghost use Rattle.std.specs.Prelude.{All};
    ghost use Rattle.pls_labelfile.specs.LabelsText.{FitsLabel};
    ghost use Rattle.pls_labelfile.specs.inner.LabelsTally.{labels_tally};
    ghost use Rattle.std.specs.Prelude.{true};
    ghost use Rattle.pls_labelfile.specs.laws.LabelLaws.{labels_list};

    type Heading = LabelsHeading;

    type Item = LabelLine<'a>;

    ghost Are = { All FitsLabel };

    ghost tally = { labels_tally };

    ghost list_law = { labels_list true };

    fn none() -> Self
        ensures { result ≡ labels_tally [] }
    {
        LabelsTally { bits: 0 }
    }

    fn take(&mut self, item: &LabelLine<'a>) -> bool {
        self.bits = self.bits.saturating_add(item.len() as u64);
        true
    }

    fn is_whole(&self) -> bool
        ensures whole { OnTrue result ((items : List NamedLabel) → Begun (All FitsLabel) items
            → self.now ≡ labels_tally items → All FitsLabel items) }
        ensures other { OnFalse result ((items : List NamedLabel) → Begun (All FitsLabel) items
            → self.now ≡ labels_tally items → All FitsLabel items → ⊥) }
    {
        true
    }
}
