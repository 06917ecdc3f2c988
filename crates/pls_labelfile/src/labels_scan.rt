//! How a labels part is passed without memory.

ghost use Rattle.std.specs.Prelude.{◌≡◌, IfErr, IfOk, OnErr};
ghost use Rattle.pls_lines.specs.Lines.{IsFormFault};
ghost use Rattle.pls_labelfile.specs.LabelsText.{IsLabelsPart};
ghost use Rattle.pls_labelfile.specs.LabelsScan.{PassesPart};

use crate::labels_tally::LabelsTally;
use crate::labels_text::LabelsText;
use pls_lines::{Lines, ListText, Part, scan};
use pls_streams::TextError;

/// Reads one labels part, which the reader passes; `delta` says whether its heading may be
/// `labels delta`. It takes no memory.
///
/// The one refusal is `Form`, with the number of the first line that is not of the form; then the
/// reader stays.
pub fn scan_labels<'a>(lines: &mut Lines<'a>, delta: bool) -> Result<LabelsText<'a>, TextError>
    ensures ok { IfOk result (λ part. PassesPart delta lines.old lines.new part) }
    ensures form { IfErr result (λ error. IsFormFault (IsLabelsPart delta) lines.old error) }
    ensures unchanged { OnErr result (lines.new ≡ lines.old) }
{
    if !delta && lines.again().pass(b"labels delta") {
        return Err(lines.form_error());
    }
    scan(lines)
}

impl<'a> Part<'a> for LabelsText<'a> {
    ghost use Rattle.std.specs.Prelude.{true};
    ghost use Rattle.pls_labelfile.specs.LabelsText.{IsLabelsPart};
    ghost use Rattle.pls_labelfile.specs.LabelsScan.{PassesPart};
    ghost use Rattle.pls_labelfile.specs.laws.LabelLaws.{labels_some_part};

    ghost Format = { IsLabelsPart true };

    ghost Passed = { PassesPart true };

    ghost part_law = { labels_some_part true };

    fn pass(lines: &mut Lines<'a>) -> Result<Self, TextError> {
        let part = ListText::<'a, LabelsTally>::pass(lines)?;
        Ok(LabelsText { part })
    }
}
