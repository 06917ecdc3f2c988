//! The heading of a labels part.

ghost use Rattle.std.specs.Prelude.{◌≡◌, ◌++◌, [], ◌∷◌};
ghost use Rattle.pls_labelfile.specs.LabelsText.{labels_heading_text};

use pls_bits::CodeName;
use pls_lines::{LineKind, after_line};
use std::marker::Model;

/// What the heading of a labels part says, seen as the number code that it names.
#[derive(Drop)]
pub struct LabelsHeading {
    /// The code of the labels.
    pub code: CodeName,
}

impl Model for LabelsHeading {
    ghost use Rattle.pls_bits.specs.declared.code_name.CodeName.{CodeName};

    ghost Value = { CodeName };

    ghost view = { λ heading. heading.code };
}

impl<'a> LineKind<'a> for LabelsHeading {
    ghost use Rattle.std.specs.Prelude.{true};
    ghost use Rattle.pls_labelfile.specs.LabelsText.{MayHead, labels_heading_text};
    ghost use Rattle.pls_labelfile.specs.laws.LabelLaws.{labels_headings};

    ghost written = { labels_heading_text };

    ghost Fits = { MayHead true };

    ghost kind_law = { labels_headings true };

    fn read(text: &'a [u8]) -> Option<(Self, &'a [u8])> {
        if let Some(rest) = after_line(text, b"labels") {
            return Some((
                LabelsHeading {
                    code: CodeName::Gamma,
                },
                rest,
            ));
        }
        let rest = after_line(text, b"labels delta")?;
        Some((
            LabelsHeading {
                code: CodeName::Delta,
            },
            rest,
        ))
    }
}

// Includes the line feed.
pub(crate) fn heading_line(code: CodeName) -> &'static [u8]
    ensures { result.now ≡ labels_heading_text code ++ 10 ∷ [] }
{
    match code {
        CodeName::Gamma => b"labels\n",
        CodeName::Delta => b"labels delta\n",
    }
}
