//! What a node answers.

use std::fmt;

/// The verdict of one node on what it sees. Its text is `accept` or `reject LEAF RULE`.
#[derive(Clone, Copy, Debug, PartialEq, Eq)]
pub enum Verdict {
    /// Every rule of the scheme holds in the node's view.
    Accept,
    /// A rule fails.
    Reject {
        /// Which scheme name of an expression rejects, counted from 1 from the left, where a `map`
        /// counts as one; 0 where a rule of an `and` or an `or` fails: a label without two parts or
        /// without a tag, or two tags that differ.
        leaf: u8,
        /// The number of the first rule that fails, from 1.
        rule: u8,
    },
}

impl fmt::Display for Verdict {
    ghost use Rattle.std.specs.Prelude.{Some};
    ghost use Rattle.pls_configuration.specs.Verdict.{verdict_text};

    ghost output = { λ verdict. Some (verdict_text verdict) };

    fn fmt<W: fmt::Write>(&self, f: &mut fmt::Formatter<W>) -> fmt::Result {
        match self {
            Verdict::Accept => f.write_str("accept"),
            Verdict::Reject { leaf, rule } => write!(f, "reject {leaf} {rule}"),
        }
    }
}
