//! Two parts, one after the other, as one part; and so as many as there are.

ghost use Rattle.pls_lines.specs.Fault.{Then};
ghost use Rattle.pls_lines.specs.Part.{PassesBoth};
ghost use Rattle.pls_lines.specs.laws.BothLaws.{both_are_part};

use crate::lines::Lines;
use crate::part::Part;
use pls_streams::TextError;

/// What is kept of two parts that stand one after the other.
#[derive(Drop)]
pub struct Both<A, B> {
    /// The first.
    pub first: A,
    /// The second.
    pub second: B,
}

impl<'a, A: Part<'a>, B: Part<'a>> Part<'a> for Both<A, B> {
    ghost Format = { Then A.Format B.Format };

    ghost Passed = { λ old new both. PassesBoth A.Passed B.Passed old new both.first both.second };

    ghost part_law = { both_are_part A.Format B.Format A.part_law B.part_law };

    fn pass(lines: &mut Lines<'a>) -> Result<Self, TextError> {
        A::laws();
        B::laws();
        let first = A::pass(lines)?;
        let second = B::pass(lines)?;
        Ok(Both { first, second })
    }
}
