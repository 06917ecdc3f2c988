//! The text of a rule set: scanned without memory, and read as the set.

ghost use Rattle.std.specs.Prelude.{◌≡◌, ◌+◌, IfErr, IfOk, None, OnErr, OnOk};
ghost use Rattle.pls_lines.specs.Lines.{IsFormFault};
ghost use Rattle.pls_rules.specs.HeldTrees.{set_of};
ghost use Rattle.pls_rules.specs.RuleSet.{AreRules};
ghost use Rattle.pls_rules_part.specs.Refusal.{IsRulesRefusal};
ghost use Rattle.pls_rules_part.specs.RulesScan.{IsRulesPart, PassesRules, TellsRules};
ghost use Rattle.pls_rules_part.specs.RulesText.{RulesSaid, rules_refusal, said_of_set, set_said};
ghost use Rattle.pls_rules_part.specs.inner.Adding.{StandsBehind};

use crate::rule_lines::set_of_lines;
use crate::rules_tally::RulesTally;
use pls_lines::{Lines, ListText, Part, scan};
use pls_rules::RuleSet;
use pls_streams::TextError;
use std::alloc::Global;
use std::marker::Model;

/// The text of a rules part, which it lends, and the number of its heading line.
#[derive(Drop)]
pub struct RulesText<'a> {
    part: ListText<'a, RulesTally>,
}

impl<'a> Model for RulesText<'a> {
    ghost use Rattle.pls_rules_part.specs.RulesScan.{HasRules, WrittenRules, written_rules};

    ghost Value = { WrittenRules };

    ghost view = { λ text. written_rules text.part.lines.rest text.part.lines.number };

    ghost invariant = { λ text.
        HasRules (written_rules text.part.lines.rest text.part.lines.number) };
}

impl<'a> Part<'a> for RulesText<'a> {
    ghost use Rattle.pls_rules_part.specs.RulesScan.{IsRulesPart, PassesRules};
    ghost use Rattle.pls_rules_part.specs.laws.LineLaws.{rules_some_part};

    ghost Format = { IsRulesPart };

    ghost Passed = { PassesRules };

    ghost part_law = { rules_some_part };

    fn pass(lines: &mut Lines<'a>) -> Result<Self, TextError> {
        let part = ListText::<'a, RulesTally>::pass(lines)?;
        Ok(RulesText { part })
    }
}

/// Reads one rules part, which the reader passes. It takes no memory.
///
/// The one refusal is `Form`, with the number of the first line that is not of the form; then the
/// reader stays.
pub fn scan_rules<'a>(lines: &mut Lines<'a>) -> Result<RulesText<'a>, TextError>
    ensures ok { IfOk result (λ part. PassesRules lines.old lines.new part) }
    ensures form { IfErr result (λ error. IsFormFault IsRulesPart lines.old error) }
    ensures unchanged { OnErr result (lines.new ≡ lines.old) }
{
    scan(lines)
}

impl<'a> RulesText<'a> {
    /// The rule set that the text says. Its time is linear in the text.
    ///
    /// `Sense` names the first line that is refused: by
    /// [`DEPTH`](pls_streams::refusal_number::DEPTH) where parentheses in a rule stand more than 31
    /// deep, or more than 2 quantifiers inside one another; else by
    /// [`FIELD`](pls_streams::refusal_number::FIELD) where a field has the name of an earlier one,
    /// or a rule names no field or asks of a neighbour outside of all quantifiers. `NoMemory` for
    /// want of memory.
    pub fn build(&self, alloc: Global) -> Result<RuleSet, TextError>
        ensures same { (said : RulesSaid) → TellsRules self.now.text said
            → IfOk result (λ set. set_of set ≡ set_said said) }
        ensures back { (said : RulesSaid) → TellsRules self.now.text said
            → IfOk result (λ set. said_of_set (set_of set) ≡ said) }
        ensures accepted { (said : RulesSaid) → TellsRules self.now.text said
            → OnOk result (rules_refusal self.now.number said ≡ None) }
        ensures sense { IfOk result (λ set. AreRules (set_of set)) }
        ensures refused { (said : RulesSaid) → TellsRules self.now.text said
            → IfErr result (λ error. IsRulesRefusal self.now.number said error) }
    {
        set_of_lines(alloc, self.behind_heading())
    }

    fn behind_heading(&self) -> Lines<'a>
        ensures some { (said : RulesSaid) × StandsBehind said result.rest }
        ensures number { (said : RulesSaid) → TellsRules self.now.text said
            → result.number ≡ self.now.number + 1 }
        ensures stands { (said : RulesSaid) → TellsRules self.now.text said
            → StandsBehind said result.rest }
    {
        let mut lines = self.part.lines.again();
        lines.pass(b"rules");
        lines
    }
}
