//! The lines of a rules part, read as the rule set that they say.

ghost use Rattle.std.specs.Prelude.{◌≡◌, ◌+◌, List, IfErr, IfOk, None, OnOk};
ghost use Rattle.pls_rules.specs.HeldTrees.{set_of};
ghost use Rattle.pls_rules_part.specs.Refusal.{SaysTextRefusal};
ghost use Rattle.pls_rules_part.specs.RulesText.{RulesSaid, set_said};
ghost use Rattle.pls_rules_part.specs.inner.Adding.{StandsBehind, refusal_from};

use crate::rule_words::RuleWords;
use pls_lines::{Lines, next_of};
use pls_rules::RuleSet;
use pls_streams::TextError;
use std::alloc::Global;

/// The set that the lines behind the heading of a part say. `Sense` with the number by which the
/// first line is refused that is, and the number of that line; `NoMemory` for want of memory.
pub(crate) fn set_of_lines(alloc: Global, mut lines: Lines<'_>) -> Result<RuleSet, TextError>
    requires { (said : RulesSaid) × StandsBehind said lines.rest }
    ensures same { (said : RulesSaid) → StandsBehind said lines.entry.rest
        → IfOk result (λ set. set_of set ≡ set_said said) }
    ensures accepted { (said : RulesSaid) → StandsBehind said lines.entry.rest
        → OnOk result (refusal_from lines.entry.number said ≡ None) }
    ensures refused { (said : RulesSaid) → StandsBehind said lines.entry.rest
        → IfErr result (SaysTextRefusal (refusal_from lines.entry.number said)) }
{
    let mut set = RuleSet {
        fields: Vec::new(alloc),
        rules: Vec::new(alloc),
    };
    let mut place = lines.number();
    while let Some(line) = next_of::<RuleWords<'_>>(&mut lines) {
        line.add_to(alloc, &mut set, place)?;
        place = lines.number();
    }
    Ok(set)
}
