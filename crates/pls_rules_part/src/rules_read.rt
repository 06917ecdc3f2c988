//! Texts that are one rule set and nothing more.

ghost use Rattle.std.specs.Prelude.{◌≡◌, IfErr, IfOk};
ghost use Rattle.pls_streams.specs.declared.text_error.TextError.TheVariants.{NoMemory as OutOfMemory};
ghost use Rattle.pls_rules.specs.HeldTrees.{set_of};
ghost use Rattle.pls_rules.specs.RuleSet.{AreRules, Rules};
ghost use Rattle.pls_rules_part.specs.Printable.{IsPrintable};
ghost use Rattle.pls_rules_part.specs.Refusal.{IsRefusedRules};
ghost use Rattle.pls_rules_part.specs.RulesScan.{TellsRules};
ghost use Rattle.pls_rules_part.specs.RulesText.{RulesSaid, rules_text, said_of_set, set_said};

use crate::rules_text::RulesText;
use pls_lines::read_whole;
use pls_rules::RuleSet;
use pls_streams::TextError;
use std::alloc::Global;

/// The rule set of a text that is one rules part and nothing more. What
/// [`print_rules`](crate::print_rules) writes of a printable set is read back to that set, and of
/// what was read it writes the text.
///
/// `Form` with the number of the first line that is not of the form, as is a line behind `end`;
/// else the refusals of [`RulesText::build`].
pub fn read_rules(alloc: Global, text: &[u8]) -> Result<RuleSet, TextError>
    ensures same { (said : RulesSaid) → TellsRules text.now said
        → IfOk result (λ set. set_of set ≡ set_said said) }
    ensures sense { IfOk result (λ set. AreRules (set_of set)) }
    ensures prints { IfOk result (λ set. text.now ≡ rules_text (said_of_set (set_of set))) }
    ensures refused { IfErr result (λ error. IsRefusedRules text.now error) }
    ensures again { (set : Rules) → IsPrintable set → text.now ≡ rules_text (said_of_set set)
        → IfOk result (λ read. set_of read ≡ set) }
    ensures only { (set : Rules) → IsPrintable set → text.now ≡ rules_text (said_of_set set)
        → IfErr result (λ error. error ≡ OutOfMemory) }
{
    let part = read_whole::<RulesText<'_>>(text)?;
    part.build(alloc)
}
