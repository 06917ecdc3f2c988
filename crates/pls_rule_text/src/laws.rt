//! What holds of the texts of all rules.

ghost use Rattle.std.specs.Prelude.{◌≡◌, ◌≢◌, ◌≤◌, All, None, length};
ghost use Rattle.std.specs.List.{AllByRecursion};
ghost use Rattle.pls_rules.specs.HeldTrees.{formula_of};
ghost use Rattle.pls_rules.specs.RuleSet.{IsRule};
ghost use Rattle.pls_rule_text.specs.FieldNames.{NamesDiffer, name_at, names_of};
ghost use Rattle.pls_rule_text.specs.FormulaText.{IsFieldName, formula_text};
ghost use Rattle.pls_rule_text.specs.RuleText.{FitsRule, RuleSaid, Shallow, formula_with, place_of_name, rule_refusal, rule_text};
ghost use Rattle.pls_rule_text.specs.inner.Said.{rule_said};

use pls_rules::{BoolExpr, Field};

/// A rule is what its text says, so that rules with one text are one; the text is not empty, and
/// has neither a line feed nor a blank.
pub fn one_rule()
    ensures said { (rule : RuleSaid) → FitsRule rule → rule_said (rule_text rule) ≡ rule }
    ensures one { (rule other : RuleSaid) → FitsRule rule → FitsRule other
        → rule_text rule ≡ rule_text other → rule ≡ other }
    ensures some { (rule : RuleSaid) → FitsRule rule → 1 ≤ length (rule_text rule) }
    ensures line { (rule : RuleSaid) → FitsRule rule
        → AllByRecursion (λ character. character ≢ 10) (rule_text rule) }
    ensures whole { (rule : RuleSaid) → FitsRule rule
        → AllByRecursion (λ character. character ≢ 32) (rule_text rule) }
{}

/// What is printed of a rule is the text of a rule, which is not refused, and from which the rule
/// is read again.
pub fn printed_rule(fields: &[Field], rule: &BoolExpr)
    requires names { All IsFieldName (names_of fields.now) }
    requires distinct { NamesDiffer (names_of fields.now) }
    requires rule { IsRule (length (names_of fields.now)) (formula_of rule.now) }
    requires few { length (formula_text (name_at (names_of fields.now)) (formula_of rule.now))
        ≤ 4096 }
    ensures text { formula_text (name_at (names_of fields.now)) (formula_of rule.now)
        ≡ rule_text (Shallow (formula_with (name_at (names_of fields.now)) (formula_of rule.now))) }
    ensures fits { FitsRule (Shallow
        (formula_with (name_at (names_of fields.now)) (formula_of rule.now))) }
    ensures sense { rule_refusal (names_of fields.now)
        (Shallow (formula_with (name_at (names_of fields.now)) (formula_of rule.now))) ≡ None }
    ensures again { formula_with (place_of_name (names_of fields.now))
        (formula_with (name_at (names_of fields.now)) (formula_of rule.now)) ≡ formula_of rule.now }
{}
