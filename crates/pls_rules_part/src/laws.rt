//! Laws of the text of a rule set. Their functions do nothing: each says what holds of the
//! definitions.

ghost use Rattle.std.specs.Prelude.{◌≡◌, ℕ, List, ◌++◌, None};
ghost use Rattle.pls_lines.specs.Fault.{IsFirstFault};
ghost use Rattle.pls_rules.specs.RuleSet.{Rules};
ghost use Rattle.pls_rules_part.specs.Printable.{IsPrintable};
ghost use Rattle.pls_rules_part.specs.RulesScan.{IsRulesPart};
ghost use Rattle.pls_rules_part.specs.RulesText.{AreRulesSaid, RulesSaid, rules_refusal, rules_text, said_of_set, set_said};

/// A text fixes the fields and rules at its front, and what follows them.
pub fn text_fixes_rules()
    ensures { (a b : RulesSaid) (x y : List ℕ) → AreRulesSaid a → AreRulesSaid b
        → rules_text a ++ x ≡ rules_text b ++ y → (a ≡ b) × (x ≡ y) }
{}

/// A text that is no rules part has one first faulty line at most.
pub fn one_first_fault()
    ensures { (text : List ℕ) (j k : ℕ) → IsFirstFault IsRulesPart text j
        → IsFirstFault IsRulesPart text k → j ≡ k }
{}

/// A part that is not refused says a set that says the part.
pub fn said_again()
    ensures { (said : RulesSaid) (heading : ℕ) → AreRulesSaid said
        → rules_refusal heading said ≡ None → said_of_set (set_said said) ≡ said }
{}

/// A printable set says a part that is not refused, and that says the set.
pub fn printable_again()
    ensures allowed { (set : Rules) → IsPrintable set → AreRulesSaid (said_of_set set) }
    ensures accepted { (set : Rules) (heading : ℕ) → IsPrintable set
        → rules_refusal heading (said_of_set set) ≡ None }
    ensures same { (set : Rules) → IsPrintable set → set_said (said_of_set set) ≡ set }
{}
