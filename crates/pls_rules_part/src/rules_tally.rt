//! The rules part as a list of lines.

ghost use Rattle.std.specs.Prelude.{◌≡◌, ◌+◌, ◌<◌, ◌≤◌, List, []};
ghost use Rattle.std.specs.Bool.{OnFalse, OnTrue};
ghost use Rattle.pls_lines.specs.ListPart.{Begun};
ghost use Rattle.pls_rules_part.specs.RulesScan.{AreRuleLines, LineWords};
ghost use Rattle.pls_rules_part.specs.inner.Tally.{rules_tally};

use crate::rule_words::RuleWords;
use pls_lines::{BareHeading, HeadingWord, ListTally};

// The greatest number of fields, and of rules.
const MOST_FIELDS: u8 = 8;

const MOST_RULES: u8 = 32;

/// The heading of a rules part.
#[derive(Drop)]
pub struct RulesWord;

impl HeadingWord for RulesWord {
    ghost use Rattle.std.specs.Prelude.{codes};
    ghost use Rattle.pls_rules_part.specs.laws.LineLaws.{rules_word};

    ghost word = { codes "rules" };

    ghost word_law = { rules_word };

    fn word() -> &'static [u8] {
        b"rules"
    }
}

/// How many fields and how many rules a part has.
#[derive(Drop)]
pub(crate) struct RulesTally {
    pub(crate) fields: u8,
    pub(crate) rules: u8,
}

impl<'a> ListTally<'a> for RulesTally {
    ghost use Rattle.pls_rules_part.specs.RulesScan.{AreRuleLines};
    ghost use Rattle.pls_rules_part.specs.inner.Tally.{rules_tally};
    ghost use Rattle.pls_rules_part.specs.laws.LineLaws.{rules_list};

    type Heading = BareHeading<RulesWord>;

    type Item = RuleWords<'a>;

    ghost Are = { AreRuleLines };

    ghost tally = { rules_tally };

    ghost list_law = { rules_list };

    fn none() -> Self
        ensures { result ≡ rules_tally [] }
    {
        RulesTally {
            fields: 0,
            rules: 0,
        }
    }

    fn take(&mut self, item: &RuleWords<'a>) -> bool {
        if item.is_field() {
            self.take_field()
        } else {
            self.take_rule()
        }
    }

    fn is_whole(&self) -> bool
        ensures whole { OnTrue result ((lines : List LineWords) → Begun AreRuleLines lines
            → self.now ≡ rules_tally lines → AreRuleLines lines) }
        ensures other { OnFalse result ((lines : List LineWords) → Begun AreRuleLines lines
            → self.now ≡ rules_tally lines → AreRuleLines lines → ⊥) }
    {
        self.fields > 0
    }
}

impl RulesTally {
    // False where a rule came before, or the fields are eight already.
    fn take_field(&mut self) -> bool
        ensures first { OnTrue result (self.old.rules ≡ 0) }
        ensures room { OnTrue result (self.old.fields < 8) }
        ensures fields { OnTrue result (self.new.fields ≡ self.old.fields + 1) }
        ensures rules { OnTrue result (self.new.rules ≡ self.old.rules) }
        ensures other { OnFalse result (self.old.rules ≡ 0 → self.old.fields < 8 → ⊥) }
        ensures unchanged { OnFalse result (self.new ≡ self.old) }
    {
        if self.rules > 0 {
            return false;
        }
        if self.fields >= MOST_FIELDS {
            return false;
        }
        self.fields += 1;
        true
    }

    // False where no field came before, or the rules are 32 already.
    fn take_rule(&mut self) -> bool
        ensures some { OnTrue result (1 ≤ self.old.fields) }
        ensures room { OnTrue result (self.old.rules < 32) }
        ensures fields { OnTrue result (self.new.fields ≡ self.old.fields) }
        ensures rules { OnTrue result (self.new.rules ≡ self.old.rules + 1) }
        ensures other { OnFalse result (1 ≤ self.old.fields → self.old.rules < 32 → ⊥) }
        ensures unchanged { OnFalse result (self.new ≡ self.old) }
    {
        if self.fields == 0 {
            return false;
        }
        if self.rules >= MOST_RULES {
            return false;
        }
        self.rules += 1;
        true
    }
}
