//! The lines of a rules part, read without memory.

ghost use Rattle.std.specs.Prelude.{◌≡◌, ◌≢◌, ◌≤◌, ℕ, List, [], ◌∷◌, ◌++◌, length, IfErr, IfNone, IfSome, None, OnOk, codes};
ghost use Rattle.pls_lines.specs.Text.{line_of};
ghost use Rattle.pls_rule_text.specs.RuleText.{IsRuleText};
ghost use Rattle.pls_rule_text.specs.FieldNames.{names_of};
ghost use Rattle.pls_rules_part.specs.Refusal.{SaysTextRefusal};
ghost use Rattle.pls_rules_part.specs.RulesScan.{FitsWords, words_of};
ghost use Rattle.pls_rules_part.specs.RulesText.{FitsRuleLine, RuleLine};
ghost use Rattle.pls_rules_part.specs.inner.Adding.{AddsLine, at_line, line_refusal};
ghost use Rattle.pls_rules_part.specs.inner.Tally.{is_field};

use crate::field_line::field_words;
use crate::rule_adding::{add_field, rule_at};
use crate::word_before::word_before;
use pls_lines::{LineKind, after_word};
use pls_rule_text::is_rule_text;
use pls_rules::{FieldKind, RuleSet};
use pls_streams::TextError;
use std::alloc::Global;
use std::marker::Model;

/// What a line of a rules part says, seen as its words, which are lent.
#[derive(Drop)]
pub(crate) struct RuleWords<'a> {
    words: Words<'a>,
}

/// The words of a line, behind the first.
#[derive(Drop)]
pub(crate) enum Words<'a> {
    // A field.
    Field(&'a [u8], FieldKind),
    // The text of a rule.
    Rule(&'a [u8]),
}

impl<'a> Model for RuleWords<'a> {
    ghost use Rattle.pls_rules_part.specs.RulesScan.{LineWords};
    ghost use Rattle.pls_rules_part.specs.inner.Words.{words_lent};

    ghost Value = { LineWords };

    ghost view = { λ line. words_lent line.words };
}

impl<'a> LineKind<'a> for RuleWords<'a> {
    ghost use Rattle.pls_rules_part.specs.RulesScan.{FitsWords, words_line};
    ghost use Rattle.pls_rules_part.specs.laws.LineLaws.{lines_of_rules};

    ghost written = { words_line };

    ghost Fits = { FitsWords };

    ghost kind_law = { lines_of_rules };

    fn read(text: &'a [u8]) -> Option<(Self, &'a [u8])> {
        if let Some((name, kind, rest)) = field_words(text) {
            let words = Words::Field(name, kind);
            return Some((RuleWords { words }, rest));
        }
        let (rule, rest) = rule_words(text)?;
        let words = Words::Rule(rule);
        Some((RuleWords { words }, rest))
    }
}

impl<'a> RuleWords<'a> {
    pub(crate) fn is_field(&self) -> bool
        ensures { result ≡ is_field self.now }
    {
        matches!(&self.words, Words::Field(_, _))
    }
}

impl<'a> RuleWords<'a> {
    // `place` is the number of the line; `Sense` carries the number that refuses it.
    pub(crate) fn add_to(
        &self,
        alloc: Global,
        set: &mut RuleSet,
        place: u64,
    ) -> Result<(), TextError>
        requires fits { FitsWords self.now }
        requires few { length set.old.fields.items ≤ 8 }
        ensures added { (line : RuleLine) → FitsRuleLine line → self.now ≡ words_of line
            → OnOk result (AddsLine set.old set.new line) }
        ensures sense { (line : RuleLine) → FitsRuleLine line → self.now ≡ words_of line
            → OnOk result (line_refusal (names_of set.old.fields.items) line ≡ None) }
        ensures refused { (line : RuleLine) → FitsRuleLine line → self.now ≡ words_of line
            → IfErr result (SaysTextRefusal (at_line place
            (line_refusal (names_of set.old.fields.items) line))) }
    {
        match &self.words {
            Words::Field(name, kind) => add_field(alloc, &mut set.fields, name, *kind, place),
            Words::Rule(text) => {
                let rule = rule_at(alloc, &set.fields, text, place)?;
                set.rules.push(rule)?;
                Ok(())
            }
        }
    }
}

// The rule of a line `rule EXPR` at the front, and the text behind its line feed.
fn rule_words(text: &[u8]) -> Option<(&[u8], &[u8])>
    ensures rule { IfSome result (λ read. IsRuleText read.0.now) }
    ensures stands { IfSome result (λ read.
        text.now ≡ line_of (codes "rule" ∷ read.0.now ∷ []) ++ 10 ∷ read.1.now) }
    ensures none { IfNone result ((rule rest : List ℕ) → IsRuleText rule
        → text.now ≢ line_of (codes "rule" ∷ rule ∷ []) ++ 10 ∷ rest) }
{
    let line = after_word(text, b"rule")?;
    let (rule, rest) = word_before(line, b'\n')?;
    if is_rule_text(rule) {
        Some((rule, rest))
    } else {
        None
    }
}
