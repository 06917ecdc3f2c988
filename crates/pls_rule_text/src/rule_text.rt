//! Rules as texts.

ghost use Rattle.std.specs.Prelude.{◌≡◌, ◌≤◌, ◌↔◌, true, IfErr, IfOk, IsTrue, None, Some, length, option_map};
ghost use Rattle.std.specs.List.{list_all};
ghost use Rattle.std.specs.Option.{is_some};
ghost use Rattle.pls_rules.specs.HeldTrees.{formula_of};
ghost use Rattle.pls_rule_text.specs.FieldNames.{names_of};
ghost use Rattle.pls_rule_text.specs.RuleText.{FitsRule, IsRuleText, RuleSaid, formula_with, place_of_name, rule_refusal, rule_text};
ghost use Rattle.pls_rule_text.specs.Refused.{IfRefused, IsTreeOf};
ghost use Rattle.pls_rule_text.specs.inner.Fronts.{formula_in};
ghost use Rattle.pls_rule_text.specs.inner.Places.{placed_refusal};
ghost use Rattle.pls_rule_text.specs.inner.Said.{is_character, is_rule};

use crate::ends::formula_end;
use crate::rule_error::RuleError;
use crate::sense::{is_placed, nesting_of};
use crate::trees::formula_front;
use pls_fronts::is_deeper;
use pls_rules::{BoolExpr, Field};
use pls_streams::NoMemory;
use pls_streams::refusal_number::{DEPTH, FIELD};
use std::alloc::Global;

// The greatest number of characters in a rule.
const MOST_CHARACTERS: usize = 4096;

// How deep parentheses may stand.
const MOST_DEPTH: u8 = 31;

// How many quantifiers may stand inside one another.
const MOST_NESTING: u8 = 2;

/// Whether a text is that of a rule: a formula of the grammar, or 1 to 4,096 of its characters, in
/// which parentheses stand more than 31 deep. It takes no memory, and goes over the text a fixed
/// number of times.
pub fn is_rule_text(text: &[u8]) -> bool
    ensures { IsTrue result ↔ IsRuleText text.now }
{
    is_rule(text)
}

fn is_rule(text: &[u8]) -> bool
    ensures { result ≡ is_rule text.now }
{
    if text.len() > MOST_CHARACTERS {
        false
    } else if is_deeper(text, MOST_DEPTH) {
        are_characters(text)
    } else {
        is_formula(text)
    }
}

fn are_characters(text: &[u8]) -> bool
    ensures { result ≡ list_all is_character text.now }
{
    for character in text {
        if !is_character(*character) {
            return false;
        }
    }
    true
}

// Whether the character may occur in a rule.
fn is_character(character: u8) -> bool
    ensures { result ≡ is_character character }
{
    matches!(character, b'a'..=b'z' | b'0'..=b'9' | b'.' | b',' | b'(' | b')')
}

// Whether the whole text is a formula of at most 31 levels.
fn is_formula(text: &[u8]) -> bool
    ensures { result ≡ is_some (formula_in text.now) }
{
    match formula_end(text, MOST_DEPTH) {
        Some(rest) => rest.is_empty(),
        None => false,
    }
}

/// The rule that a text says, over fields that it may name; a field stands by its place. The errors
/// are `Refused` with the number by which the rule is refused (`specs/RuleText`: `rule_refusal`):
/// 51 where parentheses stand more than 31 deep, or more than 2 quantifiers inside one another,
/// else 50 where a name is none of the fields', or a neighbour is asked outside of all quantifiers;
/// and `NoMemory`.
pub fn read_rule(alloc: Global, fields: &[Field], text: &[u8]) -> Result<BoolExpr, RuleError>
    requires rule { IsRuleText text.now }
    requires few { length fields.now ≤ 8 }
    ensures ok { (rule : RuleSaid) → FitsRule rule → text.now ≡ rule_text rule
        → IfOk result (λ tree. IsTreeOf (names_of fields.now) rule (formula_of tree)) }
    ensures sense { (rule : RuleSaid) → FitsRule rule → text.now ≡ rule_text rule
        → IfOk result (λ _. rule_refusal (names_of fields.now) rule ≡ None) }
    ensures refused { (rule : RuleSaid) → FitsRule rule → text.now ≡ rule_text rule
        → IfErr result (λ error. IfRefused error
        (λ number. rule_refusal (names_of fields.now) rule ≡ Some number)) }
{
    if is_deeper(text, MOST_DEPTH) {
        return Err(RuleError::Refused(DEPTH));
    }
    let tree = tree_in(alloc, fields, text)?;
    match refusal_of(&tree, fields.len() as u8) {
        Some(number) => Err(RuleError::Refused(number)),
        None => Ok(tree),
    }
}

// Reads the whole text, which must be a rule.
fn tree_in(alloc: Global, fields: &[Field], text: &[u8]) -> Result<BoolExpr, NoMemory>
    requires rule { is_some (formula_in text.now) ≡ true }
    requires few { length fields.now ≤ 8 }
    ensures { IfOk result (λ tree. Some (formula_of tree)
        ≡ option_map (formula_with (place_of_name (names_of fields.now))) (formula_in text.now)) }
{
    match formula_front(alloc, fields, text, MOST_DEPTH)? {
        Some((tree, _)) => Ok(tree),
        None => unreachable!(),
    }
}

// The number that refuses a rule over `count` fields, `None` if it is not refused.
fn refusal_of(rule: &BoolExpr, count: u8) -> Option<u8>
    ensures { result ≡ placed_refusal count (formula_of rule.now) }
{
    if nesting_of(rule) > MOST_NESTING {
        Some(DEPTH)
    } else if is_placed(rule, count, false) {
        None
    } else {
        Some(FIELD)
    }
}
