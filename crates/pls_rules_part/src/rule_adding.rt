//! Rule sets, as the lines of a part are added to them.

ghost use Rattle.std.specs.Prelude.{◌≡◌, ◌≤◌, ◌∷◌, ◌++◌, [], false, true, if◌then◌else◌, length, IfErr, IfOk, None, OnOk, Some};
ghost use Rattle.pls_streams.specs.declared.refusal_number.TheConstants.{FIELD};
ghost use Rattle.pls_rules.specs.HeldTrees.{formula_of};
ghost use Rattle.pls_rule_text.specs.FieldNames.{names_of};
ghost use Rattle.pls_rule_text.specs.FormulaText.{IsFieldName};
ghost use Rattle.pls_rule_text.specs.Refused.{IsTreeOf};
ghost use Rattle.pls_rule_text.specs.RuleText.{FitsRule, IsRuleText, RuleSaid, is_among, rule_refusal, rule_text};
ghost use Rattle.pls_rules_part.specs.Refusal.{SaysTextRefusal};
ghost use Rattle.pls_rules_part.specs.inner.Adding.{at_line};

use pls_rule_text::{RuleError, read_rule};
use pls_rules::{BoolExpr, Field, FieldKind, Name};
use pls_streams::refusal_number::FIELD;
use pls_streams::{NoMemory, TextError};
use std::alloc::Global;

/// Adds a field, which a line of this number tells. `Sense` with [`FIELD`] where a field has the
/// name already; `NoMemory` for want of memory.
pub(crate) fn add_field(
    alloc: Global,
    fields: &mut Vec<Field>,
    name: &[u8],
    kind: FieldKind,
    place: u64,
) -> Result<(), TextError>
    requires { IsFieldName name.now }
    ensures added { OnOk result (fields.new.items
        ≡ fields.old.items ++ (record { name = name.now; kind = kind }) ∷ []) }
    ensures other { OnOk result (is_among (names_of fields.old.items) name.now ≡ false) }
    ensures refused { IfErr result (SaysTextRefusal (at_line place
        (if is_among (names_of fields.old.items) name.now then Some FIELD else None))) }
{
    if has_name(fields, name) {
        return Err(TextError::Sense {
            number: FIELD,
            place,
        });
    }
    let name = name_of_letters(alloc, name)?;
    fields.push(Field { name, kind })?;
    Ok(())
}

fn has_name(fields: &[Field], name: &[u8]) -> bool
    ensures { result ≡ is_among (names_of fields.now) name.now }
{
    match fields.split_first() {
        None => false,
        Some((field, others)) => {
            field.name.as_str().as_bytes() == name || has_name(others, name)
        }
    }
}

// Fails only for want of memory.
fn name_of_letters(alloc: Global, letters: &[u8]) -> Result<Name, NoMemory>
    requires { IsFieldName letters.now }
    ensures { IfOk result (λ name. name ≡ letters.now) }
{
    // Letters are a text, so that none of them is lost.
    let text = String::from_utf8_lossy(alloc, letters)?;
    Ok(Name::of_text(text))
}

/// The rule that a line of this number says, over the fields of a set. `Sense` with the number by
/// which the rule is refused; `NoMemory` for want of memory.
pub(crate) fn rule_at(
    alloc: Global,
    fields: &[Field],
    text: &[u8],
    place: u64,
) -> Result<BoolExpr, TextError>
    requires rule { IsRuleText text.now }
    requires few { length fields.now ≤ 8 }
    ensures ok { (rule : RuleSaid) → FitsRule rule → text.now ≡ rule_text rule
        → IfOk result (λ tree. IsTreeOf (names_of fields.now) rule (formula_of tree)) }
    ensures sense { (rule : RuleSaid) → FitsRule rule → text.now ≡ rule_text rule
        → OnOk result (rule_refusal (names_of fields.now) rule ≡ None) }
    ensures refused { (rule : RuleSaid) → FitsRule rule → text.now ≡ rule_text rule
        → IfErr result (SaysTextRefusal (at_line place (rule_refusal (names_of fields.now) rule))) }
{
    match read_rule(alloc, fields, text) {
        Ok(rule) => Ok(rule),
        Err(RuleError::Refused(number)) => Err(TextError::Sense { number, place }),
        Err(RuleError::NoMemory) => Err(TextError::NoMemory),
    }
}
