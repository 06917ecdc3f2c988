//! Rule sets as they are written.

ghost use Rattle.std.specs.Prelude.{◌≡◌, ◌∷◌, ◌++◌, [], map, IfOk, OnOk};
ghost use Rattle.std.specs.String.{string_bytes};
ghost use Rattle.pls_lines.specs.Text.{text_of};
ghost use Rattle.pls_rules.specs.HeldTrees.{set_of};
ghost use Rattle.pls_rule_text.specs.FieldNames.{names_of};
ghost use Rattle.pls_rules_part.specs.RulesText.{rules_text, said_of_set};
ghost use Rattle.pls_rules_part.specs.inner.Printed.{printed_field, printed_rule};

use pls_rule_text::print_rule;
use pls_rules::{BoolExpr, Field, FieldKind, RuleSet};
use pls_streams::NoMemory;
use std::alloc::Global;

/// The text of a rule set, which [`read_rules`](crate::read_rules) reads back where the set is
/// printable (`specs/Printable`). The one error is want of memory.
pub fn print_rules(alloc: Global, set: &RuleSet) -> Result<Vec<u8>, NoMemory>
    ensures { IfOk result (λ text. text.items ≡ rules_text (said_of_set (set_of set.now))) }
{
    let mut text = String::from_str(alloc, "rules\n")?;
    print_fields(&mut text, &set.fields)?;
    print_formulas(&mut text, &set.fields, &set.rules)?;
    text.push_str("end\n")?;
    Ok(text.into_bytes())
}

fn print_fields(text: &mut String, fields: &[Field]) -> Result<(), NoMemory>
    ensures { OnOk result (string_bytes text.new
        ≡ string_bytes text.old ++ text_of (map printed_field fields.now)) }
{
    for field in fields {
        print_field(text, field)?;
    }
    Ok(())
}

fn print_field(text: &mut String, field: &Field) -> Result<(), NoMemory>
    ensures { OnOk result (string_bytes text.new
        ≡ string_bytes text.old ++ text_of (printed_field field.now ∷ [])) }
{
    text.push_str("field ")?;
    text.push_str(field.name.as_str())?;
    match field.kind {
        FieldKind::Num => text.push_str(" num\n")?,
        FieldKind::Bit => text.push_str(" bit\n")?,
    }
    Ok(())
}

fn print_formulas(text: &mut String, fields: &[Field], rules: &[BoolExpr]) -> Result<(), NoMemory>
    ensures { OnOk result (string_bytes text.new ≡ string_bytes text.old
        ++ text_of (map (printed_rule (names_of fields.now)) rules.now)) }
{
    for rule in rules {
        print_formula(text, fields, rule)?;
    }
    Ok(())
}

fn print_formula(text: &mut String, fields: &[Field], rule: &BoolExpr) -> Result<(), NoMemory>
    ensures { OnOk result (string_bytes text.new ≡ string_bytes text.old
        ++ text_of (printed_rule (names_of fields.now) rule.now ∷ [])) }
{
    text.push_str("rule ")?;
    print_rule(text, fields, rule)?;
    text.push_str("\n")?;
    Ok(())
}
