//! Rules as they are written.

ghost use Rattle.std.specs.Prelude.{◌≡◌, ◌++◌, OnOk};
ghost use Rattle.std.specs.String.{string_bytes};
ghost use Rattle.pls_rules.specs.HeldTrees.{formula_of, term_of};
ghost use Rattle.pls_rule_text.specs.FieldNames.{name_at, names_of};
ghost use Rattle.pls_rule_text.specs.FormulaText.{formula_text, one_text, term_text, two_text};

use pls_rules::{BoolExpr, Field, NumExpr};
use pls_streams::NoMemory;
use std::fmt::Write;

/// Puts the text of a rule behind a text: a field stands by its name, and by nothing where there is
/// no such field. The one error is want of memory.
#[cycle(print)]
pub fn print_rule(text: &mut String, fields: &[Field], rule: &BoolExpr) -> Result<(), NoMemory>
    ensures { OnOk result (string_bytes text.new ≡ string_bytes text.old
        ++ formula_text (name_at (names_of fields.now)) (formula_of rule.now)) }
{
    match rule {
        BoolExpr::Eq(first, second) => print_terms(text, fields, "eq(", first, second),
        BoolExpr::Lt(first, second) => print_terms(text, fields, "lt(", first, second),
        BoolExpr::Le(first, second) => print_terms(text, fields, "le(", first, second),
        BoolExpr::Same(first, second) => print_rules(text, fields, "same(", first, second),
        BoolExpr::Both(first, second) => print_rules(text, fields, "both(", first, second),
        BoolExpr::Either(first, second) => print_rules(text, fields, "either(", first, second),
        BoolExpr::Not(inner) => print_one(text, fields, "not(", inner),
        BoolExpr::All(inner) => print_one(text, fields, "all(", inner),
        BoolExpr::Any(inner) => print_one(text, fields, "any(", inner),
    }
}

#[cycle(print)]
fn print_terms(
    text: &mut String,
    fields: &[Field],
    word: &str,
    first: &NumExpr,
    second: &NumExpr,
) -> Result<(), NoMemory>
    ensures { OnOk result (string_bytes text.new ≡ string_bytes text.old ++ two_text word.now
        (term_text (name_at (names_of fields.now)) (term_of first.now))
        (term_text (name_at (names_of fields.now)) (term_of second.now))) }
{
    text.push_str(word)?;
    print_term(text, fields, first)?;
    text.push_str(",")?;
    print_term(text, fields, second)?;
    text.push_str(")")?;
    Ok(())
}

#[cycle(print)]
fn print_rules(
    text: &mut String,
    fields: &[Field],
    word: &str,
    first: &BoolExpr,
    second: &BoolExpr,
) -> Result<(), NoMemory>
    ensures { OnOk result (string_bytes text.new ≡ string_bytes text.old ++ two_text word.now
        (formula_text (name_at (names_of fields.now)) (formula_of first.now))
        (formula_text (name_at (names_of fields.now)) (formula_of second.now))) }
{
    text.push_str(word)?;
    print_rule(text, fields, first)?;
    text.push_str(",")?;
    print_rule(text, fields, second)?;
    text.push_str(")")?;
    Ok(())
}

#[cycle(print)]
fn print_one(
    text: &mut String,
    fields: &[Field],
    word: &str,
    inner: &BoolExpr,
) -> Result<(), NoMemory>
    ensures { OnOk result (string_bytes text.new ≡ string_bytes text.old ++ one_text word.now
        (formula_text (name_at (names_of fields.now)) (formula_of inner.now))) }
{
    text.push_str(word)?;
    print_rule(text, fields, inner)?;
    text.push_str(")")?;
    Ok(())
}

#[cycle(print)]
fn print_term(text: &mut String, fields: &[Field], term: &NumExpr) -> Result<(), NoMemory>
    ensures { OnOk result (string_bytes text.new ≡ string_bytes text.old
        ++ term_text (name_at (names_of fields.now)) (term_of term.now)) }
{
    match term {
        NumExpr::Number(number) => write!(text, "{number}")?,
        NumExpr::Id => text.push_str("id")?,
        NumExpr::Mark => text.push_str("mark")?,
        NumExpr::Num => text.push_str("num")?,
        NumExpr::Degree => text.push_str("degree")?,
        NumExpr::Pointed => text.push_str("pointed")?,
        NumExpr::My(field) => print_named(text, fields, "my.", *field)?,
        NumExpr::Up(field) => print_named(text, fields, "up.", *field)?,
        NumExpr::UpWeight => text.push_str("up.weight")?,
        NumExpr::Nb(field) => print_named(text, fields, "nb.", *field)?,
        NumExpr::NbWeight => text.push_str("nb.weight")?,
        NumExpr::NbUp => text.push_str("nb.up")?,
        NumExpr::Add(first, second) => print_terms(text, fields, "add(", first, second)?,
        NumExpr::Sum(first, second) => {
            text.push_str("sum(")?;
            print_rule(text, fields, first)?;
            text.push_str(",")?;
            print_term(text, fields, second)?;
            text.push_str(")")?;
        }
    }
    Ok(())
}

fn print_named(text: &mut String, fields: &[Field], word: &str, field: u8) -> Result<(), NoMemory>
    ensures { OnOk result (string_bytes text.new ≡ string_bytes text.old
        ++ (word.now ++ name_at (names_of fields.now) field)) }
{
    text.push_str(word)?;
    if let Some(field) = fields.get(field as usize) {
        text.push_str(field.name.as_str())?;
    }
    Ok(())
}
