//! Texts that are rules and texts that are none, what refuses a rule, and rules that are printed as
//! they were read.

use super::{number_fields, repeat};
use pls_rule_text::{RuleError, is_rule_text, print_rule, read_rule};
use pls_rules::{BoolExpr, Field};
use std::alloc::Global;
use std::test::Fail;

// The names of the fields over which rules are read. What is told of nodes and ports has words of
// its own, so that fields may be called so too.
const NAMES: &[&str] = &["id", "my", "colour", "abcdefghijklmnop"];

// Texts of rules, and the number by which each is refused over these fields, 0 for none.
const RULES: &[(&str, u8)] = &[
    ("eq(id,0)", 0),
    ("all(not(eq(nb.colour,my.colour)))", 0),
    (
        "either(lt(mark,num),both(le(degree,pointed),same(eq(1,2),any(eq(3,4)))))",
        0,
    ),
    (
        "eq(add(up.colour,sum(eq(nb.up,1),add(nb.weight,nb.colour))),up.weight)",
        0,
    ),
    ("eq(id,9223372036854775806)", 0),
    ("eq(my.id,up.my)", 0),
    ("eq(my.abcdefghijklmnop,id)", 0),
    (
        "both(all(any(eq(nb.weight,1))),all(eq(nb.my,sum(eq(nb.up,0),nb.id))))",
        0,
    ),
    ("eq(my.weight,0)", 50),
    ("eq(my.up,0)", 50),
    ("eq(up.up,0)", 50),
    ("eq(my.root,0)", 50),
    ("eq(my.abcdefghijklmno,id)", 50),
    ("all(eq(nb.root,0))", 50),
    ("eq(nb.colour,0)", 50),
    ("eq(nb.weight,0)", 50),
    ("eq(nb.up,0)", 50),
    ("eq(add(sum(eq(1,1),nb.colour),nb.colour),0)", 50),
    ("both(all(eq(1,1)),eq(nb.up,0))", 50),
    ("all(any(all(eq(id,0))))", 51),
    ("all(any(all(eq(my.root,0))))", 51),
    ("eq(sum(eq(sum(any(eq(1,1)),1),1),1),1)", 51),
    ("eq(sum(eq(1,1),sum(eq(1,1),sum(eq(1,1),1))),1)", 51),
];

// Texts that are no rules.
const OTHERS: &[&str] = &[
    "",
    "id",
    "0",
    "()",
    "eq(id,0",
    "eq(id,0))",
    "eq(id,0)eq(id,0)",
    "eq(id, 0)",
    " eq(id,0)",
    "eq(id,0)\n",
    "EQ(id,0)",
    "eq(ID,0)",
    "eq(id)",
    "eq(id,0,0)",
    "eq(,)",
    "eq(ids,0)",
    "eq(id,00)",
    "eq(id,01)",
    "eq(id,-1)",
    "eq(id,9223372036854775807)",
    "eq(id,18446744073709551616)",
    "eq(my,0)",
    "eq(my.,0)",
    "eq(my.colour1,0)",
    "eq(my.a.b,0)",
    "eq(mark.colour,0)",
    "eq(my.abcdefghijklmnopq,id)",
    "eq(eq(id,0),1)",
    "eq(sum(1,1),0)",
    "eq(sum(eq(1,1),eq(1,1)),0)",
    "sum(eq(id,0),1)",
    "add(id,1)",
    "same(id,id)",
    "not(id)",
    "not()",
    "all(eq(id,0),eq(id,0))",
    "xor(eq(id,0),eq(id,0))",
];

// 0 where the rule is printed as `text`; fails otherwise.
fn number_if_printed(
    alloc: Global,
    fields: &[Field],
    rule: &BoolExpr,
    text: &str,
) -> Result<u8, Fail> {
    let mut printed = String::new(alloc);
    print_rule(&mut printed, fields, rule)?;
    if printed.as_str() == text {
        Ok(0)
    } else {
        Err(Fail::from("printed otherwise"))
    }
}

// The number that refuses the rule, 0 for none; fails if it is printed otherwise than it was read.
fn number_over(alloc: Global, fields: &[Field], text: &str) -> Result<u8, Fail> {
    if fields.len() > 8 || !is_rule_text(text.as_bytes()) {
        return Err(Fail::from("no rule"));
    }
    match read_rule(alloc, fields, text.as_bytes()) {
        Ok(rule) => number_if_printed(alloc, fields, &rule, text),
        Err(RuleError::Refused(number)) => Ok(number),
        Err(RuleError::NoMemory) => Err(Fail::from("no memory")),
    }
}

// As `number_over`, with the fields of these tests.
fn number_of(alloc: Global, text: &str) -> Result<u8, Fail> {
    number_over(alloc, number_fields(alloc, NAMES)?.as_slice(), text)
}

// The number that refuses the rule, 0 for none, `None` where the text is no rule.
fn number_if_rule(alloc: Global, text: &str) -> Result<Option<u8>, Fail> {
    if is_rule_text(text.as_bytes()) {
        Ok(Some(number_of(alloc, text)?))
    } else {
        Ok(None)
    }
}

#[test]
fn rules_are_read_and_printed(rt: HostRuntime) -> Result<(), Fail> {
    for (text, number) in RULES {
        assert!(rt;
            number_if_rule(rt.alloc(), text)? == Some(*number),
            "{text}"
        );
    }
    for text in OTHERS {
        assert!(rt; !is_rule_text(text.as_bytes()), "{text} is no rule");
    }
    Ok(())
}

// A text in parts: what stands in front, a piece so many times, and what follows; and the number by
// which the rule is refused, or `None` where the text is no rule.
const DEEP: &[(&str, &str, u32, &str, Option<u8>)] = &[
    // Nothing else is asked of a text with parentheses more than 31 deep than its characters.
    ("", "(", 31, "", None),
    ("", "(", 32, "", Some(51)),
    ("", "not(", 32, "eq(my.root,01)", Some(51)),
    (
        "my.abcdefghijklmnopq",
        "(",
        32,
        "9223372036854775807",
        Some(51),
    ),
    ("", "(", 32, " ", None),
    ("", "(", 32, "A", None),
    ("", "(", 4096, "", Some(51)),
    ("", "(", 4097, "", None),
    // What closes nothing lowers no depth, and what is closed is no longer deep.
    (")))", "(", 31, "", None),
    (")))", "(", 32, "", Some(51)),
    ("eq(id,0))", "(", 32, "", Some(51)),
    ("eq(id,0)", "(", 31, "", None),
    ("(((((((((((((((((()", "(", 14, "", None),
    ("(((((((((((((((((()", "(", 15, "", Some(51)),
    ("", "()", 2048, "", None),
];

// As `number_if_rule`, for `front`, `count` times `piece`, and `rest`.
fn deep_number(
    alloc: Global,
    front: &str,
    piece: &str,
    count: u32,
    rest: &str,
) -> Result<Option<u8>, Fail> {
    let mut text = String::from_str(alloc, front)?;
    repeat(&mut text, piece, count, rest)?;
    number_if_rule(alloc, text.as_str())
}

#[test]
fn depth_is_counted_from_the_front(rt: HostRuntime) -> Result<(), Fail> {
    for (front, piece, count, rest, number) in DEEP {
        let found = deep_number(rt.alloc(), front, piece, *count, rest)?;
        assert!(rt; found == *number, "{front}, {count} {piece}");
    }
    Ok(())
}

// How often a rule is denied, so that its parentheses stand one deeper, and the number by which it
// is refused.
const DENIED: &[(u32, u8)] = &[(0, 0), (29, 0), (30, 0), (31, 51), (32, 51)];

// The number that refuses a rule negated `count` times, 0 for none.
fn denied_number(alloc: Global, count: u32) -> Result<u8, Fail> {
    let mut text = String::new(alloc);
    repeat(&mut text, "not(", count, "eq(id,0)")?;
    repeat(&mut text, ")", count, "")?;
    number_of(alloc, text.as_str())
}

#[test]
fn rules_stand_at_most_31_deep(rt: HostRuntime) -> Result<(), Fail> {
    for (count, number) in DENIED {
        let found = denied_number(rt.alloc(), *count)?;
        assert!(rt; found == *number, "{count} times denied");
    }
    Ok(())
}

// A rule doubled `turns` times: 113 characters after three turns, 3,833 after eight.
fn doubled_rule(alloc: Global, turns: u32) -> Result<String, Fail> {
    let mut rule = String::from_str(alloc, "eq(id,0)")?;
    for _ in 0..turns {
        rule = format!(in alloc; "both({rule},{rule})")?;
    }
    Ok(rule)
}

// A rule of 4,087 characters plus those of `number`, its last number.
fn long_rule(alloc: Global, number: &str) -> Result<String, Fail> {
    let short = doubled_rule(alloc, 3)?;
    let long = doubled_rule(alloc, 8)?;
    let rule = format!(in alloc; "both({long},both({short},both({short},eq(id,{number}))))")?;
    Ok(rule)
}

// The length of the long rule, and the number that refuses it: 0 for none, `None` for no rule.
fn long_number(alloc: Global, number: &str) -> Result<(usize, Option<u8>), Fail> {
    let rule = long_rule(alloc, number)?;
    Ok((rule.len(), number_if_rule(alloc, rule.as_str())?))
}

#[test]
fn rules_have_at_most_4096_characters(rt: HostRuntime) -> Result<(), Fail> {
    let (length, found) = long_number(rt.alloc(), "123456789")?;
    assert!(rt; length == 4096 && found == Some(0), "{length} are read");
    let (length, found) = long_number(rt.alloc(), "1234567890")?;
    assert!(rt; length == 4097 && found.is_none(), "{length} are no rule");
    Ok(())
}
