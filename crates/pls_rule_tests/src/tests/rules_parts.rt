//! Rules parts: the first line that is not of the form, and the first that makes no sense.

use super::repeat;
use pls_lines::Lines;
use pls_rules::RuleSet;
use pls_rules_part::{read_rules, scan_rules};
use pls_streams::TextError;
use std::alloc::{AllocError, Global};
use std::test::Fail;

// Texts, and the first line that is not of the form.
const FORMS: &[(&str, u64)] = &[
    ("", 1),
    ("rules", 1),
    ("rule\n", 1),
    ("rules \nfield depth num\nend\n", 1),
    ("rules\n", 2),
    ("rules\nend\n", 2),
    ("rules\nrule eq(id,0)\nend\n", 2),
    ("rules\n\nfield depth num\nend\n", 2),
    ("rules\nfield depth\nend\n", 2),
    ("rules\nfield depth num \nend\n", 2),
    ("rules\nfield  depth num\nend\n", 2),
    ("rules\n field depth num\nend\n", 2),
    ("rules\nfield depth num\r\nend\n", 2),
    ("rules\nfield depth number\nend\n", 2),
    ("rules\nfield depth bit num\nend\n", 2),
    ("rules\nfield Depth num\nend\n", 2),
    ("rules\nfield depth1 num\nend\n", 2),
    ("rules\nfield weight num\nend\n", 2),
    ("rules\nfield up bit\nend\n", 2),
    ("rules\nfield abcdefghijklmnopq num\nend\n", 2),
    ("rules\nfield depth num\n", 3),
    ("rules\nfield depth num\nend", 3),
    ("rules\nfield depth num\nend \n", 3),
    ("rules\nfield depth num\nend\n\n", 4),
    ("rules\nfield depth num\nend\nend\n", 4),
    ("rules\nfield depth num\nfield root\nend\n", 3),
    ("rules\nfield depth num\nrule\nend\n", 3),
    ("rules\nfield depth num\nrule \nend\n", 3),
    ("rules\nfield depth num\nrule eq(id,00)\nend\n", 3),
    ("rules\nfield depth num\nrule eq(id, 0)\nend\n", 3),
    ("rules\nfield depth num\nrule eq(id,0) \nend\n", 3),
    (
        "rules\nfield depth num\nrule eq(id,0)\nfield root num\nend\n",
        4,
    ),
    ("rules\nfield depth num\nrule eq(id,0)\nrule eq(id,0)", 4),
    // The form of each line comes before the sense of any.
    (
        "rules\nfield depth num\nrule eq(my.root,0)\nrule eq(id,00)\nend\n",
        4,
    ),
    (
        "rules\nfield depth num\nfield depth num\nrule all(any(all(eq(id,0))))\n",
        5,
    ),
];

// Texts, and the number and the line by which they are refused.
const REFUSED: &[(&str, u8, u64)] = &[
    ("rules\nfield depth num\nrule eq(my.root,0)\nend\n", 50, 3),
    ("rules\nfield depth num\nrule eq(nb.depth,0)\nend\n", 50, 3),
    (
        "rules\nfield depth num\nrule all(any(all(eq(id,0))))\nend\n",
        51,
        3,
    ),
    (
        "rules\nfield depth num\nrule all(any(all(eq(my.root,0))))\nend\n",
        51,
        3,
    ),
    (
        "rules\nfield root num\nfield depth num\nrule eq(my.rank,up.root)\nend\n",
        50,
        4,
    ),
    (
        "rules\nfield depth num\nrule eq(my.root,0)\nrule all(any(all(eq(id,0))))\nend\n",
        50,
        3,
    ),
    (
        "rules\nfield depth num\nrule all(any(all(eq(id,0))))\nrule eq(my.root,0)\nend\n",
        51,
        3,
    ),
    (
        "rules\nfield depth num\nfield depth bit\nrule all(any(all(eq(id,0))))\nend\n",
        50,
        3,
    ),
    (
        "rules\nfield a num\nfield b num\nfield a num\nfield b num\nrule eq(my.c,0)\nend\n",
        50,
        4,
    ),
    (
        "rules\nfield depth num\nrule eq(my.depth,0)\n\
         rule ((((((((((((((((((((((((((((((((my.root\nend\n",
        51,
        4,
    ),
];

// The number and line of the refusal, number 0 for the form; `None` where it is read.
fn fault_in(read: &Result<RuleSet, TextError>) -> Result<Option<(u8, u64)>, Fail> {
    match read {
        Ok(_) => Ok(None),
        Err(TextError::Form(line)) => Ok(Some((0, *line))),
        Err(TextError::Sense { number, place }) => Ok(Some((*number, *place))),
        Err(_) => Err(Fail::from("refused otherwise")),
    }
}

fn fault_of(alloc: Global, text: &str) -> Result<Option<(u8, u64)>, Fail> {
    fault_in(&read_rules(alloc, text.as_bytes()))
}

#[test]
fn the_first_faulty_line_is_named(rt: HostRuntime) -> Result<(), Fail> {
    for (text, line) in FORMS {
        let found = fault_of(rt.alloc(), text)?;
        assert!(rt; found == Some((0, *line)), "form of {text}");
    }
    for (text, number, line) in REFUSED {
        let found = fault_of(rt.alloc(), text)?;
        assert!(rt; found == Some((*number, *line)), "sense of {text}");
    }
    Ok(())
}

// How many fields and rules a part has, and the line that is not of the form, 0 for none.
const COUNTS: &[(u32, u32, u64)] = &[
    (1, 0, 0),
    (8, 0, 0),
    (9, 0, 10),
    (8, 32, 0),
    (9, 32, 10),
    (1, 33, 35),
    (8, 33, 42),
];

// Appends a part with `fields` fields and `rules` rules.
fn write_part(text: &mut String, fields: u32, rules: u32) -> Result<(), AllocError> {
    text.push_str("rules\n")?;
    for field in 0..fields {
        text.push_str("field ")?;
        repeat(text, "a", field, "b num\n")?;
    }
    repeat(text, "rule eq(my.b,1)\n", rules, "end\n")
}

fn fault_of_part(alloc: Global, fields: u32, rules: u32) -> Result<Option<(u8, u64)>, Fail> {
    let mut text = String::new(alloc);
    write_part(&mut text, fields, rules)?;
    fault_of(alloc, text.as_str())
}

#[test]
fn there_are_up_to_8_fields_and_32_rules(rt: HostRuntime) -> Result<(), Fail> {
    for (fields, rules, line) in COUNTS {
        let due = if *line == 0 { None } else { Some((0, *line)) };
        let found = fault_of_part(rt.alloc(), *fields, *rules)?;
        assert!(rt; found == due, "{fields} fields, {rules} rules");
    }
    Ok(())
}

// Two parts, of which the second is refused; its line is counted from the front of the first.
const PARTS: &str = "rules\nfield id num\nrule eq(my.id,0)\nend\n\
                     rules\nfield abcdefghijklmnop bit\nfield num num\nrule eq(my.id,0)\nend\nend\n";

// The refusal of the next part; fails if the part is not of the form.
fn next_fault(alloc: Global, lines: &mut Lines<'_>) -> Result<Option<(u8, u64)>, Fail> {
    match scan_rules(lines) {
        Ok(part) => fault_in(&part.build(alloc)),
        Err(_) => Err(Fail::from("not of the form")),
    }
}

#[test]
fn lines_are_counted_over_parts(rt: HostRuntime) -> Result<(), Fail> {
    let mut lines = Lines::new(PARTS.as_bytes());
    let first = next_fault(rt.alloc(), &mut lines)?;
    assert!(rt; first.is_none(), "the first is read");
    assert!(rt; lines.number() == 5, "the line behind the first");
    let second = next_fault(rt.alloc(), &mut lines)?;
    assert!(rt; lines.rest() == b"end\n".as_slice(), "what follows both");
    assert!(rt; second == Some((50, 8)), "the second is refused");
    Ok(())
}
