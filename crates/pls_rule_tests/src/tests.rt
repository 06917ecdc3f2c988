//! Tests of the rule language, one file a subject.

ghost use Rattle.std.specs.Prelude.{◌≡◌, ◌<◌, IfOk, length};
ghost use Rattle.pls_rules.specs.HeldTrees.{set_of};
ghost use Rattle.pls_rules.specs.RuleSet.{AreRules};

mod builtin_sets;
mod independent;
mod machine;
mod networks;
mod rule_texts;
mod rules_parts;
mod steps;
mod verdicts;

use pls_graph::Network;
use pls_labels::{LabelStore, View};
use pls_rules::{Field, FieldKind, Name, RuleSet};
use pls_rules_part::read_rules;
use pls_scheme::{Checker, Verdict};
use pls_streams::{NoMemory, Steps};
use std::alloc::{AllocError, Global};
use std::test::Fail;

// Fields of kind `num` with these names.
fn number_fields(alloc: Global, names: &[&str]) -> Result<Vec<Field>, Fail> {
    let mut fields = Vec::new(alloc);
    for name in names {
        let name = Name::of_text(String::from_str(alloc, name)?);
        let kind = FieldKind::Num;
        fields.push(Field { name, kind })?;
    }
    Ok(fields)
}

// Appends `piece` `count` times, then `rest`.
fn repeat(text: &mut String, piece: &str, count: u32, rest: &str) -> Result<(), AllocError> {
    for _ in 0..count {
        text.push_str(piece)?;
    }
    text.push_str(rest)
}

fn read_set(alloc: Global, text: &str) -> Result<RuleSet, Fail>
    ensures { IfOk result (λ set. AreRules (set_of set)) }
{
    match read_rules(alloc, text.as_bytes()) {
        Ok(set) => Ok(set),
        Err(_) => Err(Fail::from("no rule set")),
    }
}

fn verdict_at<S: Checker>(
    alloc: Global,
    checker: &S,
    net: &Network,
    labels: &LabelStore,
    i: usize,
) -> Result<Verdict, NoMemory>
    requires each { length labels.now ≡ length net.now }
    requires within { i < length net.now }
{
    let view = View::of(alloc, net, labels, i)?;
    checker.verify(alloc, &view, &mut Steps::new())
}
