//! Verdicts of rule sets on small networks: each set that has the name of a scheme judges as the
//! scheme.

ghost use Rattle.std.specs.Prelude.{◌≡◌, length};
ghost use Rattle.pls_configuration.specs.Walk.{IsConnected};

use super::networks::networks;
use super::verdict_at;
use pls_bits::{BitBuf, Bits, Gamma};
use pls_builtin::builtin;
use pls_combine::AnyScheme;
use pls_compile::RuleChecker;
use pls_graph::{Network, node_apart};
use pls_labels::LabelStore;
use pls_scheme::{Checker, Scheme, Verdict};
use pls_scheme_text::read_expression;
use pls_streams::Steps;
use std::alloc::Global;
use std::test::Fail;

// The sets that have names, and the greatest number of a rule of each.
const NAMES: &[(&str, u32)] = &[
    ("leader", 6),
    ("tree", 5),
    ("forest", 4),
    ("spt", 6),
    ("bipartite", 3),
    ("acyclic", 4),
    ("count", 8),
];

// The bit of the rejecting rule, bit 0 for acceptance.
fn bit_of(verdict: Verdict) -> Result<u32, Fail> {
    match verdict {
        Verdict::Accept => Ok(1),
        Verdict::Reject { leaf: 1, rule } => Ok(1_u32.wrapping_shl(u32::from(rule))),
        Verdict::Reject { .. } => Err(Fail::from("another leaf")),
    }
}

// The rejecting rules as bits; fails unless set and scheme judge alike, in the round and view by
// view.
fn rejecting_rules<R: Checker, S: Checker>(
    alloc: Global,
    checker: &R,
    scheme: &S,
    net: &Network,
    labels: &LabelStore,
) -> Result<u32, Fail> {
    if labels.len() != net.len() {
        return Err(Fail::from("not one label a node"));
    }
    let due = scheme.round(alloc, net, labels, &mut Steps::new())?;
    rejecting_rules_as(alloc, checker, net, labels, due.as_slice())
}

// The bits of the rules that reject; fails unless the round gives `due`.
fn rejecting_rules_as<S: Checker>(
    alloc: Global,
    checker: &S,
    net: &Network,
    labels: &LabelStore,
    due: &[Verdict],
) -> Result<u32, Fail>
    requires { length labels.now ≡ length net.now }
{
    let found = checker.round(alloc, net, labels, &mut Steps::new())?;
    if found.as_slice() == due {
        bits_of(alloc, checker, net, labels, due)
    } else {
        Err(Fail::from("judged otherwise in the round"))
    }
}

// As `rejecting_rules_as`, view by view.
fn bits_of<S: Checker>(
    alloc: Global,
    checker: &S,
    net: &Network,
    labels: &LabelStore,
    due: &[Verdict],
) -> Result<u32, Fail>
    requires { length labels.now ≡ length net.now }
{
    let mut bits = 0_u32;
    for i in 0..net.len() {
        let verdict = verdict_at(alloc, checker, net, labels, i)?;
        if due.get(i) != Some(&verdict) {
            return Err(Fail::from("judged otherwise view by view"));
        }
        bits |= bit_of(verdict)?;
    }
    Ok(bits)
}

// A copy with the bit at `place` flipped, unchanged where there is none.
fn with_bit_turned(alloc: Global, label: &Bits<'_>, place: usize) -> Result<BitBuf, Fail> {
    let mut bits = BitBuf::new(alloc);
    for i in 0..label.len() {
        bits.push(label.bit(i) != (i == place))?;
    }
    Ok(bits)
}

// The labels moved one place down, the first to the end.
fn rotated_labels(alloc: Global, labels: &LabelStore) -> Result<LabelStore, Fail> {
    let mut others = LabelStore::blank(alloc, labels.len())?;
    for i in 0..labels.len() {
        let place = if i == 0 { labels.len() - 1 } else { i - 1 };
        put(&mut others, place, &label_at(alloc, labels, i)?)?;
    }
    Ok(others)
}

// As `rejecting_rules`, over the labels as they are, moved, with each bit flipped, and emptied;
// restores them.
fn rejecting_rules_when_changed<R: Checker, S: Checker>(
    alloc: Global,
    checker: &R,
    scheme: &S,
    net: &Network,
    labels: &mut LabelStore,
) -> Result<u32, Fail> {
    let mut bits = rejecting_rules(alloc, checker, scheme, net, labels)?;
    bits |= rejecting_rules(alloc, checker, scheme, net, &rotated_labels(alloc, labels)?)?;
    for i in 0..labels.len() {
        let label = label_at(alloc, labels, i)?;
        bits |= rejecting_rules_when_turned(alloc, checker, scheme, net, labels, i, &label)?;
    }
    Ok(bits)
}

// As `rejecting_rules_when_changed`, for the label at place `i`: each bit flipped, then emptied.
fn rejecting_rules_when_turned<R: Checker, S: Checker>(
    alloc: Global,
    checker: &R,
    scheme: &S,
    net: &Network,
    labels: &mut LabelStore,
    i: usize,
    label: &BitBuf,
) -> Result<u32, Fail> {
    let mut bits = 0_u32;
    for place in 0..label.len() {
        put(labels, i, &with_bit_turned(alloc, &label.bits(), place)?)?;
        bits |= rejecting_rules(alloc, checker, scheme, net, labels)?;
    }
    put(labels, i, &BitBuf::new(alloc))?;
    bits |= rejecting_rules(alloc, checker, scheme, net, labels)?;
    put(labels, i, label)?;
    Ok(bits)
}

fn label_at(alloc: Global, labels: &LabelStore, i: usize) -> Result<BitBuf, Fail> {
    if i >= labels.len() {
        return Err(Fail::from("no label"));
    }
    with_bit_turned(alloc, &labels.bits(i), usize::MAX)
}

fn put(labels: &mut LabelStore, i: usize, label: &BitBuf) -> Result<(), Fail> {
    if i >= labels.len() {
        return Err(Fail::from("no label"));
    }
    labels.replace(i, label)?;
    Ok(())
}

// Marks `net` anew; unmarked, it keeps its labels, or gets empty ones if their number differs.
fn relabel<S: Scheme>(
    alloc: Global,
    scheme: &S,
    net: &Network,
    labels: &mut LabelStore,
) -> Result<(), Fail>
    requires { IsConnected net.now }
{
    if let Some(marked) = scheme.mark(alloc, net)? {
        *labels = marked;
    } else if labels.len() != net.len() {
        *labels = LabelStore::blank(alloc, net.len())?;
    }
    Ok(())
}

// The bits of the rules that reject; an unmarked network gets the labels of the one before.
fn rejecting_rules_of_all<R: Checker, S: Scheme>(
    alloc: Global,
    checker: &R,
    scheme: &S,
    nets: &[Network],
) -> Result<u32, Fail> {
    let mut labels = LabelStore::blank(alloc, 1)?;
    rejecting_rules_from(alloc, checker, scheme, nets, &mut labels)
}

// As `rejecting_rules_of_all`; `labels` are those before the first network.
fn rejecting_rules_from<R: Checker, S: Scheme>(
    alloc: Global,
    checker: &R,
    scheme: &S,
    nets: &[Network],
    labels: &mut LabelStore,
) -> Result<u32, Fail> {
    let mut bits = 0_u32;
    for net in nets {
        if node_apart(alloc, net)?.is_none() {
            relabel(alloc, scheme, net, labels)?;
            bits |= rejecting_rules_when_changed(alloc, checker, scheme, net, labels)?;
        }
    }
    Ok(bits)
}

fn checker_of(alloc: Global, name: &str) -> Result<RuleChecker, Fail> {
    match builtin(alloc, name)? {
        Some(set) => Ok(RuleChecker::new(alloc, set)?),
        None => Err(Fail::from("no set")),
    }
}

fn scheme_of(alloc: Global, name: &str) -> Result<AnyScheme<Gamma>, Fail> {
    match read_expression(alloc, name) {
        Ok(tree) => Ok(AnyScheme::new(tree)),
        Err(_) => Err(Fail::from("no scheme")),
    }
}

fn rejecting_rules_of_name(alloc: Global, name: &str, nets: &[Network]) -> Result<u32, Fail> {
    let scheme = scheme_of(alloc, name)?;
    rejecting_rules_of_all(alloc, &checker_of(alloc, name)?, &scheme, nets)
}

#[test]
fn sets_judge_as_schemes_of_their_names(rt: HostRuntime) -> Result<(), Fail> {
    let nets = networks(rt.alloc())?;
    for (name, rules) in NAMES {
        let bits = rejecting_rules_of_name(rt.alloc(), name, nets.as_slice())?;
        // Some node accepts, and by each rule some node rejects.
        let due = 2_u32.wrapping_shl(*rules).wrapping_sub(1);
        assert!(rt; bits == due, "{name}: rules {bits}");
    }
    Ok(())
}
