//! A rule set that has no name, on small networks, against a plain program: no two of the chosen
//! nodes are neighbours, and each other node has a neighbour that is chosen.

ghost use Rattle.std.specs.Prelude.{◌≡◌, length};

use super::networks::networks;
use super::{read_set, verdict_at};
use pls_bits::BitBuf;
use pls_compile::RuleChecker;
use pls_graph::Network;
use pls_labels::LabelStore;
use pls_scheme::{Checker, Verdict};
use pls_streams::Steps;
use std::alloc::Global;
use std::test::Fail;

// No two neighbours are chosen, and each node is chosen or has a neighbour that is.
const INDEPENDENT: &str = "rules\nfield chosen bit\n\
                           rule all(either(eq(my.chosen,0),eq(nb.chosen,0)))\n\
                           rule either(eq(my.chosen,1),any(eq(nb.chosen,1)))\nend\n";

// Two bits a node: 0 for the bit 0, 1 for the bit 1, 2 for no bit, 3 for two bits 0.
fn kind_of(choice: u32, node: u32) -> u32 {
    choice.wrapping_shr(node.wrapping_mul(2)) & 3
}

fn label_of(alloc: Global, kind: u32) -> Result<BitBuf, Fail> {
    let mut label = BitBuf::new(alloc);
    let count = if kind < 2 {
        1
    } else if kind == 2 {
        0
    } else {
        2
    };
    for _ in 0..count {
        label.push(kind == 1)?;
    }
    Ok(label)
}

fn labels_of(alloc: Global, nodes: usize, choice: u32) -> Result<LabelStore, Fail> {
    let mut labels = LabelStore::blank(alloc, nodes)?;
    put_choice(alloc, &mut labels, choice)?;
    Ok(labels)
}

fn put_choice(alloc: Global, labels: &mut LabelStore, choice: u32) -> Result<(), Fail> {
    for node in 0..4_u32 {
        let i = node as usize;
        if i < labels.len() {
            labels.replace(i, &label_of(alloc, kind_of(choice, node))?)?;
        }
    }
    Ok(())
}

// The rejecting rule, 0 for none: own label (1), a neighbour's (2), two neighbours chosen (3), none
// chosen (4).
fn due_rule(net: &Network, choice: u32, node: usize) -> u8 {
    if node >= net.len() {
        return 0;
    }
    let own = kind_of(choice, node as u32);
    let ports = net.ports(node);
    let beside = |kind: u32| ports.iter().any(|port| kind_of(choice, port.nbr) == kind);
    match own {
        2 | 3 => 1,
        _ if beside(2) || beside(3) => 2,
        1 if beside(1) => 3,
        0 if !beside(1) => 4,
        _ => 0,
    }
}

// Rule 0 is acceptance.
fn verdict_of(rule: u8) -> Verdict {
    match rule {
        0 => Verdict::Accept,
        rule => Verdict::Reject { leaf: 1, rule },
    }
}

// How many nodes accept; fails unless round and single views give the due verdicts.
fn accepting<S: Checker>(
    alloc: Global,
    checker: &S,
    net: &Network,
    choice: u32,
    labels: &LabelStore,
) -> Result<u32, Fail> {
    if labels.len() != net.len() {
        return Err(Fail::from("not one label a node"));
    }
    let verdicts = checker.round(alloc, net, labels, &mut Steps::new())?;
    accepting_as(alloc, checker, net, choice, labels, verdicts.as_slice())
}

fn accepting_as<S: Checker>(
    alloc: Global,
    checker: &S,
    net: &Network,
    choice: u32,
    labels: &LabelStore,
    verdicts: &[Verdict],
) -> Result<u32, Fail>
    requires { length labels.now ≡ length net.now }
{
    let mut count = 0_u32;
    for i in 0..net.len() {
        let due = verdict_of(due_rule(net, choice, i));
        let verdict = verdict_at(alloc, checker, net, labels, i)?;
        if verdicts.get(i) != Some(&due) || verdict != due {
            return Err(Fail::from("judged otherwise"));
        }
        count = count.saturating_add(u32::from(due == Verdict::Accept));
    }
    Ok(count)
}

// How many choices of labels all nodes accept, over all of `nets`.
fn count_whole<S: Checker>(alloc: Global, checker: &S, nets: &[Network]) -> Result<u32, Fail> {
    let mut whole = 0_u32;
    for net in nets {
        let choices = 1_u32.wrapping_shl((net.len() as u32).wrapping_mul(2));
        for choice in 0..choices {
            let labels = labels_of(alloc, net.len(), choice)?;
            let count = accepting(alloc, checker, net, choice, &labels)?;
            whole = whole.saturating_add(u32::from(count as usize == net.len()));
        }
    }
    Ok(whole)
}

fn count_on_networks<S: Checker>(alloc: Global, checker: &S) -> Result<u32, Fail> {
    count_whole(alloc, checker, networks(alloc)?.as_slice())
}

fn count_by_set(alloc: Global, text: &str) -> Result<u32, Fail> {
    let checker = RuleChecker::new(alloc, read_set(alloc, text)?)?;
    count_on_networks(alloc, &checker)
}

#[test]
fn independent_sets_are_judged(rt: HostRuntime) -> Result<(), Fail> {
    let whole = count_by_set(rt.alloc(), INDEPENDENT)?;
    assert!(rt; whole == 2764, "choices that all accept: {whole}");
    Ok(())
}
