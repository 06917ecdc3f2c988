//! One leader, and the number of nodes: worked examples, and all small networks.

ghost use Rattle.std.specs.Prelude.{◌≡◌, length};
ghost use Rattle.pls_configuration.specs.Walk.{IsConnected};

use super::small::{SETS, Small, are_joined, has, marks, write_ports};
use super::{connected_network, network};
use pls_bits::{CodeName, Gamma};
use pls_configuration::Verdict;
use pls_graph::Network;
use pls_labelfile::{read_labels, write_labels};
use pls_labels::LabelStore;
use pls_leader::{Count, Leader};
use pls_scheme::{Checker, Scheme};
use pls_streams::{NoMemory, Steps};
use std::alloc::{AllocError, Global};
use std::test::Fail;

// Four nodes in a row, of which the first is marked.
const FIRST: &str = "network\nnode 1 - 1 0\nport 2 1\nnode 2 - 0 0\nport 1 1\nport 3 1\n\
                     node 3 - 0 0\nport 2 1\nport 4 1\nnode 4 - 0 0\nport 3 1\nend\n";

// The same, of which the last is marked too.
const BOTH: &str = "network\nnode 1 - 1 0\nport 2 1\nnode 2 - 0 0\nport 1 1\nport 3 1\n\
                    node 3 - 0 0\nport 2 1\nport 4 1\nnode 4 - 1 0\nport 3 1\nend\n";

// Two nodes that know that they are two, and two that do not.
const TWO: &str = "network\nnode 1 - 0 2\nport 2 1\nnode 2 - 0 2\nport 1 1\nend\n";

const NONE: &str = "network\nnode 1 - 0 0\nport 2 1\nnode 2 - 0 0\nport 1 1\nend\n";

fn are_written(
    alloc: Global,
    net: &Network,
    labels: &LabelStore,
    due: &str,
) -> Result<bool, NoMemory>
    requires { length labels.now ≡ length net.now }
{
    let text = write_labels(alloc, net, labels, CodeName::Gamma)?;
    Ok(text.as_slice() == due.as_bytes())
}

// `due` is the text of the labels, or `no` where none are due.
fn is_marked<S: Scheme>(
    alloc: Global,
    scheme: &S,
    net: &Network,
    due: &str,
) -> Result<bool, NoMemory>
    requires { IsConnected net.now }
{
    match scheme.mark(alloc, net)? {
        Some(labels) => are_written(alloc, net, &labels, due),
        None => Ok(due == "no"),
    }
}

fn marks_as<S: Scheme>(alloc: Global, scheme: &S, text: &str, due: &str) -> Result<bool, Fail> {
    let net = connected_network(alloc, text)?;
    Ok(is_marked(alloc, scheme, &net, due)?)
}

// The labels of a leader of four nodes, and of two nodes that are counted.
const LED: &str = "labels\nlabel 1 4 50\nlabel 2 6 48\nlabel 3 6 4c\nlabel 4 8 44\nend\n";

const COUNTED: &str = "labels\nlabel 1 16 495b\nlabel 2 18 4d24c0\nend\n";

#[test]
fn leaders_and_numbers_are_marked(rt: HostRuntime) -> Result<(), Fail> {
    let leader = Leader::<Gamma>::new();
    for (text, due) in &[(FIRST, LED), (BOTH, "no"), (TWO, "no")] {
        assert!(rt;
            marks_as(rt.alloc(), &leader, text, due)?,
            "the leader of {text}"
        );
    }
    let count = Count::<Gamma>::new();
    for (text, due) in &[(TWO, COUNTED), (NONE, "no")] {
        assert!(rt;
            marks_as(rt.alloc(), &count, text, due)?,
            "the number of {text}"
        );
    }
    Ok(())
}

// The number of the rejecting rule, a digit a node, 0 where it accepts.
fn rejecting_digits<V: Checker>(
    alloc: Global,
    checker: &V,
    text: &str,
    labels: &str,
) -> Result<u32, Fail> {
    let net = network(alloc, text)?;
    rejecting_digits_in(alloc, checker, &net, labels)
}

fn rejecting_digits_in<V: Checker>(
    alloc: Global,
    checker: &V,
    net: &Network,
    labels: &str,
) -> Result<u32, Fail> {
    let (_, store) = read_labels(alloc, labels.as_bytes(), net)?;
    Ok(digits(
        checker
            .round(alloc, net, &store, &mut Steps::new())?
            .as_slice(),
    ))
}

fn digits(verdicts: &[Verdict]) -> u32 {
    let mut rules = 0_u32;
    for verdict in verdicts {
        rules = rules.wrapping_mul(10).wrapping_add(rule_of(*verdict));
    }
    rules
}

// 0 where the verdict accepts.
fn rule_of(verdict: Verdict) -> u32 {
    match verdict {
        Verdict::Accept => 0,
        Verdict::Reject { leaf: _, rule } => u32::from(rule),
    }
}

#[test]
fn roots_and_numbers_are_judged(rt: HostRuntime) -> Result<(), Fail> {
    let leader = Leader::<Gamma>::new();
    let roots = "labels\nlabel 1 4 50\nlabel 2 6 48\nlabel 3 8 2a\nlabel 4 6 2c\nend\n";
    for (text, labels, rules) in &[(BOTH, roots, 330), (FIRST, LED, 0), (BOTH, LED, 6)] {
        assert!(rt;
            rejecting_digits(rt.alloc(), &leader, text, labels)? == *rules,
            "rules {rules}"
        );
    }
    let count = Count::<Gamma>::new();
    for (text, rules) in &[(TWO, 0), (NONE, 44)] {
        assert!(rt;
            rejecting_digits(rt.alloc(), &count, text, COUNTED)? == *rules,
            "rules {rules}"
        );
    }
    Ok(())
}

// Here the bits of `pointers` are marks, and each marked node has the number of nodes.
fn write_marked(text: &mut String, net: Small) -> Result<(), AllocError> {
    text.push_str("network\n")?;
    for node in 0..net.nodes.min(4) {
        let mark = u32::from(has(net.pointers, node));
        let number = if mark == 1 { net.nodes } else { 0 };
        write!(text, "node {node} - {mark} {number}\n")?;
        write_ports(text, net, node)?;
    }
    text.push_str("end\n")
}

// Compares the schemes with the plain count of marked nodes.
fn is_counted(alloc: Global, read: &Network, net: Small) -> Result<bool, Fail>
    requires { IsConnected read.now }
{
    let led = marks(alloc, &Leader::<Gamma>::new(), read)?;
    let counted = marks(alloc, &Count::<Gamma>::new(), read)?;
    let marked = net.pointers.count_ones();
    Ok(led == (marked == 1) && counted == (marked == net.nodes))
}

fn is_as_counted(alloc: Global, net: Small) -> Result<bool, Fail> {
    let mut text = String::new(alloc);
    write_marked(&mut text, net)?;
    let read = connected_network(alloc, text.as_str())?;
    is_counted(alloc, &read, net)
}

// How many choices of marks on these edges are decided wrongly.
fn wrong(alloc: Global, nodes: u32, edges: u32) -> Result<u32, Fail> {
    let mut wrong = 0_u32;
    for pointers in 0..1_u32.wrapping_shl(nodes) {
        let net = Small {
            nodes,
            edges,
            pointers,
        };
        wrong = wrong.saturating_add(u32::from(!is_as_counted(alloc, net)?));
    }
    Ok(wrong)
}

#[test]
fn leaders_of_all_small_networks(rt: HostRuntime) -> Result<(), Fail> {
    for (nodes, sets) in SETS {
        for edges in 0..*sets {
            if are_joined(edges, *nodes) {
                assert!(rt;
                    wrong(rt.alloc(), *nodes, edges)? == 0,
                    "{nodes} nodes, {edges}"
                );
            }
        }
    }
    Ok(())
}
