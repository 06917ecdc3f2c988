//! Labels in two number codes, on all connected networks of up to four nodes with all pointers:
//! what is marked in the one code is what is marked in the other once it is converted, and back
//! again, and all nodes accept it there. How many networks are marked was counted by a plain
//! program.

ghost use Rattle.std.specs.Prelude.{◌≡◌, length};
ghost use Rattle.pls_configuration.specs.Walk.{IsConnected};

use super::connected_network;
use super::small::{SETS, Small, are_joined, text_with};
use pls_bits::{Delta, Gamma, NumCode};
use pls_combine::AnyScheme;
use pls_graph::Network;
use pls_labels::LabelStore;
use pls_scheme::{Scheme, certifies};
use pls_scheme_text::read_expression;
use pls_streams::Steps;
use std::alloc::Global;
use std::test::Fail;

// The expressions that are tried, and how many of the networks each marks.
const EXPRESSIONS: &[(&str, u32)] = &[
    ("tree", 533),
    ("forest", 1566),
    ("bipartite", 844),
    ("acyclic", 601),
    ("leader", 2855),
    ("count", 2855),
    ("spt", 191),
    ("mst", 533),
    ("map(diameter:2)", 2423),
    ("and(leader,map(bridgeless))", 1391),
    ("or(tree,and(acyclic,count))", 1058),
];

// Whether `labels`, converted to code `D`, equal `others`.
fn are_converted<C: NumCode, D: NumCode>(
    alloc: Global,
    scheme: &AnyScheme<C>,
    labels: &LabelStore,
    others: &LabelStore,
) -> Result<bool, Fail> {
    for i in 0..labels.len() {
        let Some(found) = scheme.convert_label::<D>(alloc, &labels.bits(i))? else {
            return Ok(false);
        };
        if i >= others.len() || !found.bits().equal(others.bits(i)) {
            return Ok(false);
        }
    }
    Ok(labels.len() == others.len())
}

// Never false: labels that differ between the codes are an error.
fn are_alike(
    alloc: Global,
    gamma: &AnyScheme<Gamma>,
    delta: &AnyScheme<Delta>,
    net: &Network,
    labels: &LabelStore,
    others: &LabelStore,
) -> Result<bool, Fail>
    requires connected { IsConnected net.now }
    requires each { length others.now ≡ length net.now }
{
    let alike = are_converted::<Gamma, Delta>(alloc, gamma, labels, others)?
        && are_converted::<Delta, Gamma>(alloc, delta, others, labels)?
        && certifies(alloc, delta, net, others, &mut Steps::new())?;
    if alike {
        Ok(true)
    } else {
        Err(Fail::from("marked otherwise in the other code"))
    }
}

// With no `labels`, the second code must not mark either, and the answer is false.
fn is_marked_like(
    alloc: Global,
    gamma: &AnyScheme<Gamma>,
    delta: &AnyScheme<Delta>,
    net: &Network,
    labels: Option<&LabelStore>,
) -> Result<bool, Fail>
    requires { IsConnected net.now }
{
    match (labels, delta.mark(alloc, net)?) {
        (Some(labels), Some(others)) => are_alike(alloc, gamma, delta, net, labels, &others),
        (None, None) => Ok(false),
        _ => Err(Fail::from("marked in one code alone")),
    }
}

// An error where only one code marks it, or the labels differ.
fn is_marked(
    alloc: Global,
    gamma: &AnyScheme<Gamma>,
    delta: &AnyScheme<Delta>,
    net: &Network,
) -> Result<bool, Fail>
    requires { IsConnected net.now }
{
    let labels = gamma.mark(alloc, net)?;
    is_marked_like(alloc, gamma, delta, net, labels.as_ref())
}

fn is_small_marked(
    alloc: Global,
    gamma: &AnyScheme<Gamma>,
    delta: &AnyScheme<Delta>,
    net: Small,
) -> Result<bool, Fail> {
    let read = connected_network(alloc, text_with(alloc, net, 1, net.nodes)?.as_str())?;
    is_marked(alloc, gamma, delta, &read)
}

fn scheme_of<C: NumCode>(alloc: Global, text: &str) -> Result<AnyScheme<C>, Fail> {
    match read_expression(alloc, text) {
        Ok(tree) => Ok(AnyScheme::new(tree)),
        Err(_) => Err(Fail::from("no expression")),
    }
}

// Counts over all pointers on these edges.
fn count_marked(alloc: Global, text: &str, nodes: u32, edges: u32) -> Result<u32, Fail> {
    let gamma = scheme_of::<Gamma>(alloc, text)?;
    count_alike(
        alloc,
        &gamma,
        &scheme_of::<Delta>(alloc, text)?,
        nodes,
        edges,
    )
}

fn count_alike(
    alloc: Global,
    gamma: &AnyScheme<Gamma>,
    delta: &AnyScheme<Delta>,
    nodes: u32,
    edges: u32,
) -> Result<u32, Fail> {
    let mut count = 0_u32;
    for pointers in 0..256 {
        let net = Small {
            nodes,
            edges,
            pointers,
        };
        if net.is_proper() && is_small_marked(alloc, gamma, delta, net)? {
            count = count.saturating_add(1);
        }
    }
    Ok(count)
}

#[test]
fn labels_of_all_small_networks_in_two_codes(rt: HostRuntime) -> Result<(), Fail> {
    for (text, due) in EXPRESSIONS {
        let mut count = 0_u32;
        for (nodes, sets) in SETS {
            for edges in 0..*sets {
                if are_joined(edges, *nodes) {
                    let marked = count_marked(rt.alloc(), text, *nodes, edges)?;
                    count = count.saturating_add(marked);
                }
            }
        }
        assert!(rt; count == *due, "{text} marks {count}");
    }
    Ok(())
}
