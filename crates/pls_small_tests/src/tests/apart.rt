//! All networks of up to four nodes, connected or not, with all pointers: each scheme and each
//! expression names just the components that plain programs find to lack its property, and labels
//! of the others are accepted.

ghost use Rattle.std.specs.Prelude.{◌≡◌, length};
ghost use Rattle.pls_components.specs.Components.{AreComponents};

use super::expressions::{EXPRESSIONS, properties_of};
use super::network;
use super::small::{
    SETS, Small, has, is_acyclic, is_bipartite, is_forest, is_tree, nodes_within, pair, text_with,
    with,
};
use pls_bits::Gamma;
use pls_combine::AnyScheme;
use pls_components::{Components, MarkResult, components, mark_parts};
use pls_configuration::Verdict;
use pls_graph::Network;
use pls_labels::LabelStore;
use pls_scheme::{Checker, Scheme};
use pls_scheme_text::read_expression;
use pls_streams::{NoMemory, Steps};
use std::alloc::Global;
use std::test::Fail;

// The schemes by their names.
const SCHEMES: &[&str] = &[
    "tree",
    "forest",
    "bipartite",
    "acyclic",
    "leader",
    "count",
    "spt",
    "mst",
];

// How many members are below `node`.
fn rank(members: u32, node: u32) -> u32 {
    (members & 1_u32.wrapping_shl(node).wrapping_sub(1)).count_ones()
}

// Nodes are renumbered in order; each port keeps its number, since it leads to a member.
fn part_of(net: Small, members: u32) -> Small {
    let mut part = Small {
        nodes: members.count_ones(),
        edges: 0,
        pointers: 0,
    };
    for a in 0..4 {
        if has(members, a) {
            let place = rank(members, a);
            part.pointers |= net.pointer(a).wrapping_shl(place.saturating_mul(2));
            for b in 0..4 {
                if has(members, b) && Small::joins(net.edges, a, b) {
                    part.edges = with(part.edges, pair(place, rank(members, b)));
                }
            }
        }
    }
    part
}

// The last node and the length of a pointer chain, after at most four pointers.
fn chain(net: Small, start: u32) -> (u32, u32) {
    let (mut node, mut length) = (start, 0_u32);
    for _ in 0..4 {
        if let Some(target) = net.target(node) {
            node = target;
            length = length.saturating_add(1);
        }
    }
    (node, length)
}

// No chain of pointers is longer than a shortest walk to its end.
fn is_nearest(net: Small) -> bool {
    (0..4).all(|node| {
        let (end, length) = chain(net, node);
        node >= net.nodes || length == 0 || !has(nodes_within(net.edges, end, length - 1), node)
    })
}

// In the order of `SCHEMES`; only the network's first node is marked, numbers are 2, weights 1.
fn properties(part: Small, has_first: bool) -> [bool; 8] {
    let tree = is_tree(part);
    [
        tree,
        is_forest(part),
        is_bipartite(part),
        is_acyclic(part),
        has_first,
        part.nodes == 2,
        tree && is_nearest(part),
        tree,
    ]
}

// `None` unless `node` is the lowest of its component, which is named by it.
fn named_part(net: Small, node: u32) -> Option<Small> {
    let members = nodes_within(net.edges, node, 3);
    if node < net.nodes && rank(members, node) == 0 {
        Some(part_of(net, members))
    } else {
        None
    }
}

// Per scheme and per expression, the names of components without its property, one bit a node.
fn lacking(net: Small) -> ([u32; 8], [u32; 9]) {
    let (mut schemes, mut expressions) = ([0; 8], [0; 9]);
    for node in 0..4 {
        if let Some(part) = named_part(net, node) {
            for (ids, holds) in schemes.iter_mut().zip(properties(part, node == 0).iter()) {
                *ids = if *holds { *ids } else { with(*ids, node) };
            }
            for (ids, holds) in expressions.iter_mut().zip(properties_of(part).iter()) {
                *ids = if *holds { *ids } else { with(*ids, node) };
            }
        }
    }
    (schemes, expressions)
}

fn all_accept<S: Checker>(
    alloc: Global,
    scheme: &S,
    net: &Network,
    labels: &LabelStore,
) -> Result<bool, NoMemory>
    requires { length labels.now ≡ length net.now }
{
    let verdicts = scheme.round(alloc, net, labels, &mut Steps::new())?;
    Ok(
        verdicts
            .iter()
            .all(|verdict| matches!(*verdict, Verdict::Accept)),
    )
}

fn bits_of(ids: &[u32]) -> u32 {
    ids.iter().fold(0, |all, id| with(all, *id))
}

// `due` has one bit per component to be named; with 0, all nodes must accept.
fn are_parts_marked<S: Scheme>(
    alloc: Global,
    scheme: &S,
    net: &Network,
    parts: &Components,
    due: u32,
) -> Result<bool, NoMemory>
    requires { AreComponents net.now parts.now }
{
    match mark_parts(alloc, scheme, net, parts)? {
        MarkResult::Labels(labels) if due == 0 => all_accept(alloc, scheme, net, &labels),
        MarkResult::Labels(_) => Ok(false),
        MarkResult::Lacking(ids) => Ok(bits_of(ids.as_slice()) == due),
    }
}

fn is_marked_by<S: Scheme>(
    alloc: Global,
    scheme: &S,
    net: &Network,
    due: u32,
) -> Result<bool, NoMemory> {
    let parts = components(alloc, net)?;
    are_parts_marked(alloc, scheme, net, &parts, due)
}

fn is_marked(alloc: Global, text: &str, net: &Network, due: u32) -> Result<bool, Fail> {
    match read_expression(alloc, text) {
        Ok(tree) => Ok(is_marked_by(alloc, &AnyScheme::<Gamma>::new(tree), net, due)?),
        Err(_) => Err(Fail::from("not read")),
    }
}

fn are_all_marked(
    alloc: Global,
    texts: &[&str],
    net: &Network,
    dues: &[u32],
) -> Result<bool, Fail> {
    for (text, due) in texts.iter().zip(dues.iter()) {
        if !is_marked(alloc, text, net, *due)? {
            return Ok(false);
        }
    }
    Ok(true)
}

fn are_marked(alloc: Global, net: Small) -> Result<bool, Fail> {
    let read = network(alloc, text_with(alloc, net, 1, 2)?.as_str())?;
    let (schemes, expressions) = lacking(net);
    Ok(
        are_all_marked(alloc, SCHEMES, &read, &schemes)?
            && are_all_marked(alloc, EXPRESSIONS, &read, &expressions)?,
    )
}

#[test]
fn components_of_all_small_networks(rt: HostRuntime) -> Result<(), Fail> {
    let mut all = 0_u32;
    for (nodes, sets) in SETS {
        for edges in 0..*sets {
            for pointers in 0..256 {
                let net = Small {
                    nodes: *nodes,
                    edges,
                    pointers,
                };
                if net.is_proper() {
                    assert!(rt;
                        are_marked(rt.alloc(), net)?,
                        "{nodes} nodes, edges {edges}, pointers {pointers}"
                    );
                    all = all.saturating_add(1);
                }
            }
        }
    }
    assert!(rt; all == 3194, "networks with pointers");
    Ok(())
}
