//! Expressions on all connected networks of up to four nodes with all pointers: each marks just
//! where plain programs find its parts, joined as it says, and then all nodes accept the labels.

ghost use Rattle.pls_configuration.specs.Walk.{IsConnected};

use super::small::{
    SETS, Small, are_joined, connected_small, has, is_acyclic, is_bipartite, is_forest, is_tree,
    marks, nodes_within, with,
};
use pls_bits::Gamma;
use pls_combine::AnyScheme;
use pls_graph::Network;
use pls_scheme_text::read_expression;
use std::alloc::Global;
use std::test::Fail;

fn is_bridgeless(net: Small) -> bool {
    (0..6).all(|edge| !has(net.edges, edge) || are_joined(net.edges & !with(0, edge), net.nodes))
}

// Whether all nodes are within `most` edges of each other.
fn is_within(net: Small, most: u32) -> bool {
    (0..4).all(|node| node >= net.nodes
        || nodes_within(net.edges, node, most).count_ones() == net.nodes)
}

// The expressions that are tried.
pub(super) const EXPRESSIONS: &[&str] = &[
    "and(tree,bipartite)",
    "or(tree,acyclic)",
    "and(forest,or(bipartite,acyclic))",
    "map(bridgeless)",
    "map(diameter:1)",
    "map(diameter:2)",
    "and(tree,map(bridgeless))",
    "or(bipartite,map(diameter:1))",
    "map(and(tree,bridgeless))",
];

// Decided by plain programs, in the order of `EXPRESSIONS`.
pub(super) fn properties_of(net: Small) -> [bool; 9] {
    let tree = is_tree(net);
    let bipartite = is_bipartite(net);
    let acyclic = is_acyclic(net);
    let bridgeless = is_bridgeless(net);
    [
        tree && bipartite,
        tree || acyclic,
        is_forest(net) && (bipartite || acyclic),
        bridgeless,
        is_within(net, 1),
        is_within(net, 2),
        tree && bridgeless,
        bipartite || is_within(net, 1),
        tree && bridgeless,
    ]
}

// Fails where a node rejects the labels.
fn text_marks(alloc: Global, text: &str, net: &Network) -> Result<bool, Fail>
    requires { IsConnected net.now }
{
    match read_expression(alloc, text) {
        Ok(tree) => marks(alloc, &AnyScheme::<Gamma>::new(tree), net),
        Err(_) => Err(Fail::from("not read")),
    }
}

fn mark_where_due(alloc: Global, read: &Network, due: &[bool]) -> Result<bool, Fail>
    requires { IsConnected read.now }
{
    for (text, due) in EXPRESSIONS.iter().zip(due.iter()) {
        if text_marks(alloc, text, read)? != *due {
            return Ok(false);
        }
    }
    Ok(true)
}

fn are_marked(alloc: Global, net: Small) -> Result<bool, Fail> {
    let read = connected_small(alloc, net)?;
    mark_where_due(alloc, &read, &properties_of(net))
}

// How many choices of pointers were tried; fails at the first that is marked wrongly.
fn count_of_tried(alloc: Global, nodes: u32, edges: u32) -> Result<u32, Fail> {
    let mut tried = 0_u32;
    for pointers in 0..256 {
        let net = Small {
            nodes,
            edges,
            pointers,
        };
        if net.is_proper() {
            if !are_marked(alloc, net)? {
                return Err(Fail::from("marked otherwise"));
            }
            tried = tried.saturating_add(1);
        }
    }
    Ok(tried)
}

#[test]
fn expressions_on_all_small_networks(rt: HostRuntime) -> Result<(), Fail> {
    let mut all = 0_u32;
    for (nodes, sets) in SETS {
        for edges in 0..*sets {
            if are_joined(edges, *nodes) {
                all = all.saturating_add(count_of_tried(rt.alloc(), *nodes, edges)?);
            }
        }
    }
    assert!(rt; all == 2855, "connected networks with pointers");
    Ok(())
}
