//! All connected networks of up to four nodes, with all pointers: each scheme finds its property
//! just where a plain program does that tries all there is to try, and then its labels are
//! accepted.

ghost use Rattle.std.specs.Prelude.{◌≡◌, IfOk, length};
ghost use Rattle.pls_configuration.specs.Walk.{IsConnected};

use super::connected_network;
use pls_bits::Gamma;
use pls_colour::{Acyclic, Bipartite};
use pls_graph::Network;
use pls_labels::LabelStore;
use pls_pointer::{Forest, Tree};
use pls_scheme::{Scheme, certifies};
use pls_streams::Steps;
use std::alloc::{AllocError, Global};
use std::test::Fail;

// A network of up to four nodes, 0 to 3: its edges, one bit a pair of nodes, and for each node its
// pointer, 0 for none, else the number of the port and one.
#[derive(Clone, Copy)]
pub(super) struct Small {
    pub(super) nodes: u32,
    pub(super) edges: u32,
    pub(super) pointers: u32,
}

pub(super) fn has(bits: u32, place: u32) -> bool {
    bits.wrapping_shr(place) & 1 == 1
}

pub(super) fn with(bits: u32, place: u32) -> u32 {
    bits | 1_u32.wrapping_shl(place)
}

// The bit of an edge in a set, by its ends.
pub(super) fn pair(a: u32, b: u32) -> u32 {
    match (a.min(b), a.max(b)) {
        (0, 1) => 0,
        (0, 2) => 1,
        (1, 2) => 2,
        (0, 3) => 3,
        (1, 3) => 4,
        _ => 5,
    }
}

impl Small {
    pub(super) fn joins(edges: u32, a: u32, b: u32) -> bool {
        a != b && has(edges, pair(a, b))
    }

    // 0 for none, else the number of the port plus one.
    pub(super) fn pointer(self, node: u32) -> u32 {
        self.pointers.wrapping_shr(node.saturating_mul(2)) & 3
    }

    // Ports are in the order of the neighbours.
    pub(super) fn target(self, node: u32) -> Option<u32> {
        let mut left = self.pointer(node);
        for nbr in 0..4 {
            if nbr < self.nodes && Small::joins(self.edges, node, nbr) && left > 0 {
                left -= 1;
                if left == 0 {
                    return Some(nbr);
                }
            }
        }
        None
    }

    // Whether each pointer is 0 or names a port; nodes beyond `nodes` have none.
    pub(super) fn is_proper(self) -> bool {
        (0..4).all(|node| self.pointer(node) == 0
            || node < self.nodes && self.target(node).is_some())
    }
}

// The nodes within `most` edges of `start`, one bit a node.
pub(super) fn nodes_within(edges: u32, start: u32, most: u32) -> u32 {
    let mut reached = with(0, start);
    for _ in 0..most {
        let before = reached;
        for a in 0..4 {
            for b in 0..4 {
                if Small::joins(edges, a, b) && has(before, a) {
                    reached = with(reached, b);
                }
            }
        }
    }
    reached
}

pub(super) fn are_joined(edges: u32, nodes: u32) -> bool {
    let reached = nodes_within(edges, 0, 3);
    (0..4).all(|node| node >= nodes || has(reached, node))
}

pub(super) fn pointer_edges(net: Small) -> u32 {
    let mut edges = 0_u32;
    for node in 0..4 {
        if let Some(target) = net.target(node) {
            edges = with(edges, pair(node, target));
        }
    }
    edges
}

fn roots(net: Small) -> usize {
    (0..4)
        .filter(|node| *node < net.nodes && net.target(*node).is_none())
        .count()
}

// One node has no pointer, and the pointed edges, one fewer than the nodes, join them.
pub(super) fn is_tree(net: Small) -> bool {
    let edges = pointer_edges(net);
    roots(net) == 1
        && edges.count_ones().saturating_add(1) == net.nodes
        && are_joined(edges, net.nodes)
}

// No chain of one to four pointers returns to its start.
pub(super) fn is_forest(net: Small) -> bool {
    (0..4).all(|start| !returns(net, start))
}

fn returns(net: Small, start: u32) -> bool {
    let mut node = start;
    for _ in 0..4 {
        match net.target(node) {
            Some(target) => node = target,
            None => return false,
        }
        if node == start {
            return true;
        }
    }
    false
}

// Some choice of two colours differs across each edge.
pub(super) fn is_bipartite(net: Small) -> bool {
    (0..16_u32).any(|colours| differs(net.edges, colours))
}

// `colours` has one bit a node.
fn differs(edges: u32, colours: u32) -> bool {
    (0..4).all(|a| (0..4).all(|b| !Small::joins(edges, a, b) || has(colours, a) != has(colours, b)))
}

pub(super) fn is_acyclic(net: Small) -> bool {
    for a in 0..4 {
        for b in 0..4 {
            for c in 0..4 {
                let path = Small::joins(net.edges, a, b) && Small::joins(net.edges, b, c) && a != c;
                if path && (Small::joins(net.edges, c, a) || closes(net.edges, a, b, c)) {
                    return false;
                }
            }
        }
    }
    true
}

// Whether a fourth node closes the path `a`, `b`, `c` to a cycle.
fn closes(edges: u32, a: u32, b: u32, c: u32) -> bool {
    (0..4).any(|d| d != b && Small::joins(edges, c, d) && Small::joins(edges, d, a))
}

pub(super) fn write_node(
    text: &mut String,
    net: Small,
    node: u32,
    mark: u32,
    number: u32,
) -> Result<(), AllocError> {
    match net.pointer(node) {
        0 => write!(text, "node {node} - {mark} {number}\n"),
        up => write!(text, "node {node} {} {mark} {number}\n", up - 1),
    }
}

// Each port has weight 1.
pub(super) fn write_ports(text: &mut String, net: Small, node: u32) -> Result<(), AllocError> {
    for nbr in 0..net.nodes.min(4) {
        if Small::joins(net.edges, node, nbr) {
            write!(text, "port {nbr} 1\n")?;
        }
    }
    Ok(())
}

fn write_with(text: &mut String, net: Small, mark: u32, number: u32) -> Result<(), AllocError> {
    text.push_str("network\n")?;
    for node in 0..net.nodes.min(4) {
        let mark = if node == 0 { mark } else { 0 };
        write_node(text, net, node, mark, number)?;
        write_ports(text, net, node)?;
    }
    text.push_str("end\n")
}

// Only the first node has `mark`, and each node has `number`.
pub(super) fn text_with(
    alloc: Global,
    net: Small,
    mark: u32,
    number: u32,
) -> Result<String, AllocError> {
    let mut text = String::new(alloc);
    write_with(&mut text, net, mark, number)?;
    Ok(text)
}

// Fails where the network is not connected; marks and numbers are 0.
pub(super) fn connected_small(alloc: Global, net: Small) -> Result<Network, Fail>
    ensures { IfOk result (λ net. IsConnected net) }
{
    let text = text_with(alloc, net, 0, 0)?;
    connected_network(alloc, text.as_str())
}

// Fails where deciding and marking differ, or a node rejects the labels.
pub(super) fn marks<S: Scheme>(alloc: Global, scheme: &S, net: &Network) -> Result<bool, Fail>
    requires { IsConnected net.now }
{
    let decided = scheme.decide(alloc, net)?;
    if is_certified(alloc, scheme, net)? == decided {
        Ok(decided)
    } else {
        Err(Fail::from("decided and marked differ"))
    }
}

// Fails where a node rejects the labels.
fn is_certified<S: Scheme>(alloc: Global, scheme: &S, net: &Network) -> Result<bool, Fail>
    requires { IsConnected net.now }
{
    match scheme.mark(alloc, net)? {
        Some(labels) => are_accepted(alloc, scheme, net, &labels),
        None => Ok(false),
    }
}

// Never false: a node that rejects is an error.
fn are_accepted<S: Scheme>(
    alloc: Global,
    scheme: &S,
    net: &Network,
    labels: &LabelStore,
) -> Result<bool, Fail>
    requires connected { IsConnected net.now }
    requires each { length labels.now ≡ length net.now }
{
    if certifies(alloc, scheme, net, labels, &mut Steps::new())? {
        Ok(true)
    } else {
        Err(Fail::from("marked and not accepted"))
    }
}

// Compares the schemes with the plain programs.
fn is_marked(alloc: Global, read: &Network, net: Small) -> Result<bool, Fail>
    requires { IsConnected read.now }
{
    let tree = marks(alloc, &Tree::<Gamma>::new(), read)?;
    let forest = marks(alloc, &Forest::<Gamma>::new(), read)?;
    let bipartite = marks(alloc, &Bipartite::<Gamma>::new(), read)?;
    let acyclic = marks(alloc, &Acyclic::<Gamma>::new(), read)?;
    Ok(
        tree == is_tree(net)
            && forest == is_forest(net)
            && bipartite == is_bipartite(net)
            && acyclic == is_acyclic(net),
    )
}

fn is_as_decided(alloc: Global, net: Small) -> Result<bool, Fail> {
    let read = connected_small(alloc, net)?;
    is_marked(alloc, &read, net)
}

// How many choices of pointers were tried; fails at the first that is decided wrongly.
fn count_of_tried(alloc: Global, nodes: u32, edges: u32) -> Result<u32, Fail> {
    let mut tried = 0_u32;
    for pointers in 0..256 {
        let net = Small {
            nodes,
            edges,
            pointers,
        };
        if net.is_proper() {
            if !is_as_decided(alloc, net)? {
                return Err(Fail::from("decided otherwise"));
            }
            tried = tried.saturating_add(1);
        }
    }
    Ok(tried)
}

// So many nodes have so many sets of edges.
pub(super) const SETS: &[(u32, u32)] = &[(1, 1), (2, 2), (3, 8), (4, 64)];

#[test]
fn properties_of_all_small_networks(rt: HostRuntime) -> Result<(), Fail> {
    let mut all = 0_u32;
    for (nodes, sets) in SETS {
        for edges in 0..*sets {
            if are_joined(edges, *nodes) {
                all = all.saturating_add(count_of_tried(rt.alloc(), *nodes, edges)?);
            }
        }
    }
    assert!(rt; all == 2855, "connected networks with pointers");
    Ok(())
}
