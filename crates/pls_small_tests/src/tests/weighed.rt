//! Shortest-path trees and spanning trees of least weight in small networks with weights of 0 and 1
//! and all pointers, of four nodes all that make a tree, decided as plain programs do that try all
//! walks and all sets of edges.

ghost use Rattle.pls_configuration.specs.Walk.{IsConnected};

use super::connected_network;
use super::small::{SETS, Small, are_joined, has, is_tree, marks, pair, pointer_edges, write_node};
use pls_bits::Gamma;
use pls_distance::Spt;
use pls_graph::Network;
use pls_mst::Mst;
use std::alloc::{AllocError, Global};
use std::test::Fail;

// A small network whose edges have one of two weights each: those with a bit have the second.
#[derive(Clone, Copy)]
struct WeightedNetwork {
    net: Small,
    second: u32,
    weights: (u32, u32),
}

impl WeightedNetwork {
    fn weight(self, a: u32, b: u32) -> u32 {
        if has(self.second, pair(a, b)) {
            self.weights.1
        } else {
            self.weights.0
        }
    }

    // The weight of a pointer chain and its last node, after at most four pointers.
    fn chain(self, start: u32) -> (u32, u32) {
        let mut node = start;
        let mut weight = 0_u32;
        for _ in 0..4 {
            if let Some(target) = self.net.target(node) {
                weight = weight.saturating_add(self.weight(node, target));
                node = target;
            }
        }
        (weight, node)
    }

    // Whether a walk of at most three edges weighs less than `weight`.
    fn is_lighter(self, from: u32, to: u32, weight: u32) -> bool {
        let walk = |a: u32, b: u32| -> u32 {
            if a == b {
                0
            } else if Small::joins(self.net.edges, a, b) {
                self.weight(a, b)
            } else {
                1_000
            }
        };
        (0..4).any(|a| (0..4).any(|b| walk(from, a)
            .saturating_add(walk(a, b))
            .saturating_add(walk(b, to))
            < weight))
    }

    // The total weight of a set of edges.
    fn sum(self, edges: u32) -> u32 {
        let heavy = (edges & self.second).count_ones();
        let light = (edges & !self.second).count_ones();
        heavy
            .saturating_mul(self.weights.1)
            .saturating_add(light.saturating_mul(self.weights.0))
    }

    fn is_tree_lighter(self, weight: u32) -> bool {
        (0..64).any(|tree: u32| tree & !self.net.edges == 0
            && tree.count_ones().saturating_add(1) == self.net.nodes
            && self.sum(tree) < weight
            && are_joined(tree, self.net.nodes))
    }

    fn is_lightest(self) -> bool {
        is_tree(self.net) && !self.is_tree_lighter(self.sum(pointer_edges(self.net)))
    }

    // The pointers make a tree, and no walk from the root is lighter than a node's chain.
    fn is_shortest(self) -> bool {
        is_tree(self.net)
            && (0..4).all(|node| {
                let (weight, root) = self.chain(node);
                node >= self.net.nodes || !self.is_lighter(root, node, weight)
            })
    }

    fn write(self, text: &mut String) -> Result<(), AllocError> {
        text.push_str("network\n")?;
        for node in 0..self.net.nodes.min(4) {
            write_node(text, self.net, node, 0, 0)?;
            for nbr in 0..self.net.nodes.min(4) {
                if Small::joins(self.net.edges, node, nbr) {
                    let weight = self.weight(node, nbr);
                    write!(text, "port {nbr} {weight}\n")?;
                }
            }
        }
        text.push_str("end\n")
    }
}

// Compares the schemes with the plain programs.
fn is_marked(alloc: Global, read: &Network, weighed: WeightedNetwork) -> Result<bool, Fail>
    requires { IsConnected read.now }
{
    let shortest = marks(alloc, &Spt::<Gamma>::new(), read)?;
    let lightest = marks(alloc, &Mst::<Gamma>::new(), read)?;
    Ok(shortest == weighed.is_shortest() && lightest == weighed.is_lightest())
}

fn is_as_decided(alloc: Global, weighed: WeightedNetwork) -> Result<bool, Fail> {
    let mut text = String::new(alloc);
    weighed.write(&mut text)?;
    let read = connected_network(alloc, text.as_str())?;
    is_marked(alloc, &read, weighed)
}

// How many choices of weights were tried; fails at the first that is decided wrongly.
fn count_of_weights(alloc: Global, net: Small) -> Result<u32, Fail> {
    let mut tried = 0_u32;
    for second in 0..64 {
        // Pairs without edge have no weight, so each network is tried once.
        if second & !net.edges == 0 {
            let weights = (0, 1);
            let weighed = WeightedNetwork {
                net,
                second,
                weights,
            };
            if !is_as_decided(alloc, weighed)? {
                return Err(Fail::from("decided otherwise"));
            }
            tried = tried.saturating_add(1);
        }
    }
    Ok(tried)
}

// How many choices of pointers and weights were tried on these edges.
fn count_of_tried(alloc: Global, nodes: u32, edges: u32) -> Result<u32, Fail> {
    let mut tried = 0_u32;
    for pointers in 0..256 {
        let net = Small {
            nodes,
            edges,
            pointers,
        };
        // Of four nodes those are tried whose pointers make a tree: no weights make one of others.
        if net.is_proper() && (nodes < 4 || is_tree(net)) {
            tried = tried.saturating_add(count_of_weights(alloc, net)?);
        }
    }
    Ok(tried)
}

#[test]
fn trees_of_all_small_weighed_networks(rt: HostRuntime) -> Result<(), Fail> {
    let mut all = 0_u32;
    for (nodes, sets) in SETS {
        for edges in 0..*sets {
            if are_joined(edges, *nodes) {
                all = all.saturating_add(count_of_tried(rt.alloc(), *nodes, edges)?);
            }
        }
    }
    // Choices of weights and of pointers: a node alone; a pair; 3 rows and the triangle. Of four
    // nodes a root and a spanning tree, in 16 trees, 3 rings, 12 with a triangle, 6 of five edges,
    // one of six.
    let small = 1 + 2 * 4 + 3 * 4 * 12 + 8 * 27;
    let four = 8 * 16 * 4 + 16 * (3 * 16 + 12 * 12) + 32 * 6 * 32 + 64 * 64;
    assert!(rt; all == small + four, "networks");
    Ok(())
}
