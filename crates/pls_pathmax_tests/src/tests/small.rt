//! All connected networks of up to four nodes with weights of 1 and 2 and all pointers, of four
//! nodes all that make a tree: `pathmax` finds its property just where `mst` does, and then its
//! labels are accepted.

ghost use Rattle.pls_configuration.specs.Walk.{IsConnected};

use super::network;
use pls_bits::Gamma;
use pls_graph::{Network, node_apart};
use pls_mst::Mst;
use pls_pathmax::PathMax;
use pls_scheme::{Property, Scheme, certifies};
use pls_streams::Steps;
use std::alloc::{AllocError, Global};
use std::test::Fail;

// A network of up to four nodes: its edges, one bit a pair of nodes, those that weigh 2, and for
// each node its pointer, 0 for none, else the number of the port and one.
#[derive(Clone, Copy)]
struct Small {
    nodes: u32,
    edges: u32,
    heavy: u32,
    pointers: u32,
}

// The bit of an edge in a set, from 0 to 5.
fn pair(a: u32, b: u32) -> u32 {
    match (a.min(b), a.max(b)) {
        (0, 1) => 0,
        (0, 2) => 1,
        (1, 2) => 2,
        (0, 3) => 3,
        (1, 3) => 4,
        _ => 5,
    }
}

fn joins(set: u32, a: u32, b: u32) -> bool {
    a != b && set.wrapping_shr(pair(a, b)) & 1 == 1
}

// `None` where the node points at none or has no such port.
fn target(small: Small, node: u32) -> Option<u32> {
    let mut left = small.pointers.wrapping_shr(node.saturating_mul(2)) & 3;
    for nbr in 0..4 {
        if left > 0 && joins(small.edges, node, nbr) {
            left -= 1;
            if left == 0 {
                return Some(nbr);
            }
        }
    }
    None
}

// The node where a chain of at most three pointers ends.
fn end(small: Small, start: u32) -> u32 {
    let mut node = start;
    for _ in 0..3 {
        if let Some(next) = target(small, node) {
            node = next;
        }
    }
    node
}

// Whether, of four nodes, each chain of pointers ends at one that points at none.
fn is_tree(small: Small) -> bool {
    let root = end(small, 0);
    target(small, root).is_none() && (0..4).all(|node| end(small, node) == root)
}

// Whether each pointer is 0 or a port's.
fn is_proper(small: Small) -> bool {
    (0..small.nodes.min(4)).all(|node| {
        small.pointers.wrapping_shr(node.saturating_mul(2)) & 3 == 0
            || target(small, node).is_some()
    })
}

fn text_of(alloc: Global, small: Small) -> Result<String, AllocError> {
    let mut text = String::from_str(alloc, "network\n")?;
    for node in 0..small.nodes.min(4) {
        let line = match small.pointers.wrapping_shr(node.saturating_mul(2)) & 3 {
            0 => format!(in alloc; "node {node} - 0 0\n")?,
            pointer => format!(in alloc; "node {node} {} 0 0\n", pointer - 1)?,
        };
        text.push_str(line.as_str())?;
        for nbr in 0..small.nodes.min(4) {
            if joins(small.edges, node, nbr) {
                let weight = if joins(small.heavy, node, nbr) { 2 } else { 1 };
                text.push_str(format!(in alloc; "port {nbr} {weight}\n")?.as_str())?;
            }
        }
    }
    text.push_str("end\n")?;
    Ok(text)
}

fn is_as_mst(alloc: Global, net: &Network) -> Result<bool, Fail>
    requires { IsConnected net.now }
{
    let scheme = PathMax::<Gamma>::new();
    let holds = Mst::<Gamma>::new().decide(alloc, net)?;
    if scheme.decide(alloc, net)? != holds {
        return Ok(false);
    }
    match scheme.mark(alloc, net)? {
        Some(labels) => Ok(holds && certifies(alloc, &scheme, net, &labels, &mut Steps::new())?),
        None => Ok(!holds),
    }
}

// False where the network is not connected; fails where the check does.
fn is_right_where_connected(alloc: Global, small: Small) -> Result<bool, Fail> {
    let text = text_of(alloc, small)?;
    let net = network(alloc, text.as_str())?;
    if node_apart(alloc, &net)?.is_some() {
        return Ok(false);
    }
    if is_as_mst(alloc, &net)? {
        Ok(true)
    } else {
        Err(Fail::from("decided otherwise"))
    }
}

// How many connected networks there are with these `edges`, one bit a pair.
fn count_of_connected(alloc: Global, nodes: u32, edges: u32) -> Result<u32, Fail> {
    let mut count = 0_u32;
    for heavy in 0..64 {
        // Pairs without edge have no weight, so each network is tried once.
        if heavy & !edges == 0 {
            for pointers in 0..1_u32.wrapping_shl(nodes.saturating_mul(2)) {
                let small = Small {
                    nodes,
                    edges,
                    heavy,
                    pointers,
                };
                // Of four nodes no weights make a tree of pointers that are none.
                let is_asked = is_proper(small) && (nodes < 4 || is_tree(small));
                if is_asked && is_right_where_connected(alloc, small)? {
                    count = count.saturating_add(1);
                }
            }
        }
    }
    Ok(count)
}

// How many nodes, how many sets of pairs of them, and how many connected networks.
const SETS: &[(u32, u32, u32)] = &[(1, 1, 1), (2, 2, 8), (3, 8, 360), (4, 64, 13_824)];

#[test]
fn pathmax_is_as_mst(rt: HostRuntime) -> Result<(), Fail> {
    for (nodes, sets, due) in SETS {
        let mut count = 0_u32;
        for edges in 0..*sets {
            count = count.saturating_add(count_of_connected(rt.alloc(), *nodes, edges)?);
        }
        assert!(rt; count == *due, "{count} networks of {nodes}");
    }
    Ok(())
}
