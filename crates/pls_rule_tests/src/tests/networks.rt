//! Small networks: all of up to three nodes, and a part of those of four.

use pls_graph::Network;
use pls_netfile::read_network;
use std::alloc::{AllocError, Global};
use std::test::Fail;

// A network of up to four nodes, 0 to 3: its edges, one bit a pair of nodes; for each node two bits
// of its pointer, 0 for none, else the number of the port and one; and one bit a node that is
// marked and knows how many nodes there are.
#[derive(Clone, Copy)]
struct Plan {
    nodes: u32,
    edges: u32,
    pointers: u32,
    marks: u32,
}

// The bits from `place` on.
fn above(bits: u32, place: u32) -> u32 {
    bits.wrapping_shr(place)
}

// `None` where there is no edge between the two nodes.
fn weight(edges: u32, a: u32, b: u32) -> Option<u32> {
    let pair = match (a.min(b), a.max(b)) {
        (0, 1) => 0,
        (0, 2) => 1,
        (1, 2) => 2,
        (0, 3) => 3,
        (1, 3) => 4,
        _ => 5,
    };
    // Two edges of weight 1 may be lighter than one of weight 3.
    if a != b && above(edges, pair) & 1 == 1 {
        Some(if pair & 1 == 1 { 3 } else { 1 })
    } else {
        None
    }
}

impl Plan {
    fn pointer(self, node: u32) -> u32 {
        above(self.pointers, node.saturating_mul(2)) & 3
    }

    // Whether each pointer is a port of its node.
    fn is_proper(self) -> bool {
        let nodes = self.nodes.min(4);
        (0..nodes).all(|node| {
            let mut degree = 0_u32;
            for nbr in 0..nodes {
                degree = degree.saturating_add(u32::from(weight(self.edges, node, nbr).is_some()));
            }
            self.pointer(node) <= degree
        })
    }

    fn write_node(self, text: &mut String, node: u32) -> Result<(), AllocError> {
        let mark = above(self.marks, node) & 1;
        let number = if mark == 1 { self.nodes } else { 0 };
        match self.pointer(node) {
            0 => write!(text, "node {node} - {mark} {number}\n"),
            up => write!(text, "node {node} {} {mark} {number}\n", up - 1),
        }
    }

    fn write(self, text: &mut String) -> Result<(), AllocError> {
        text.push_str("network\n")?;
        for node in 0..self.nodes.min(4) {
            self.write_node(text, node)?;
            for nbr in 0..self.nodes.min(4) {
                if let Some(weight) = weight(self.edges, node, nbr) {
                    write!(text, "port {nbr} {weight}\n")?;
                }
            }
        }
        text.push_str("end\n")
    }

    // Needs a proper plan: each pointer is a port.
    fn network(self, alloc: Global) -> Result<Network, Fail> {
        let mut text = String::new(alloc);
        self.write(&mut text)?;
        match read_network(alloc, text.as_str().as_bytes()) {
            Ok(net) => Ok(net),
            Err(_) => Err(Fail::from("refused")),
        }
    }
}

// For so many nodes, how many sets of edges, choices of pointers and choices of marks there are.
const CHOICES: &[(u32, u32, u32, u32)] = &[
    (1, 1, 1, 2),
    (2, 2, 16, 4),
    (3, 8, 64, 8),
    (4, 64, 256, 16),
];

// All networks of up to three nodes; of four nodes every seventh, with one choice of marks.
pub(super) fn networks(alloc: Global) -> Result<Vec<Network>, Fail> {
    let mut nets = Vec::new(alloc);
    put_networks(alloc, &mut nets)?;
    Ok(nets)
}

fn put_networks(alloc: Global, nets: &mut Vec<Network>) -> Result<(), Fail> {
    for (nodes, sets, choices, most) in CHOICES {
        let (nodes, step) = (*nodes, if *nodes == 4 { 7 } else { 1 });
        for number in 0..sets.saturating_mul(*choices) {
            let edges = number.checked_rem(*sets).unwrap_or(0);
            let pointers = number.checked_div(*sets).unwrap_or(0);
            for marks in 0..*most {
                let plan = Plan {
                    nodes,
                    edges,
                    pointers,
                    marks,
                };
                let is_taken = step == 1 || number % 7 == 0 && marks == number / 7 % 16;
                if is_taken && plan.is_proper() {
                    nets.push(plan.network(alloc)?)?;
                }
            }
        }
    }
    Ok(())
}
