//! A plain program for networks, which keeps nodes and ports in two lists.

use pls_graph_edits::EditError;
use std::alloc::{AllocError, Global};

/// A node of the plain program, and its pointer.
#[derive(Clone, Copy)]
pub(super) struct PlainNode {
    pub(super) id: u32,
    pub(super) up: Option<u32>,
}

/// A port of the plain program: whose it is, and the port.
#[derive(Clone, Copy)]
pub(super) struct PlainPort {
    pub(super) owner: u32,
    pub(super) nbr: u32,
    pub(super) weight: u32,
}

/// A network as two lists: its nodes, and its ports, those of a node in their order.
#[derive(Drop)]
pub(super) struct Plain {
    pub(super) nodes: Vec<PlainNode>,
    pub(super) ports: Vec<PlainPort>,
}

/// An edit of a network.
#[derive(Clone, Copy)]
pub(super) enum Edit {
    State(u32, Option<u32>),
    Weight(u32, u32),
    Link(u32, u32),
    Unlink(u32, u32),
    Join(u32),
    Leave(u32),
}

/// The weight that an edit gives.
pub(super) const WEIGHT: u32 = 8;

impl Plain {
    fn has(&self, id: u32) -> bool {
        self.nodes.as_slice().iter().any(|node| node.id == id)
    }

    fn degree(&self, id: u32) -> usize {
        let mut count = 0_usize;
        for port in &self.ports {
            count = count.saturating_add(usize::from(port.owner == id));
        }
        count
    }

    // The number, from 0, of the port of `owner` to `nbr`.
    fn number(&self, owner: u32, nbr: u32) -> Option<u32> {
        let mut number = 0_u32;
        for port in &self.ports {
            if port.owner == owner {
                if port.nbr == nbr {
                    return Some(number);
                }
                number = number.saturating_add(1);
            }
        }
        None
    }

    /// Why an edit is refused.
    pub(super) fn refusal(&self, edit: Edit) -> Option<EditError> {
        match edit {
            Edit::State(id, _) | Edit::Leave(id) if !self.has(id) => Some(EditError::Absent),
            Edit::State(id, Some(up)) if up as usize >= self.degree(id) => Some(EditError::Pointer),
            Edit::Weight(a, b) | Edit::Unlink(a, b) if self.number(a, b).is_none() => {
                Some(EditError::Absent)
            }
            Edit::Link(a, b) if !self.has(a) || !self.has(b) => Some(EditError::Absent),
            Edit::Link(a, b) if a == b => Some(EditError::SelfLink),
            Edit::Link(a, b) if self.number(a, b).is_some() => Some(EditError::Present),
            Edit::Join(id) if self.has(id) => Some(EditError::Present),
            Edit::Leave(id) if self.degree(id) > 0 => Some(EditError::HasPorts),
            Edit::Leave(_) if self.nodes.len() == 1 => Some(EditError::Last),
            _ => None,
        }
    }

    fn point(&mut self, id: u32, up: Option<u32>) {
        for node in self.nodes.iter_mut() {
            if node.id == id {
                node.up = up;
            }
        }
    }

    // Removes the port, and renumbers or clears the pointer of `owner`.
    fn cut(&mut self, owner: u32, nbr: u32) {
        let number = self.number(owner, nbr);
        for node in self.nodes.iter_mut() {
            if node.id == owner && node.up.is_some() {
                node.up = match (node.up, number) {
                    (Some(up), Some(gone)) if up > gone => Some(up - 1),
                    (up, gone) if up == gone => None,
                    (up, _) => up,
                };
            }
        }
        self.ports
            .retain(|port| !(port.owner == owner && port.nbr == nbr));
    }

    /// Makes the edit, which is not refused.
    pub(super) fn make(&mut self, edit: Edit) -> Result<(), AllocError> {
        match edit {
            Edit::State(id, up) => self.point(id, up),
            Edit::Weight(a, b) => {
                for port in self.ports.iter_mut() {
                    let ends = (port.owner, port.nbr);
                    if ends == (a, b) || ends == (b, a) {
                        port.weight = WEIGHT;
                    }
                }
            }
            Edit::Link(a, b) => {
                for (owner, nbr) in [(a, b), (b, a)] {
                    self.ports.push(PlainPort {
                        owner,
                        nbr,
                        weight: WEIGHT,
                    })?;
                }
            }
            Edit::Unlink(a, b) => {
                self.cut(a, b);
                self.cut(b, a);
            }
            Edit::Join(id) => {
                self.nodes.push(PlainNode { id, up: None })?;
                self.nodes.sort_by_key(|node| node.id)?;
            }
            Edit::Leave(id) => self.nodes.retain(|node| node.id != id),
        }
        Ok(())
    }

    // Fills an empty network, by one bit an edge and two a pointer; false where a pointer names no
    // port.
    fn grow(&mut self, nodes: u32, edges: u32, pointers: u32) -> Result<bool, AllocError> {
        for (bit, a, b) in [(1, 1, 3), (2, 3, 5), (4, 1, 5)] {
            if edges & bit != 0 {
                self.make(Edit::Link(a, b))?;
            }
        }
        for (id, shift) in [(1, 0), (3, 2), (5, 4)] {
            if id < 2 * nodes.min(3) {
                let up = pointers.wrapping_shr(shift) & 3;
                let up = if up == 3 { None } else { Some(up) };
                if up.is_some_and(|up| up as usize >= self.degree(id)) {
                    return Ok(false);
                }
                self.nodes.push(PlainNode { id, up })?;
            }
        }
        Ok(true)
    }

    /// The text of the network.
    pub(super) fn text(&self, alloc: Global) -> Result<String, AllocError> {
        let mut text = String::new(alloc);
        self.write(alloc, &mut text)?;
        Ok(text)
    }

    fn write(&self, alloc: Global, text: &mut String) -> Result<(), AllocError> {
        text.push_str("network\n")?;
        for node in &self.nodes {
            write_node(alloc, text, *node)?;
            for port in &self.ports {
                if port.owner == node.id {
                    write_port(alloc, text, *port)?;
                }
            }
        }
        text.push_str("end\n")
    }

    /// The same once more.
    pub(super) fn again(&self, alloc: Global) -> Result<Plain, AllocError> {
        Ok(Plain {
            nodes: self.nodes.as_slice().to_vec(alloc)?,
            ports: self.ports.as_slice().to_vec(alloc)?,
        })
    }
}

fn write_node(alloc: Global, text: &mut String, node: PlainNode) -> Result<(), AllocError> {
    let id = node.id;
    let line = match node.up {
        None => format!(in alloc; "node {id} - 0 0\n")?,
        Some(up) => format!(in alloc; "node {id} {up} 0 0\n")?,
    };
    text.push_str(line.as_str())
}

fn write_port(alloc: Global, text: &mut String, port: PlainPort) -> Result<(), AllocError> {
    let (nbr, weight) = (port.nbr, port.weight);
    let line = format!(in alloc; "port {nbr} {weight}\n")?;
    text.push_str(line.as_str())
}

/// The nodes 1, 3 and 5, as many as are wanted, with these edges, one bit a pair, and pointers, two
/// bits a node: 3 for none, else the number of a port. `None` where a pointer names no port.
pub(super) fn small(
    alloc: Global,
    nodes: u32,
    edges: u32,
    pointers: u32,
) -> Result<Option<Plain>, AllocError> {
    let mut plain = Plain {
        nodes: Vec::new(alloc),
        ports: Vec::new(alloc),
    };
    Ok(plain.grow(nodes, edges, pointers)?.then_some(plain))
}
