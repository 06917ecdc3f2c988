//! Where the port that leads back is looked for first. Nothing is claimed of it: who asks looks
//! there.

use pls_graph::Network;
use std::alloc::{AllocError, Global};

// A port, by the place of its owner and its number there.
#[derive(Clone, Copy)]
struct PortPlace {
    owner: u16,
    port: u16,
}

/// The ports that lead to each node, in the order of their owners: those to the node at place i
/// stand from the number of its own first port to `ends[i]`, since in a network as many lead to it
/// as it has. For each place the number of the port of the node there that leads to the node that
/// was noted last.
#[derive(Drop)]
pub(crate) struct Guesses {
    ends: Vec<u32>,
    ways: Vec<PortPlace>,
    noted: Vec<u16>,
}

impl Guesses {
    /// The ports of a network, in which each node's first port has one of these numbers, and which
    /// has so many ports.
    pub(crate) fn of(
        alloc: Global,
        net: &Network,
        firsts: &[u32],
        ports: usize,
    ) -> Result<Guesses, AllocError> {
        let none = PortPlace { owner: 0, port: 0 };
        let mut guesses = Guesses {
            ends: Vec::from_slice(alloc, firsts)?,
            ways: vec![in alloc; none; ports]?,
            noted: vec![in alloc; 0u16; net.len()]?,
        };
        for i in 0..net.len() {
            for (p, to) in net.places(i).iter().enumerate() {
                guesses.put(
                    *to as usize,
                    PortPlace {
                        owner: narrow(i),
                        port: narrow(p),
                    },
                );
            }
        }
        Ok(guesses)
    }

    // Adds a port that leads to node `to`, if there is room.
    #[inline(always)]
    fn put(&mut self, to: usize, way: PortPlace) {
        if to < self.ends.len() {
            let end = self.ends[to];
            if (end as usize) < self.ways.len() {
                self.ways[end as usize] = way;
                self.ends[to] = end.saturating_add(1);
            }
        }
    }

    /// Notes the ports that lead to the node at place i, whose first port has this number.
    pub(crate) fn note(&mut self, i: usize, first: usize) {
        let end = match self.ends.get(i) {
            Some(end) => *end as usize,
            None => 0,
        };
        for at in first..end.min(self.ways.len()) {
            let PortPlace { owner, port } = self.ways[at];
            if (owner as usize) < self.noted.len() {
                self.noted[owner as usize] = port;
            }
        }
    }

    /// The number of the port of the node at place j that leads to the node that was noted last.
    #[inline(always)]
    pub(crate) fn port(&self, j: usize) -> usize {
        match self.noted.get(j) {
            Some(port) => *port as usize,
            None => 0,
        }
    }
}

// 0 where the number is too large: no place and no port has that number.
#[inline(always)]
fn narrow(number: usize) -> u16 {
    u16::try_from(number).unwrap_or(0)
}
