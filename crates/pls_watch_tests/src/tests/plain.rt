//! Random events on all small networks, against a plain program.

use super::{NodeLook, labels, look, network};
use pls_bits::{BitBuf, Gamma};
use pls_colour::Bipartite;
use pls_graph::Network;
use pls_scheme::Checker;
use pls_sim::EventError;
use pls_streams::Steps;
use pls_watch::{Lookout, Watch};
use pls_watch_part::{BoxedLabel, WatchEvent};
use std::alloc::{AllocError, Global};
use std::test::Fail;

// The bit of an edge in a set, by its ends.
fn pair(a: u32, b: u32) -> u32 {
    match (a.min(b), a.max(b)) {
        (0, 1) => 0,
        (0, 2) => 1,
        (1, 2) => 2,
        (0, 3) => 3,
        (1, 3) => 4,
        _ => 5,
    }
}

fn joins(edges: u32, a: u32, b: u32) -> bool {
    a != b && edges.wrapping_shr(pair(a, b)) & 1 == 1
}

// 0 where the list has no such place.
fn at(list: &[u32], place: u32) -> u32 {
    match list.get(place as usize) {
        Some(value) => *value,
        None => 0,
    }
}

// Does nothing where the list has no such place.
fn put(list: &mut [u32], place: u32, value: u32) {
    if let Some(slot) = list.get_mut(place as usize) {
        *slot = value;
    }
}

// A plain program: for each node its version and colour, for each emit its ends, version and
// colour, and for two nodes what the first holds of the second, as its version and 1 more, with its
// colour.
#[derive(Drop)]
struct Plain {
    nodes: u32,
    edges: u32,
    versions: [u32; 4],
    colours: [u32; 4],
    emits: Vec<[u32; 4]>,
    held: [u32; 16],
    held_colours: [u32; 16],
}

// An event, by a number for what it is and two more: 0 an emit of a node through a port, 1 the
// arrival of an emit, 2 a restart of a node, 3 a new colour of a node. Nodes count from 0.
type EventCode = (u32, u32, u32);

impl Plain {
    fn of(alloc: Global, nodes: u32, edges: u32) -> Plain {
        Plain {
            nodes,
            edges,
            versions: [0; 4],
            colours: [0; 4],
            emits: Vec::new(alloc),
            held: [0; 16],
            held_colours: [0; 16],
        }
    }

    // Ports are in the order of the neighbours; `None` where there is no such port.
    fn beside(&self, node: u32, port: u32) -> Option<u32> {
        let mut left = port;
        for other in 0..self.nodes.min(4) {
            if joins(self.edges, node, other) {
                if left == 0 {
                    return Some(other);
                }
                left = left.saturating_sub(1);
            }
        }
        None
    }

    // `Some` says why the event is refused.
    fn take(&mut self, event: EventCode) -> Result<Option<EventError>, AllocError> {
        let (kind, one, two) = event;
        if kind != 1 && one >= self.nodes {
            return Ok(Some(EventError::NoNode));
        }
        match kind {
            0 => self.emit(one, two),
            1 => Ok(self.arrive(one)),
            2 => {
                for other in 0..4 {
                    put(&mut self.held, one.wrapping_mul(4).wrapping_add(other), 0);
                }
                Ok(None)
            }
            _ => {
                let version = at(&self.versions, one).wrapping_add(1);
                put(&mut self.versions, one, version);
                put(&mut self.colours, one, two);
                Ok(None)
            }
        }
    }

    fn emit(&mut self, node: u32, port: u32) -> Result<Option<EventError>, AllocError> {
        let Some(other) = self.beside(node, port) else {
            return Ok(Some(EventError::NoPort));
        };
        let (version, colour) = (at(&self.versions, node), at(&self.colours, node));
        self.emits.push([node, other, version, colour])?;
        Ok(None)
    }

    fn arrive(&mut self, number: u32) -> Option<EventError> {
        if number == 0 {
            return Some(EventError::NoEmit);
        }
        let Some([from, to, version, colour]) = self.emits.get(number as usize - 1) else {
            return Some(EventError::NoEmit);
        };
        let place = to.wrapping_mul(4).wrapping_add(*from);
        if at(&self.held, place) <= *version {
            put(&mut self.held, place, version.wrapping_add(1));
            put(&mut self.held_colours, place, *colour);
        }
        None
    }

    fn shown_at(&self, node: u32) -> NodeLook {
        let (mut kind, mut waits, mut stale, mut port) = (0, 0_u32, 0_u32, 0_u32);
        for other in 0..self.nodes.min(4) {
            if !joins(self.edges, node, other) {
                continue;
            }
            let place = node.wrapping_mul(4).wrapping_add(other);
            let bit = 1_u32.wrapping_shl(port);
            let held = at(&self.held, place);
            if held == 0 {
                waits |= bit;
            } else if held != at(&self.versions, other).wrapping_add(1) {
                stale |= bit;
            }
            if at(&self.held_colours, place) == at(&self.colours, node) {
                kind = 1;
            }
            port = port.wrapping_add(1);
        }
        if waits != 0 {
            kind = 2;
        }
        (node.wrapping_add(1), kind, waits, stale)
    }
}

// The texts of a network and of labels of one colour.
fn texts(alloc: Global, nodes: u32, edges: u32) -> Result<(String, String), AllocError> {
    let mut text = String::from_str(alloc, "network\n")?;
    let mut colours = String::from_str(alloc, "labels\n")?;
    for node in 0..nodes.min(4) {
        text.push_str(format!(in alloc; "node {} - 0 0\n", node + 1)?.as_str())?;
        colours.push_str(format!(in alloc; "label {} 1 00\n", node + 1)?.as_str())?;
        for other in 0..nodes.min(4) {
            if joins(edges, node, other) {
                text.push_str(format!(in alloc; "port {} 1\n", other + 1)?.as_str())?;
            }
        }
    }
    text.push_str("end\n")?;
    colours.push_str("end\n")?;
    Ok((text, colours))
}

// One xorshift step, so that the events look random.
fn next(number: u32) -> u32 {
    let first = number ^ number.wrapping_shl(13);
    let second = first ^ first.wrapping_shr(17);
    second ^ second.wrapping_shl(5)
}

// May name a node, port or emit that does not exist; `emits` were taken before.
fn event_code(number: u32, emits: u32) -> EventCode {
    let (one, two) = (number.wrapping_shr(8) & 255, number.wrapping_shr(16) & 255);
    match number & 7 {
        0..=2 => (0, one % 5, two % 4),
        3 | 4 => (1, one % (emits.min(250) + 2), 0),
        5 => (2, one % 5, 0),
        _ => (3, one % 5, two & 1),
    }
}

fn event_of(alloc: Global, event: EventCode) -> Result<WatchEvent, Fail> {
    let (kind, one, two) = event;
    let node = one.wrapping_add(1);
    Ok(match kind {
        0 => WatchEvent::Emit { node, port: two },
        1 => WatchEvent::Arrive(one),
        2 => WatchEvent::Restart(node),
        _ => {
            let mut bits = BitBuf::new(alloc);
            bits.push(two == 1)?;
            let bits = BoxedLabel::new(alloc, bits)?;
            WatchEvent::Relabel { node, bits }
        }
    })
}

fn plain_look(alloc: Global, plain: &Plain) -> Result<Vec<NodeLook>, Fail> {
    let mut shown = Vec::new(alloc);
    for node in 0..plain.nodes.min(4) {
        shown.push(plain.shown_at(node))?;
    }
    Ok(shown)
}

// How many of the random events from `seed` on are taken.
fn count_of_events<K: Checker>(
    alloc: Global,
    net: &Network,
    checker: &K,
    plain: &mut Plain,
    text: &str,
    seed: u32,
) -> Result<u32, Fail> {
    let colours = labels(alloc, net, text)?;
    let watch = Watch::start(alloc, net, &colours, 60, 60, 60)?;
    let mut lookout = Lookout::over(alloc, watch, checker, &mut Steps::new())?;
    play(alloc, &mut lookout, plain, seed)
}

// Fails where the plain program refuses otherwise, or a look after about each fourth event differs.
fn play<K: Checker>(
    alloc: Global,
    lookout: &mut Lookout<'_, '_, K>,
    plain: &mut Plain,
    seed: u32,
) -> Result<u32, Fail> {
    let (mut number, mut taken) = (seed, 0_u32);
    for _ in 0..60 {
        number = next(number);
        let event = event_code(number, plain.emits.len().min(250) as u32);
        let refused = lookout.step(&event_of(alloc, event)?).err();
        if refused != plain.take(event)? {
            return Err(Fail::from("refused otherwise"));
        }
        if refused.is_none() {
            taken = taken.saturating_add(1);
        }
        if number & 0x3000_0000 == 0 {
            compare(alloc, lookout, plain)?;
        }
    }
    Ok(taken)
}

fn compare<K: Checker>(
    alloc: Global,
    lookout: &mut Lookout<'_, '_, K>,
    plain: &Plain,
) -> Result<(), Fail> {
    let shown = look(alloc, lookout)?;
    let due = plain_look(alloc, plain)?;
    if shown.as_slice() != due.as_slice() {
        return Err(Fail::from("shown otherwise"));
    }
    Ok(())
}

// So many nodes have so many sets of edges.
const SETS: &[(u32, u32)] = &[(1, 1), (2, 2), (3, 8), (4, 64)];

#[test]
fn random_events_on_all_small_networks(rt: HostRuntime) -> Result<(), Fail> {
    let checker = Bipartite::<Gamma>::new();
    let mut all = 0_u32;
    for (nodes, sets) in SETS {
        for edges in 0..*sets {
            let (text, colours) = texts(rt.alloc(), *nodes, edges)?;
            let net = network(rt.alloc(), text.as_str())?;
            for seed in 1..9 {
                let mut plain = Plain::of(rt.alloc(), *nodes, edges);
                let events = count_of_events(
                    rt.alloc(),
                    &net,
                    &checker,
                    &mut plain,
                    colours.as_str(),
                    seed,
                )?;
                all = all.saturating_add(events);
            }
        }
    }
    assert!(rt; all > 10_000, "only {all} events were taken");
    Ok(())
}
