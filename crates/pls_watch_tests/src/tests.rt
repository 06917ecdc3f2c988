//! Tests of labels that change while messages are under way.

mod plain;
mod rows;
mod texts;

ghost use Rattle.std.specs.Prelude.{◌≡◌, IfOk, length};

use pls_configuration::Verdict;
use pls_graph::Network;
use pls_labelfile::read_labels;
use pls_labels::LabelStore;
use pls_netfile::read_network;
use pls_scheme::Checker;
use pls_sim::Outcome;
use pls_streams::{Steps, TextError};
use pls_watch::Lookout;
use std::alloc::Global;
use std::test::Fail;

fn network(alloc: Global, text: &str) -> Result<Network, Fail> {
    match read_network(alloc, text.as_bytes()) {
        Ok(net) => Ok(net),
        Err(_) => Err(Fail::from("no network")),
    }
}

fn labels(alloc: Global, net: &Network, text: &str) -> Result<LabelStore, Fail>
    ensures { IfOk result (λ labels. length labels ≡ length net.now) }
{
    match read_labels(alloc, text.as_bytes(), net) {
        Ok((_, labels)) => Ok(labels),
        Err(_) => Err(Fail::from("no labels")),
    }
}

fn bits_of(ports: &[u32]) -> u32 {
    let mut bits = 0_u32;
    for port in ports {
        bits |= 1_u32.wrapping_shl(*port);
    }
    bits
}

// What a look shows of a node: its identity, 0 where it accepts, 1 where it rejects, and 2 where it
// waits, the ports for which it waits, and its stale ports.
type NodeLook = (u32, u32, u32, u32);

fn look<K: Checker>(
    alloc: Global,
    lookout: &mut Lookout<'_, '_, K>,
) -> Result<Vec<NodeLook>, Fail> {
    lookout.look(alloc, &mut Steps::new())?;
    let mut shown = Vec::new(alloc);
    for row in lookout.rows() {
        let (kind, waits) = match row.outcome() {
            Outcome::Decided(Verdict::Accept) => (0, 0),
            Outcome::Decided(Verdict::Reject { leaf: _, rule: _ }) => (1, 0),
            Outcome::Waiting(ports) => (2, bits_of(ports.as_slice())),
        };
        shown.push((row.id(), kind, waits, bits_of(row.stale())))?;
    }
    Ok(shown)
}

// The line of a form error, 0 for any other result.
fn line_of<T>(read: &Result<T, TextError>) -> u64 {
    match read {
        Err(TextError::Form(line)) => *line,
        _ => 0,
    }
}
