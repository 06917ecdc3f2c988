//! Same weights at small networks.

ghost use Rattle.std.specs.Prelude.{IfOk};
ghost use Rattle.pls_configuration.specs.Walk.{IsConnected};

use pls_bits::{BitBuf, Gamma};
use pls_example_weights::SameWeights;
use pls_graph::{Network, node_apart};
use pls_netfile::read_network;
use pls_scheme::Scheme;
use std::alloc::Global;
use std::test::Fail;

// Networks, and the bits of all labels where they have same weights.
const NETWORKS: &[(&str, &str, Option<u64>)] = &[
    ("alone", "network\nnode 5 - 0 0\nend\n", Some(1)),
    (
        "a pair",
        "network\nnode 1 - 0 0\nport 2 7\nnode 2 - 0 0\nport 1 7\nend\n",
        Some(20),
    ),
    (
        "a ring of two weights",
        "network\nnode 1 - 0 0\nport 2 1\nport 4 5\nnode 2 - 0 0\nport 1 1\nport 3 5\n\
         node 3 - 0 0\nport 4 1\nport 2 5\nnode 4 - 0 0\nport 3 1\nport 1 5\nend\n",
        Some(44),
    ),
    (
        "the same ring with the ports of one node exchanged",
        "network\nnode 1 - 0 0\nport 2 1\nport 4 5\nnode 2 - 0 0\nport 1 1\nport 3 5\n\
         node 3 - 0 0\nport 2 5\nport 4 1\nnode 4 - 0 0\nport 3 1\nport 1 5\nend\n",
        None,
    ),
    (
        "a row of three",
        "network\nnode 1 - 0 0\nport 2 7\nnode 2 - 0 0\nport 1 7\nport 3 7\n\
         node 3 - 0 0\nport 2 7\nend\n",
        None,
    ),
];

// Bits, and how many weights they are, where they are a label.
const LABELS: &[(&str, &str, Option<usize>)] = &[
    ("no weight", "1", Some(0)),
    ("one weight, 7", "0100001000", Some(1)),
    ("four weights, 0", "001011111", Some(4)),
    ("no bit", "", None),
    ("a bit behind the label", "11", None),
    ("a bit that begins no code behind the label", "10", None),
    ("a weight left out", "0111", None),
    ("a weight too many", "01011", None),
    ("five weights", "0011011111", None),
];

// Fails where the network is not connected.
fn connected_network(alloc: Global, text: &str) -> Result<Network, Fail>
    ensures { IfOk result (λ net. IsConnected net) }
{
    let Ok(net) = read_network(alloc, text.as_bytes()) else {
        return Err(Fail::from("refused"));
    };
    if node_apart(alloc, &net)?.is_some() {
        return Err(Fail::from("in parts"));
    }
    Ok(net)
}

// The total length of the labels in bits; `None` where the network is not marked.
fn marked_bits(alloc: Global, text: &str) -> Result<Option<u64>, Fail> {
    let net = connected_network(alloc, text)?;
    let marked = SameWeights::<Gamma>::new().mark(alloc, &net)?;
    Ok(marked.map(|labels| labels.total()))
}

// The number of weights; `None` where `digits` are no label.
fn count_read(alloc: Global, digits: &str) -> Result<Option<usize>, Fail> {
    let mut bits = BitBuf::new(alloc);
    for digit in digits.bytes() {
        bits.push(digit == b'1')?;
    }
    let label = SameWeights::<Gamma>::new().read_label(alloc, bits.bits())?;
    Ok(label.map(|weights| weights.as_slice().len()))
}

#[test]
fn networks_of_same_weights_are_marked(rt: HostRuntime) -> Result<(), Fail> {
    for (name, text, bits) in NETWORKS {
        assert!(rt; marked_bits(rt.alloc(), text)? == *bits, "{}", name);
    }
    Ok(())
}

#[test]
fn labels_are_their_count_and_so_many_weights(rt: HostRuntime) -> Result<(), Fail> {
    for (name, digits, count) in LABELS {
        assert!(rt; count_read(rt.alloc(), digits)? == *count, "{}", name);
    }
    Ok(())
}
