//! Texts of networks: the first faulty line of each, refusals, and texts that are read.

use super::{line_of, network};
use pls_graph::Network;
use pls_lines::Lines;
use pls_netfile::{read_network, read_written, scan_network, write_network, write_read};
use pls_streams::TextError;
use std::alloc::Global;
use std::process::Abort;
use std::test::Fail;

// A network of two nodes.
const PAIR: &str = "network\nnode 1 - 0 5\nport 20 7\nnode 20 0 3 4611686018427387904\n\
                    port 1 7\nend\n";

// Texts that are no network's, and the first faulty line of each.
const FAULTY: &[(&str, u64)] = &[
    ("", 1),
    ("network", 1),
    ("networks\n", 1),
    ("network \nnode 1 - 0 0\nend\n", 1),
    ("network\r\nnode 1 - 0 0\nend\n", 1),
    ("network\n", 2),
    ("network\nend\n", 2),
    ("network\nport 2 7\nend\n", 2),
    ("network\nnode 1 - 0 0", 2),
    ("network\nnode  1 - 0 0\nend\n", 2),
    ("network\nnode 01 - 0 0\nend\n", 2),
    ("network\nnode 4294967296 - 0 0\nend\n", 2),
    ("network\nnode 1 4294967296 0 0\nend\n", 2),
    ("network\nnode 1 - 4294967296 0\nend\n", 2),
    ("network\nnode 1 - 0 4611686018427387905\nend\n", 2),
    ("network\nnode 1 - 0 0 \nend\n", 2),
    ("network\nnode 1 - 0 0\n", 3),
    ("network\nnode 1 - 0 0\nend", 3),
    ("network\nnode 1 - 0 0\n\nend\n", 3),
    ("network\nnode 1 - 0 0\nport 2 4294967296\nend\n", 3),
    ("network\nnode 1 - 0 0\nport 2\nend\n", 3),
    ("network\nnode 1 - 0 0\nport 2 7\nNode 2 - 0 0\nend\n", 4),
];

#[test]
fn the_first_faulty_line_is_named(rt: HostRuntime) {
    for (text, line) in FAULTY {
        let read = scan_network(&mut Lines::new(text.as_bytes()));
        assert!(rt; line_of(&read) == *line, "line {line} of {text}");
    }
}

#[test]
fn a_part_is_scanned_and_the_rest_left(rt: HostRuntime) -> Result<(), Fail> {
    let text = b"network\nnode 7 - 4294967295 4611686018427387904\nnode 9 1 0 5\nport 7 0\n\
                 port 8 3\nend\nrest";
    let mut lines = Lines::new(text);
    let part = scan_network(&mut lines)?;
    assert!(rt;
        part.nodes() == 2 && part.ports() == 2,
        "two nodes and two ports"
    );
    assert!(rt;
        lines.number() == 7 && lines.rest() == b"rest".as_slice(),
        "the rest from line 7 on"
    );
    Ok(())
}

// Reads a network from `text` and writes it out again.
fn network_text(alloc: Global, text: &str) -> Result<Vec<u8>, Fail> {
    Ok(write_network(alloc, &network(alloc, text)?)?)
}

// As `network_text`, in one call of the library.
fn network_text_at_once(alloc: Global, text: &str) -> Result<Vec<u8>, Fail> {
    Ok(write_read(alloc, text.as_bytes())?)
}

fn read_again(alloc: Global, net: &Network) -> Result<usize, Fail> {
    Ok(read_written(alloc, net)?.len())
}

fn assert_pair(rt: &impl Abort, alloc: Global, net: &Network) -> Result<(), Fail> {
    assert!(rt; net.place_of(20) == Some(1), "the second node");
    assert!(rt; read_again(alloc, net)? == 2, "two nodes");
    Ok(())
}

#[test]
fn what_is_read_is_written_again(rt: HostRuntime) -> Result<(), Fail> {
    let pair = PAIR.as_bytes();
    assert_pair(&rt, rt.alloc(), &network(rt.alloc(), PAIR)?)?;
    assert!(rt;
        network_text(rt.alloc(), PAIR)?.as_slice() == pair,
        "the text"
    );
    assert!(rt;
        network_text_at_once(rt.alloc(), PAIR)?.as_slice() == pair,
        "in one call"
    );
    Ok(())
}

// Texts of what is no network, the number of the refusal, and the place.
const REFUSED: &[(&str, u8, u64)] = &[
    ("node 2 - 0 0\nnode 2 - 0 0\n", 10, 2),
    ("node 2 - 0 0\nport 2 1\n", 11, 2),
    ("node 1 - 0 0\nport 2 1\nport 2 1\nnode 2 - 0 0\n", 12, 1),
    ("node 1 - 0 0\nport 3 1\n", 13, 1),
    ("node 1 - 0 0\nport 2 1\nnode 2 - 0 0\n", 14, 1),
    ("node 1 - 0 0\nport 2 1\nnode 2 - 0 0\nport 1 2\n", 15, 1),
    ("node 1 0 0 0\n", 16, 1),
];

// `None` if the network of these lines, without heading and `end`, is accepted.
fn refusal(alloc: Global, lines: &str) -> Result<Option<TextError>, Fail> {
    let text = format!(in alloc; "network\n{lines}end\n")?;
    Ok(read_network(alloc, text.as_bytes()).err())
}

#[test]
fn each_refusal_has_its_number(rt: HostRuntime) -> Result<(), Fail> {
    for (text, number, place) in REFUSED {
        let (number, place) = (*number, *place);
        let due = Some(TextError::Sense { number, place });
        assert!(rt; refusal(rt.alloc(), text)? == due, "{number} of {text}");
    }
    Ok(())
}
