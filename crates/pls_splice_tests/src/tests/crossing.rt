//! Crossing at worked examples.

use super::plain_crossing;
use pls_graph::Network;
use pls_splice::Pair;
use std::test::Fail;

// Whether the node has just these two neighbours in this order, with weight 1.
fn has_ports(net: &Network, i: usize, first: u32, second: u32) -> bool {
    if i >= net.len() {
        return false;
    }
    let ports = net.ports(i);
    ports.len() == 2
        && ports[0].nbr == first
        && ports[1].nbr == second
        && ports[0].weight == 1
        && ports[1].weight == 1
}

#[test]
fn eight_nodes_in_two_colours_become_four_and_four(rt: HostRuntime) -> Result<(), Fail> {
    let Some((pair, net)) = plain_crossing(rt.alloc(), 8, &[0, 1, 0, 1, 0, 1, 0, 1], 1)? else {
        return Err(Fail::from("no pair"));
    };
    assert!(rt;
        pair == Pair {
            first: 0,
            second: 4
        },
        "edges 0 and 4"
    );
    let due = [
        (6, 8),
        (5, 3),
        (2, 4),
        (3, 5),
        (4, 2),
        (1, 7),
        (6, 8),
        (7, 1),
    ];
    for (i, ports) in due.iter().enumerate() {
        assert!(rt;
            has_ports(&net, i, ports.0, ports.1),
            "the node at place {i}"
        );
    }
    assert!(rt; net.len() == 8, "eight nodes");
    Ok(())
}

#[test]
fn there_may_be_no_pair(rt: HostRuntime) -> Result<(), Fail> {
    let cases = [
        (6, &[0, 1, 0, 1, 0, 1][..], "six nodes in two colours"),
        (8, &[0, 1, 2, 3, 4, 5, 6, 7][..], "eight labels"),
        (
            8,
            &[0, 1, 2, 3, 0, 2, 1, 4][..],
            "tails without their heads",
        ),
        (5, &[0, 0, 0, 0, 0][..], "two nodes at most on a side"),
    ];
    for (count, words, message) in &cases {
        let pair = plain_crossing(rt.alloc(), *count, *words, 3)?;
        assert!(rt; pair.is_none(), "{message}");
    }
    Ok(())
}
