//! Which networks are rings, and in what order their nodes come.

use super::{network, plain_ring};
use pls_graph::Network;
use pls_splice::{Ring, RingError};
use std::alloc::Global;
use std::test::Fail;

// The node that shows that it is no ring, or 0 where it is one.
fn not_ring(alloc: Global, text: &str) -> Result<u32, Fail> {
    match Ring::read(alloc, &network(alloc, text)?) {
        Ok(_) => Ok(0),
        Err(RingError::NotRing(id)) => Ok(id),
        Err(RingError::NoMemory) => Err(Fail::from("no memory")),
    }
}

#[test]
fn the_first_node_without_two_ports_is_named(rt: HostRuntime) -> Result<(), Fail> {
    let cases = [
        ("node 4 - 0 0\nend\n", 4),
        ("node 1 - 0 0\nport 2 1\nnode 2 - 0 0\nport 1 1\nend\n", 1),
        (
            "node 2 - 0 0\nport 3 1\nport 5 1\nnode 3 - 0 0\nport 2 1\nport 5 1\nport 7 1\n\
             node 5 - 0 0\nport 2 1\nport 3 1\nnode 7 - 0 0\nport 3 1\nend\n",
            3,
        ),
        (
            "node 2 - 0 0\nport 3 1\nport 5 1\nnode 3 - 0 0\nport 2 1\nport 5 1\n\
             node 5 - 0 0\nport 2 1\nport 3 1\nnode 9 - 0 0\nend\n",
            9,
        ),
        (
            "node 2 - 0 0\nport 3 1\nport 5 1\nnode 3 - 0 0\nport 2 1\nport 5 1\n\
             node 5 - 0 0\nport 2 1\nport 3 1\nend\n",
            0,
        ),
    ];
    for (rows, due) in &cases {
        let text = format!(in rt.alloc(); "network\n{rows}")?;
        let found = not_ring(rt.alloc(), text.as_str())?;
        assert!(rt; found == *due, "{rows} shows {found}");
    }
    Ok(())
}

#[test]
fn two_triangles_are_no_ring(rt: HostRuntime) -> Result<(), Fail> {
    let text = "network\nnode 1 - 0 0\nport 4 1\nport 6 1\nnode 2 - 0 0\nport 3 1\nport 5 1\n\
                node 3 - 0 0\nport 2 1\nport 5 1\nnode 4 - 0 0\nport 1 1\nport 6 1\n\
                node 5 - 0 0\nport 2 1\nport 3 1\nnode 6 - 0 0\nport 1 1\nport 4 1\nend\n";
    assert!(rt; not_ring(rt.alloc(), text)? == 2, "no walk joins 2 to 1");
    Ok(())
}

fn has_order(alloc: Global, net: &Network, order: &[u32]) -> Result<bool, Fail> {
    match Ring::read(alloc, net) {
        Ok(ring) => Ok(ring.order() == order),
        Err(_) => Err(Fail::from("no ring")),
    }
}

#[test]
fn the_order_goes_on_through_port_0(rt: HostRuntime) -> Result<(), Fail> {
    let eight = has_order(
        rt.alloc(),
        &plain_ring(rt.alloc(), 8)?,
        &[0, 1, 2, 3, 4, 5, 6, 7],
    )?;
    assert!(rt; eight, "from 1 to 2");
    let text = "network\nnode 2 - 0 0\nport 9 1\nport 5 1\nnode 5 - 0 0\nport 2 1\nport 7 1\n\
                node 7 - 0 0\nport 9 1\nport 5 1\nnode 9 - 0 0\nport 7 1\nport 2 1\nend\n";
    let four = has_order(rt.alloc(), &network(rt.alloc(), text)?, &[0, 3, 2, 1])?;
    assert!(rt; four, "from 2 to 9, 7 and 5");
    Ok(())
}
