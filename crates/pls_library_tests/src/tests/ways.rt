//! Networks whose ports are numbered through.

use super::network;
use pls_sim::Ways;
use std::process::Abort;
use std::test::Fail;

// A triangle, and a fourth node at one of its corners.
const TRIANGLE: &str = "network\nnode 1 - 0 0\nport 3 1\nport 2 1\n\
                        node 2 - 0 0\nport 1 1\nport 3 1\nport 5 1\n\
                        node 3 - 0 0\nport 2 1\nport 1 1\nnode 5 - 0 0\nport 2 1\nend\n";

// `due` holds, of each port, the number of the port that leads back.
fn assert_back(rt: &impl Abort, ways: &Ways, due: &[u32]) {
    assert!(rt; ways.len() == due.len(), "as many ports");
    for (number, due) in due.iter().enumerate() {
        assert!(rt; ways.back(number) == *due, "back from port {number}");
    }
}

#[test]
fn each_port_has_one_that_leads_back(rt: HostRuntime) -> Result<(), Fail> {
    let net = network(rt.alloc(), TRIANGLE)?;
    let ways = Ways::of(rt.alloc(), &net)?;
    assert_back(&rt, &ways, &[6, 2, 1, 5, 7, 3, 0, 4]);
    assert!(rt; net.len() == 4, "four nodes");
    for (i, due) in [0, 2, 5, 7].iter().enumerate() {
        assert!(rt;
            ways.first(i) == *due,
            "the first port of the node at place {i}"
        );
    }
    Ok(())
}
