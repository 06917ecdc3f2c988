//! An example program over the library: a protocol keeps a tree and at each node a label of its own
//! making, and the nodes check them, with no text formats. It tells the verdict of each node; where
//! none rejects, the pointers are a spanning tree, which [`watch::is_a_tree`] is proved to say.
#![tactic(auto)]

mod nodes;
mod watch;

use crate::nodes::{Node, labels_of, network_of};
use crate::watch::{is_a_tree, verdict_at};
use pls_streams::NoMemory;
use std::io;
use std::process::ExitCode;

// Five routers in a row, each of which points at the one before it. The last one was moved: it
// takes itself to be nearer to the root than it is.
const ROUTERS: [Node; 5] = [
    Node {
        up: false,
        root: 1,
        depth: 0,
    },
    Node {
        up: true,
        root: 1,
        depth: 1,
    },
    Node {
        up: true,
        root: 1,
        depth: 2,
    },
    Node {
        up: true,
        root: 1,
        depth: 3,
    },
    Node {
        up: true,
        root: 1,
        depth: 3,
    },
];

fn main(rt: HostRuntime) -> ExitCode {
    report(&rt).unwrap_or(ExitCode::FAILURE)
}

fn report(rt: &HostRuntime) -> io::Result<ExitCode> {
    let alloc = rt.alloc();
    let net = match network_of(alloc, &ROUTERS) {
        Ok(Some(net)) => net,
        Ok(None) => return fail(rt, "this is no network"),
        Err(NoMemory) => return fail(rt, "out of memory"),
    };
    let Ok(labels) = labels_of(alloc, &ROUTERS) else {
        return fail(rt, "out of memory");
    };
    for i in 0..ROUTERS.len() {
        let Ok(verdict) = verdict_at(alloc, &net, &labels, i) else {
            return fail(rt, "out of memory");
        };
        println!(rt; "node {} {verdict}", i + 1)?;
    }
    match is_a_tree(alloc, &net, &labels) {
        Ok(true) => println!(rt; "the pointers are a spanning tree")?,
        Ok(false) => println!(rt; "nothing is known of the pointers")?,
        Err(NoMemory) => return fail(rt, "out of memory"),
    }
    Ok(ExitCode::SUCCESS)
}

fn fail(rt: &HostRuntime, why: &str) -> io::Result<ExitCode> {
    println!(rt; "{why}")?;
    Ok(ExitCode::FAILURE)
}
