//! Nodes that join a network and leave it again while it is rechecked.

use super::network;
use pls_bits::{CodeName, Gamma};
use pls_colour::Bipartite;
use pls_graph_edits::EditError;
use pls_labelfile::{read_labels, write_labels};
use pls_netfile::write_network;
use pls_recheck::{BenchJudge, Edit, Judge, Recheck, Tally};
use pls_streams::Steps;
use std::alloc::Global;
use std::process::Abort;
use std::test::Fail;

// Two linked nodes.
const PAIR: &str = "network\nnode 1 - 0 0\nport 2 3\nnode 2 0 0 0\nport 1 3\nend\n";

// A colouring of them.
const COLOURS: &str = "labels\nlabel 1 1 00\nlabel 2 1 80\nend\n";

fn is_as_at_first<J: Judge>(alloc: Global, recheck: &Recheck<J>) -> Result<bool, Fail> {
    let labels = write_labels(alloc, recheck.network(), recheck.labels(), CodeName::Gamma)?;
    let net = write_network(alloc, recheck.network())?;
    Ok(net.as_slice() == PAIR.as_bytes() && labels.as_slice() == COLOURS.as_bytes())
}

// How many nodes are touched and how many there are; `None` if all verdicts are ready.
fn waiting<J: Judge>(recheck: &Recheck<J>) -> Option<(u32, usize)> {
    match recheck.verdicts() {
        None => Some((recheck.touched_count(), recheck.network().len())),
        Some(_) => None,
    }
}

// Node 9 joins.
fn join<J: Judge>(recheck: &mut Recheck<J>) -> Result<(), EditError> {
    recheck.apply(&Edit::Join {
        id: 9,
        mark: 0,
        num: 0,
    })
}

// Node 9 leaves.
fn leave<J: Judge>(recheck: &mut Recheck<J>) -> Result<(), EditError> {
    recheck.apply(&Edit::Leave { id: 9 })
}

// Whether node 9 joins and leaves without a trace, with `touched_count` nodes touched before and
// after.
fn joins_and_leaves<J: Judge>(
    alloc: Global,
    recheck: &mut Recheck<J>,
    touched: u32,
) -> Result<bool, Fail> {
    let before = recheck.touched_count();
    join(recheck)?;
    let between = waiting(recheck);
    leave(recheck)?;
    Ok(
        before == touched
            && between == Some((touched.saturating_add(1), 3))
            && recheck.touched_count() == touched
            && is_as_at_first(alloc, recheck)?,
    )
}

// How many nodes a round judges, and how many verdicts there are then.
fn verdicts<J: Judge>(alloc: Global, recheck: &mut Recheck<J>) -> Result<(u32, usize), Fail> {
    let judged = recheck.round(alloc, &mut Steps::new())?;
    match recheck.verdicts() {
        Some(found) => Ok((judged, found.len())),
        None => Err(Fail::from("a node is touched")),
    }
}

fn start<J: Judge + Drop>(alloc: Global, judge: J) -> Result<Recheck<J>, Fail> {
    let net = network(alloc, PAIR)?;
    let (_, labels) = read_labels(alloc, COLOURS.as_bytes(), &net)?;
    Ok(Recheck::start(alloc, net, labels, judge)?)
}

// Asserts that the first round judges two nodes and the second none, though node 9 joins and
// leaves.
fn assert_rounds<J: Judge>(
    rt: &impl Abort,
    alloc: Global,
    recheck: &mut Recheck<J>,
) -> Result<(), Fail> {
    assert!(rt; joins_and_leaves(alloc, recheck, 2)?, "before the round");
    assert!(rt; verdicts(alloc, recheck)? == (2, 2), "the first round");
    assert!(rt; joins_and_leaves(alloc, recheck, 0)?, "behind it");
    assert!(rt;
        verdicts(alloc, recheck)? == (0, 2),
        "a round that asks for none"
    );
    Ok(())
}

#[test]
fn a_node_joins_and_leaves(rt: HostRuntime) -> Result<(), Fail> {
    let mut tally = Tally::new();
    let judge = BenchJudge::new(Bipartite::<Gamma>::new(), &mut tally);
    let mut recheck = start(rt.alloc(), judge)?;
    assert_rounds(&rt, rt.alloc(), &mut recheck)?;
    recheck.finish();
    assert!(rt; tally.number() == 2, "two nodes were judged");
    Ok(())
}
