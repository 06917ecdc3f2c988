//! A network made from a number.

ghost use Rattle.std.specs.Prelude.{◌≡◌, ◌≤◌, ◌+◌, ◌-◌, ◌*◌, ℕ, true, map, fold, Contains, IfOk, OnOk};
ghost use Rattle.std.specs.List.{range_with_len};
ghost use Rattle.pls_configuration.specs.Configuration.{ids_of, ports_in};
ghost use Rattle.pls_configuration.specs.declared.limits.TheConstants.{MAX_NODES, MAX_PORTS};
ghost use Rattle.pls_trial.specs.declared.draws.TheConstants.{MAX_SEED};
ghost use Rattle.pls_configuration.specs.Walk.{IsConnected};
ghost use Rattle.pls_facts.specs.MinimumSpanningTree.{IsMinimumSpanningTree};
ghost use Rattle.pls_trial.specs.Generator.{draw, nodes_alone, other_links, pointing, tree_links, trial_of, with_link};
ghost use Rattle.pls_trial.specs.inner.Building.{AreReady, has_port};

use crate::draws::Draws;
use pls_configuration::{BuildError, State};
use pls_facts::is_valid;
use pls_graph::{Network, NetworkBuilder};
use pls_graph_edits::{EditError, link, set_state};
use pls_streams::NoMemory;
use std::alloc::Global;

/// The network of so many nodes, 1 to `MAX_NODES`, that is made from a seed, 1 to `MAX_SEED`. Its
/// nodes are 1 and so on; node 1 is the root of a tree of pointers whose edges have random weights
/// below 1000, and all other edges, at most as many as there are nodes, weigh 999 or more. Each
/// edge costs about the degrees of its ends. The one error is want of memory.
pub fn trial_network(alloc: Global, nodes: u32, seed: u32) -> Result<Network, NoMemory>
    requires nodes { (1 ≤ nodes) × (nodes ≤ MAX_NODES) }
    requires seed { (1 ≤ seed) × (seed ≤ MAX_SEED) }
    ensures network { IfOk result (λ net. net ≡ trial_of nodes seed) }
    ensures connected { IfOk result (λ net. IsConnected net) }
    ensures lightest { IfOk result (λ net. IsMinimumSpanningTree net) }
{
    let mut net = nodes_alone(alloc, nodes)?;
    let mut draws = Draws::new(seed);
    put_tree(&mut net, &mut draws, nodes)?;
    put_others(&mut net, &mut draws, nodes)?;
    point(&mut net, nodes);
    is_valid(&net);
    Ok(net)
}

// Nodes 1 to `nodes`, without ports.
fn nodes_alone(alloc: Global, nodes: u32) -> Result<Network, NoMemory>
    requires { (1 ≤ nodes) × (nodes ≤ MAX_NODES) }
    ensures { IfOk result (λ net. net ≡ nodes_alone nodes) }
{
    let room = nodes as usize;
    let mut builder = NetworkBuilder::with_capacity(alloc, room, 4 * room)?;
    let state = State {
        up: None,
        mark: 0,
        num: 0,
    };
    for i in 0..nodes {
        builder.node(i + 1, state)?;
    }
    match builder.build(alloc) {
        Ok(net) => Ok(net),
        Err(error) => match error {
            BuildError::NoMemory => Err(NoMemory),
            // Such nodes are a network.
            _ => unreachable!(),
        },
    }
}

// Links each node but the first to one before it.
fn put_tree(net: &mut Network, draws: &mut Draws, nodes: u32) -> Result<(), NoMemory>
    requires nodes { 1 ≤ nodes }
    requires ready { AreReady net.old nodes (2 * (nodes - 1)) }
    ensures put { OnOk result
        (net.new ≡ fold with_link net.old (tree_links (nodes - 1) draws.old)) }
    ensures drawn { OnOk result (draws.new ≡ draw draws.old (2 * (nodes - 1))) }
{
    for i in 0..nodes - 1 {
        let b = draws.draw() % (i + 1) + 1;
        let weight = draws.draw() % 1000;
        put_link(net, i + 2, b, weight)?;
    }
    Ok(())
}

// Draws `nodes` more links, and skips those that exist or join a node to itself.
fn put_others(net: &mut Network, draws: &mut Draws, nodes: u32) -> Result<(), NoMemory>
    requires nodes { 1 ≤ nodes }
    requires ready { AreReady net.old nodes (2 * nodes) }
    ensures put { OnOk result
        (net.new ≡ fold with_link net.old (other_links nodes nodes draws.old)) }
{
    for _ in 0..nodes {
        let a = draws.draw() % nodes + 1;
        let b = draws.draw() % nodes + 1;
        let weight = 999 + draws.draw() % 1000;
        put_link(net, a, b, weight)?;
    }
    Ok(())
}

// Does nothing where the nodes are equal or already linked.
fn put_link(net: &mut Network, a: u32, b: u32, weight: u32) -> Result<(), NoMemory>
    requires a { Contains (ids_of net.old) a }
    requires b { Contains (ids_of net.old) b }
    requires room { ports_in net.old + 2 ≤ MAX_PORTS }
    ensures { OnOk result (net.new
        ≡ with_link net.old (record { a = a; b = b; weight = weight })) }
{
    match link(net, a, b, weight) {
        Ok(()) => Ok(()),
        Err(error) => match error {
            EditError::NoMemory => Err(NoMemory),
            EditError::SelfLink | EditError::Present => Ok(()),
            // Both nodes are there, and there is room.
            _ => unreachable!(),
        },
    }
}

// Each node but the first points at its port 0.
fn point(net: &mut Network, nodes: u32)
    requires nodes { 1 ≤ nodes }
    requires ids { ids_of net.old ≡ range_with_len 1 nodes }
    requires linked { (id : ℕ) → 2 ≤ id → id ≤ nodes → has_port net.old id ≡ true }
    ensures { net.new ≡ map pointing net.old }
{
    let state = State {
        up: Some(0),
        mark: 0,
        num: 0,
    };
    for i in 0..nodes - 1 {
        match set_state(net, i + 2, state) {
            Ok(()) => {}
            Err(_) => unreachable!(),
        }
    }
}
