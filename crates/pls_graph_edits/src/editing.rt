//! The edits of a network. One that is refused changes nothing.

ghost use Rattle.std.specs.Prelude.{◌≡◌, ◌≤◌, ◌==◌, position, slice_get, None, Some, IfOk, IfErr, OnOk, OnErr};
ghost use Rattle.pls_configuration.specs.declared.row.NodeRow.{NodeRow};
ghost use Rattle.pls_configuration.specs.declared.limits.TheConstants.{MAX_NUM};
ghost use Rattle.pls_configuration.specs.Configuration.{IsNetwork};
ghost use Rattle.pls_graph_edits.specs.inner.Ends.{AreEnds};
ghost use Rattle.pls_graph_edits.specs.Edits.{with_state, state_refusal, fits_state, linked, link_refusal, without_node, leave_refusal, joined, join_refusal, unlinked, edge_refusal, with_weight, SaysEdit};

use crate::edit_error::EditError;
use crate::gap_seeking::gap_for;
use crate::hinting::{close, open};
use crate::shaping;
use pls_configuration::{MAX_NODES, MAX_PORTS, Port, State};
use pls_graph::Network;

/// Gives a node the state. It takes no memory. The error is the first that holds: `Absent`, no
/// node has the identity; `Pointer`, the state points at a port that the node does not have.
pub fn set_state(net: &mut Network, id: u32, state: State) -> Result<(), EditError>
    requires { state.num ≤ MAX_NUM }
    ensures ok { OnOk result (net.new ≡ with_state net.old id state) }
    ensures allowed { OnOk result (state_refusal net.old id state ≡ None) }
    ensures refused { IfErr result (λ error. state_refusal net.old id state ≡ Some error) }
    ensures unchanged { OnErr result (net.new ≡ net.old) }
    ensures was_valid { IsNetwork net.old }
{
    let Some(i) = net.place_of(id) else {
        return Err(EditError::Absent);
    };
    if !fits_state(state, net.ports(i)) {
        return Err(EditError::Pointer);
    }
    shaping::set_state(&mut net.table, i, state);
    Ok(())
}

/// Gives both ports of the edge between two nodes the weight. It takes no memory. `Absent`: one
/// is no node, or they are not linked.
pub fn set_weight(net: &mut Network, a: u32, b: u32, weight: u32) -> Result<(), EditError>
    ensures ok { OnOk result (net.new ≡ with_weight net.old a b weight) }
    ensures allowed { OnOk result (edge_refusal net.old a b ≡ None) }
    ensures refused { IfErr result (λ error. edge_refusal net.old a b ≡ Some error) }
    ensures unchanged { OnErr result (net.new ≡ net.old) }
    ensures was_valid { IsNetwork net.old }
{
    let at = edge_at(net, a, b)?;
    shaping::set_weight(&mut net.table, at.i, at.p, weight);
    shaping::set_weight(&mut net.table, at.j, at.q, weight);
    Ok(())
}

/// Puts an edge of this weight between two nodes, by a new last port at both. It costs about
/// their degrees. The error is the first that holds: `Absent`, one is no node; `SelfLink`, they
/// are one node; `Present`, they are linked; `Full`, there is no room for two ports; or
/// `NoMemory`.
pub fn link(net: &mut Network, a: u32, b: u32, weight: u32) -> Result<(), EditError>
    ensures ok { OnOk result (net.new ≡ linked net.old a b weight) }
    ensures allowed { OnOk result (link_refusal net.old a b ≡ None) }
    ensures refused { IfErr result (λ error. SaysEdit (link_refusal net.old a b) error) }
    ensures unchanged { OnErr result (net.new ≡ net.old) }
    ensures was_valid { IsNetwork net.old }
{
    let (i, j) = ends_to_link(net, a, b)?;
    let more = net.ports(i).len().saturating_add(net.ports(j).len());
    shaping::make_room(&mut net.table, net.alloc, net.ports, more.saturating_add(2))?;
    net.table.add_port(i, Port { nbr: b, weight }, j as u32)?;
    let back = Port { nbr: a, weight };
    if net.table.add_port(j, back, i as u32).is_err() {
        shaping::drop_port(&mut net.table, i);
        return Err(EditError::NoMemory);
    }
    net.ports += 2;
    Ok(())
}

/// Takes the edge between two nodes away. It takes no memory, and costs about their degrees.
/// `Absent`: one is no node, or they are not linked.
pub fn unlink(net: &mut Network, a: u32, b: u32) -> Result<(), EditError>
    ensures ok { OnOk result (net.new ≡ unlinked net.old a b) }
    ensures allowed { OnOk result (edge_refusal net.old a b ≡ None) }
    ensures refused { IfErr result (λ error. edge_refusal net.old a b ≡ Some error) }
    ensures unchanged { OnErr result (net.new ≡ net.old) }
    ensures was_valid { IsNetwork net.old }
{
    let at = edge_at(net, a, b)?;
    shaping::remove_port(&mut net.table, at.i, at.p);
    shaping::remove_port(&mut net.table, at.j, at.q);
    net.ports -= 2;
    Ok(())
}

/// Puts a node without ports and pointer in, in the order of identities. It costs about as much
/// as there are nodes and ports, since the places behind it change. The error is the first that
/// holds: `Present`, a node has the identity; `Full`, there is no room for a node; or
/// `NoMemory`.
pub fn join(net: &mut Network, id: u32, mark: u32, num: u64) -> Result<(), EditError>
    requires { num ≤ MAX_NUM }
    ensures ok { OnOk result (net.new ≡ joined net.old id mark num) }
    ensures allowed { OnOk result (join_refusal net.old id ≡ None) }
    ensures refused { IfErr result (λ error. SaysEdit (join_refusal net.old id) error) }
    ensures unchanged { OnErr result (net.new ≡ net.old) }
    ensures was_valid { IsNetwork net.old }
    ensures valid { OnOk result (IsNetwork net.new) }
{
    let Some(i) = gap_for(&net.table, id) else {
        return Err(EditError::Present);
    };
    if MAX_NODES <= net.len() {
        return Err(EditError::Full);
    }
    let state = State {
        up: None,
        mark,
        num,
    };
    let last = i == net.len();
    shaping::insert(&mut net.table, i, id, state)?;
    open(&mut net.hints, id, i, last);
    Ok(())
}

/// Takes a node without ports away. It takes no memory, and costs about as much as there are
/// nodes and ports, since the places behind it change. The error is the first that holds:
/// `Absent`, no node has the identity; `HasPorts`, the node has a port; `Last`, it is the only
/// node.
pub fn leave(net: &mut Network, id: u32) -> Result<(), EditError>
    ensures ok { OnOk result (net.new ≡ without_node net.old id) }
    ensures allowed { OnOk result (leave_refusal net.old id ≡ None) }
    ensures refused { IfErr result (λ error. leave_refusal net.old id ≡ Some error) }
    ensures unchanged { OnErr result (net.new ≡ net.old) }
    ensures was_valid { IsNetwork net.old }
    ensures valid { OnOk result (IsNetwork net.new) }
{
    let Some(i) = net.place_of(id) else {
        return Err(EditError::Absent);
    };
    if 0 < net.ports(i).len() {
        return Err(EditError::HasPorts);
    }
    if net.len() == 1 {
        return Err(EditError::Last);
    }
    shaping::remove(&mut net.table, i);
    close(&mut net.hints, i);
    Ok(())
}

fn ends_to_link(net: &Network, a: u32, b: u32) -> Result<(usize, usize), EditError>
    ensures first { IfOk result (λ ends. position (λ row. a == row.id) net.now
        ≡ Some ends.0) }
    ensures second { IfOk result (λ ends. position (λ row. b == row.id) net.now
        ≡ Some ends.1) }
    ensures allowed { OnOk result (link_refusal net.now a b ≡ None) }
    ensures refused { IfErr result (λ error. link_refusal net.now a b ≡ Some error) }
    ensures valid { IsNetwork net.now }
{
    let Some(i) = net.place_of(a) else {
        return Err(EditError::Absent);
    };
    let Some(j) = net.place_of(b) else {
        return Err(EditError::Absent);
    };
    if a == b {
        return Err(EditError::SelfLink);
    }
    if port_number(net.ports(i), b).is_some() {
        return Err(EditError::Present);
    }
    if net.ports > MAX_PORTS - 2 {
        return Err(EditError::Full);
    }
    Ok((i, j))
}

fn edge_at(net: &Network, a: u32, b: u32) -> Result<EdgeAt, EditError>
    ensures ends { IfOk result (λ at. AreEnds net.now a b at.i at.j at.p at.q) }
    ensures allowed { OnOk result (edge_refusal net.now a b ≡ None) }
    ensures refused { IfErr result (λ error. edge_refusal net.now a b ≡ Some error) }
    ensures valid { IsNetwork net.now }
{
    let Some(i) = net.place_of(a) else {
        return Err(EditError::Absent);
    };
    let Some(p) = port_number(net.ports(i), b) else {
        return Err(EditError::Absent);
    };
    let j = net.places(i)[p] as usize;
    let Some(q) = port_number(net.ports(j), a) else {
        // Each port has one back.
        return Err(EditError::Absent);
    };
    Ok(EdgeAt { i, j, p, q })
}

// Where the ends of an edge stand, and the numbers of their ports to one another.
#[derive(Clone, Copy)]
struct EdgeAt {
    i: usize,
    j: usize,
    p: usize,
    q: usize,
}

fn port_number(ports: &[Port], nbr: u32) -> Option<usize>
    ensures { result ≡ position (λ port. nbr == port.nbr) ports.now }
{
    ports.iter().position(|port| nbr == port.nbr)
}

// `true` where the state has no pointer.
fn fits_state(state: State, ports: &[Port]) -> bool
    ensures { (row : NodeRow) → row.ports ≡ ports.now → result ≡ fits_state state row }
{
    match state.up {
        Some(up) => (up as usize) < ports.len(),
        None => true,
    }
}
