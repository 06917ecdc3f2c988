//! The network that a map states.

ghost use Rattle.std.specs.Prelude.{◌≡◌, ◌≤◌, nat_le, true, map, if◌then◌else◌, Some, None, IfOk};
ghost use Rattle.std.specs.List.{list_all};
ghost use Rattle.pls_configuration.specs.declared.limits.TheConstants.{MAX_PORTS};
ghost use Rattle.pls_universal.specs.Rules.{is_joined, is_port_small, is_small, is_within_limits, node_of, nodes_of, port_of, up_of};
ghost use Rattle.pls_universal.specs.inner.Stating.{IsNetworkOf, is_pointer_small, ports_stated};

use crate::map::MapRow;
use pls_configuration::{MAX_NODES, MAX_NUM, MAX_PORTS, MAX_WORD};
use pls_graph::{BuildError, Network, NodePorts, NodeRow, Port, State, node_apart};
use pls_streams::NoMemory;
use std::alloc::Global;

// The connected network that the records state, or `None` where they state none.
pub(crate) fn network_of(alloc: Global, rows: &[MapRow]) -> Result<Option<Network>, NoMemory>
    ensures { IfOk result (IsNetworkOf rows.now) }
{
    if !are_within_limits(rows) {
        return Ok(None);
    }
    if !have_small_pointers(rows) {
        return Ok(None);
    }
    match Network::build(alloc, nodes_of(alloc, rows)?) {
        Ok(net) => if_connected(alloc, net),
        Err(BuildError::NoMemory) => Err(NoMemory),
        Err(_) => Ok(None),
    }
}

fn if_connected(alloc: Global, net: Network) -> Result<Option<Network>, NoMemory>
    ensures { IfOk result (λ found. found ≡ (if is_joined net then Some net else None)) }
{
    match node_apart(alloc, &net)? {
        Some(_) => Ok(None),
        None => Ok(Some(net)),
    }
}

fn are_within_limits(rows: &[MapRow]) -> bool
    ensures { result ≡ is_within_limits rows.now }
{
    !rows.is_empty() && rows.len() <= MAX_NODES && have_few_ports(rows) && are_small(rows)
}

fn have_few_ports(rows: &[MapRow]) -> bool
    ensures { result ≡ nat_le (ports_stated rows.now) MAX_PORTS }
{
    let mut left = MAX_PORTS;
    for row in rows {
        let count = row.ports.as_slice().len();
        if count > left {
            return false;
        }
        left -= count;
    }
    true
}

fn are_small(rows: &[MapRow]) -> bool
    ensures { result ≡ list_all is_small rows.now }
{
    rows.iter().all(|row| is_small(row))
}

fn have_small_pointers(rows: &[MapRow]) -> bool
    ensures { result ≡ list_all is_pointer_small rows.now }
{
    rows.iter().all(|row| row.up <= MAX_PORTS as u64)
}

// The pointer is not checked here.
fn is_small(row: &MapRow) -> bool
    ensures { result ≡ is_small row.now }
{
    row.id <= MAX_WORD
        && row.mark <= MAX_WORD
        && row.num <= MAX_NUM
        && are_ports_small(row.ports.as_slice())
}

fn are_ports_small(ports: &[(u64, u64)]) -> bool
    ensures { result ≡ list_all is_port_small ports.now }
{
    ports
        .iter()
        .all(|port| port.0 <= MAX_WORD && port.1 <= MAX_WORD)
}

fn nodes_of(alloc: Global, rows: &[MapRow]) -> Result<Vec<NodeRow>, NoMemory>
    requires small { list_all is_small rows.now ≡ true }
    requires pointers { list_all is_pointer_small rows.now ≡ true }
    ensures { IfOk result (λ nodes. nodes.items ≡ nodes_of rows.now) }
{
    let mut nodes = Vec::with_capacity(alloc, rows.len())?;
    for row in rows {
        nodes.push(node_of(alloc, row)?)?;
    }
    Ok(nodes)
}

fn node_of(alloc: Global, row: &MapRow) -> Result<NodeRow, NoMemory>
    requires small { is_small row.now ≡ true }
    requires pointer { is_pointer_small row.now ≡ true }
    ensures { IfOk result (λ node. node ≡ node_of row.now) }
{
    let ports = ports_of(alloc, row.ports.as_slice())?;
    let state = State {
        up: up_of(row.up),
        mark: row.mark as u32,
        num: row.num,
    };
    Ok(NodeRow {
        id: row.id as u32,
        state,
        ports,
    })
}

// 0 states no pointer, any other number the port plus one.
fn up_of(up: u64) -> Option<u32>
    requires { up ≤ MAX_PORTS }
    ensures { result ≡ up_of up }
{
    match up {
        0 => None,
        _ => Some((up - 1) as u32),
    }
}

fn ports_of(alloc: Global, ports: &[(u64, u64)]) -> Result<NodePorts, NoMemory>
    requires { list_all is_port_small ports.now ≡ true }
    ensures { IfOk result (λ made. made ≡ map port_of ports.now) }
{
    let mut made = Vec::with_capacity(alloc, ports.len())?;
    for port in ports {
        made.push(Port {
            nbr: port.0 as u32,
            weight: port.1 as u32,
        })?;
    }
    Ok(NodePorts::from_vec(made))
}
