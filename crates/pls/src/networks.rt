//! Networks of rows, whatever the rows are.

ghost use Rattle.std.specs.Prelude.{◌≡◌, ◌↔◌, map, nat_le, IfOk, IfErr, IsTrue, OnOk};
ghost use Rattle.std.specs.List.{list_all};
ghost use Rattle.pls_configuration.specs.declared.limits.TheConstants.{MAX_NUM, MAX_PORTS};
ghost use Rattle.pls_configuration.specs.Configuration.{IsNetwork, ports_in};
ghost use Rattle.pls_configuration.specs.Walk.{IsConnected};
ghost use Rattle.pls.specs.Rows.{IsNoNetwork, plain_port, plain_row};
ghost use Rattle.pls.specs.inner.Limits.{is_within_limits};

use pls_configuration::{MAX_NODES, MAX_NUM, MAX_PORTS};
use pls_graph::{BuildError, Network, NodePorts, NodeRow, Port, State, node_apart};
use pls_streams::NoMemory;
use std::alloc::{AllocError, AllocFailed, Global};
use thiserror::Error;

/// Why rows are no network.
#[derive(Clone, Copy, Debug, PartialEq, Eq, Error)]
pub enum NetworkError {
    /// There is no row, or there are more than [`MAX_NODES`], or more than [`MAX_PORTS`] ports of
    /// all of them, or a `num` is above [`MAX_NUM`].
    #[error("the rows are not within the limits of a network")]
    Limits,
    /// They are within the limits, and this is the first refusal that occurs, or there was no
    /// memory.
    #[error("{0}")]
    Refused(BuildError),
}

impl From<NoMemory> for NetworkError {
    fn from(_: NoMemory) -> Self {
        NetworkError::Refused(BuildError::NoMemory)
    }
}

impl From<AllocError> for NetworkError {
    fn from(_: AllocError) -> Self {
        NetworkError::Refused(BuildError::NoMemory)
    }
}

impl<T: Drop> From<AllocFailed<T>> for NetworkError {
    fn from(_: AllocFailed<T>) -> Self {
        NetworkError::Refused(BuildError::NoMemory)
    }
}

/// The network of these rows, in their order, or why they are none.
pub fn network_of(alloc: Global, rows: Vec<NodeRow>) -> Result<Network, NetworkError>
    ensures ok { IfOk result (λ net. net ≡ rows.items) }
    ensures valid { OnOk result (IsNetwork rows.items) }
    ensures refused { IfErr result (λ error. IsNoNetwork rows.items error) }
{
    if !are_within_limits(rows.as_slice()) {
        return Err(NetworkError::Limits);
    }
    match Network::build(alloc, rows) {
        Ok(net) => Ok(net),
        Err(refusal) => Err(NetworkError::Refused(refusal)),
    }
}

fn are_within_limits(rows: &[NodeRow]) -> bool
    ensures { result ≡ is_within_limits rows.now }
{
    !rows.is_empty() && rows.len() <= MAX_NODES && have_few_ports(rows) && have_small_numbers(rows)
}

// The ports of all rows together.
fn have_few_ports(rows: &[NodeRow]) -> bool
    ensures { result ≡ nat_le (ports_in rows.now) MAX_PORTS }
{
    let mut left = MAX_PORTS;
    for row in rows {
        let count = row.ports.as_slice().len();
        if count > left {
            return false;
        }
        left -= count;
    }
    true
}

fn have_small_numbers(rows: &[NodeRow]) -> bool
    ensures { result ≡ list_all (λ row. nat_le row.state.num MAX_NUM) rows.now }
{
    rows.iter().all(|row| row.state.num <= MAX_NUM)
}

/// The row of a node: its identity, the number of the port that it points at, from 0, if it points,
/// and its neighbours, each beyond an edge of weight 1. Its mark and its number are 0. The one
/// error is want of memory.
pub fn plain_row(
    alloc: Global,
    id: u32,
    up: Option<u32>,
    neighbours: &[u32],
) -> Result<NodeRow, NoMemory>
    ensures { IfOk result (λ row. row ≡ plain_row id up neighbours.now) }
{
    let ports = plain_ports(alloc, neighbours)?;
    Ok(NodeRow {
        id,
        state: State {
            up,
            mark: 0,
            num: 0,
        },
        ports: NodePorts::from_vec(ports),
    })
}

// Each port lies at an edge of weight 1.
fn plain_ports(alloc: Global, neighbours: &[u32]) -> Result<Vec<Port>, NoMemory>
    ensures { IfOk result (λ ports. ports.items ≡ map plain_port neighbours.now) }
{
    let ports = neighbours
        .iter()
        .map(|nbr| Port {
            nbr: *nbr,
            weight: 1,
        })
        .collect(alloc)?;
    Ok(ports)
}

/// Whether the edges join all nodes. The one error is want of memory.
pub fn is_connected(alloc: Global, net: &Network) -> Result<bool, NoMemory>
    ensures { IfOk result (λ yes. IsTrue yes ↔ IsConnected net.now) }
{
    match node_apart(alloc, net)? {
        None => Ok(true),
        Some(_) => Ok(false),
    }
}
