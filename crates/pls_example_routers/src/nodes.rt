//! Nodes as the protocol has them, and what the library makes of them.

ghost use Rattle.std.specs.Prelude.{◌≡◌, ◌≤◌, length, IfOk, IfSome};
ghost use Rattle.pls_configuration.specs.Walk.{IsConnected};
ghost use Rattle.pls_example_routers.specs.SmallRow.{IsSmallRow};

use pls_bits::Gamma;
use pls_graph::{BuildError, Network, NodePorts, NodeRow, Port, State, node_apart};
use pls_labels::LabelStore;
use pls_pointer::{Tree, TreeLabel};
use pls_scheme::Scheme;
use pls_streams::NoMemory;
use std::alloc::Global;

/// A node in a row of nodes, as the protocol keeps it.
#[derive(Clone, Copy, Debug, PartialEq, Eq)]
pub(crate) struct Node {
    /// Whether it points at the node before it.
    pub(crate) up: bool,
    /// The root that it names.
    pub(crate) root: u32,
    /// How far from the root it takes itself to be.
    pub(crate) depth: u32,
}

/// The network of some nodes in a row, numbered from 1; `None` where it is none, or not connected.
pub(crate) fn network_of(alloc: Global, nodes: &[Node]) -> Result<Option<Network>, NoMemory>
    requires some { 1 ≤ length nodes.now }
    requires few { length nodes.now ≤ 100 }
    ensures connected { IfOk result (λ net. IfSome net IsConnected) }
    ensures each { IfOk result (λ net. IfSome net (λ net. length net ≡ length nodes.now)) }
{
    let mut rows = Vec::with_capacity(alloc, nodes.len())?;
    for (i, node) in nodes.iter().enumerate() {
        rows.push(row_of(alloc, *node, i as u32 + 1, nodes.len() as u32)?)?;
    }
    let net = match Network::build(alloc, rows) {
        Ok(net) => net,
        Err(BuildError::NoMemory) => return Err(NoMemory),
        Err(_) => return Ok(None),
    };
    if node_apart(alloc, &net)?.is_some() {
        return Ok(None);
    }
    Ok(Some(net))
}

// The port to the previous node comes first, then that to the next.
fn row_of(alloc: Global, node: Node, id: u32, last: u32) -> Result<NodeRow, NoMemory>
    requires one { 1 ≤ id }
    requires within { id ≤ last }
    requires few { last ≤ 100 }
    ensures { IfOk result IsSmallRow }
{
    let mut ports = Vec::with_capacity(alloc, 2)?;
    if id > 1 {
        ports.push(Port {
            nbr: id - 1,
            weight: 1,
        })?;
    }
    if id < last {
        ports.push(Port {
            nbr: id + 1,
            weight: 1,
        })?;
    }
    let up = if node.up { Some(0) } else { None };
    Ok(NodeRow {
        id,
        state: State {
            up,
            mark: 0,
            num: 0,
        },
        ports: NodePorts::from_vec(ports),
    })
}

/// The labels that the nodes state, for the scheme `tree`.
pub(crate) fn labels_of(alloc: Global, nodes: &[Node]) -> Result<LabelStore, NoMemory>
    ensures { IfOk result (λ labels. length labels ≡ length nodes.now) }
{
    let mut labels = LabelStore::blank(alloc, nodes.len())?;
    for (i, node) in nodes.iter().enumerate() {
        let label = TreeLabel {
            root: node.root as u64,
            depth: node.depth as u64,
        };
        labels.replace(i, &Tree::<Gamma>::new().write_label(alloc, &label)?)?;
    }
    Ok(labels)
}
