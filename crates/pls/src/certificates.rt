//! Labels as proofs of a property: there are some exactly where a connected network has it.

ghost use Rattle.std.specs.Prelude.{◌≡◌, ◌↔◌, IfOk, IfNone, IfSome, IsTrue};
ghost use Rattle.pls_configuration.specs.Walk.{IsConnected};
ghost use Rattle.pls.specs.Certificate.{IsCertificate};

use crate::networks::is_connected;
use pls_graph::Network;
use pls_labels::LabelStore;
use pls_scheme::{Scheme, certifies};
use pls_streams::{NoMemory, Steps};
use std::alloc::Global;

/// Labels that prove the property of the scheme, or `None` exactly where the network is not
/// connected or lacks it. The one error is want of memory.
pub fn proving_labels<S: Scheme>(
    alloc: Global,
    scheme: &S,
    net: &Network,
) -> Result<Option<LabelStore>, NoMemory>
    ensures none { IfOk result (λ found. IfNone found
        (IsConnected net.now → S.holds scheme.now net.now → ⊥)) }
    ensures some { IfOk result (λ found. IfSome found
        (λ labels. IsCertificate (S.judge scheme.now) net.now labels)) }
    ensures holds { IfOk result (λ found. IfSome found (λ labels. S.holds scheme.now net.now)) }
{
    if !is_connected(alloc, net)? {
        return Ok(None);
    }
    scheme.mark(alloc, net)
}

/// Whether the labels prove the property of the scheme: the network is connected, there is a label
/// for each node, and all nodes accept. Then the network has the property, whoever made the labels.
/// The one error is want of memory.
pub fn labels_prove<S: Scheme>(
    alloc: Global,
    scheme: &S,
    net: &Network,
    labels: &LabelStore,
) -> Result<bool, NoMemory>
    ensures proof { IfOk result
        (λ yes. IsTrue yes ↔ IsCertificate (S.judge scheme.now) net.now labels.now) }
    ensures holds { IfOk result (λ yes. IsTrue yes → S.holds scheme.now net.now) }
{
    if labels.len() != net.len() {
        return Ok(false);
    }
    if !is_connected(alloc, net)? {
        return Ok(false);
    }
    certifies(alloc, scheme, net, labels, &mut Steps::new())
}
