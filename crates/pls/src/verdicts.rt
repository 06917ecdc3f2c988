//! What nodes answer.

ghost use Rattle.std.specs.Prelude.{◌≡◌, ◌<◌, Some, length, slice_get, IfOk};
ghost use Rattle.pls_scheme.specs.Judging.{verdicts_by};

use pls_configuration::Verdict;
use pls_graph::Network;
use pls_labels::{Labels, View};
use pls_scheme::Checker;
use pls_streams::{NoMemory, Steps};
use std::alloc::Global;

/// The verdict of each node on what it sees, in the order of the nodes. The one error is want of
/// memory.
pub fn verdicts_by<K: Checker, L: Labels>(
    alloc: Global,
    checker: &K,
    net: &Network,
    labels: &L,
) -> Result<Vec<Verdict>, NoMemory>
    requires each { length (L.listed labels.now) ≡ length net.now }
    ensures { IfOk result (λ verdicts. verdicts.items
        ≡ verdicts_by (K.judge checker.now) net.now (L.listed labels.now)) }
{
    checker.round(alloc, net, labels, &mut Steps::new())
}

/// The verdict of the node at place `i`, from 0, on what it sees. The one error is want of memory.
pub fn verdict_at<K: Checker, L: Labels>(
    alloc: Global,
    checker: &K,
    net: &Network,
    labels: &L,
    i: usize,
) -> Result<Verdict, NoMemory>
    requires each { length (L.listed labels.now) ≡ length net.now }
    requires place { i < length net.now }
    ensures { IfOk result (λ verdict. slice_get
        (verdicts_by (K.judge checker.now) net.now (L.listed labels.now)) i ≡ Some verdict) }
{
    let view = View::of(alloc, net, labels, i)?;
    checker.verify(alloc, &view, &mut Steps::new())
}
