//! The answer to `splice`.

ghost use Rattle.std.specs.Prelude.{◌≡◌, IfOk, length};
ghost use Rattle.pls_splice.specs.Crossing.{IsPair};
ghost use Rattle.pls_splice.specs.Ring.{IsRingOrder};
ghost use Rattle.pls_app.specs.Splice.{crossed_answer, first_rejecting, uncrossed_answer};
ghost use Rattle.pls_app.specs.inner.Tasks.{DoesSplice, IsWorked};

use crate::answer::{Answer, Content, refuse_at};
use crate::verify::decide;
use pls_bits::CodeName;
use pls_facts::is_valid;
use pls_graph::Network;
use pls_labels::LabelStore;
use pls_netfile::write_network;
use pls_report::rejects;
use pls_scheme::Checker;
use pls_sim::Outcome;
use pls_splice::{Pair, Ring, RingError, cross, find_pair};
use pls_streams::refusal_number::{NO_RING, REJECTS};
use pls_streams::{NoMemory, Status};
use std::alloc::Global;

// Crosses the first two edges that may be; refuses what is no ring, and the first node that
// rejects.
pub(crate) fn splice<V: Checker>(
    alloc: Global,
    checker: &V,
    code: CodeName,
    net: Network,
    labels: LabelStore,
) -> Result<Answer, NoMemory>
    requires each { length labels ≡ length net }
    ensures does { IfOk result (DoesSplice (V.judge checker.now) code net labels) }
    ensures worked { IfOk result (λ answer. IsWorked answer.status) }
{
    is_valid(&net);
    match Ring::read(alloc, &net) {
        Ok(ring) => splice_ring(alloc, checker, &ring, code, net, labels),
        Err(RingError::NotRing(id)) => refuse_at(alloc, NO_RING, id as u64),
        Err(RingError::NoMemory) => Err(NoMemory),
    }
}

fn splice_ring<V: Checker>(
    alloc: Global,
    checker: &V,
    ring: &Ring,
    code: CodeName,
    net: Network,
    labels: LabelStore,
) -> Result<Answer, NoMemory>
    requires read { IsRingOrder net ring.now }
    requires each { length labels ≡ length net }
    ensures does { IfOk result (DoesSplice (V.judge checker.now) code net labels) }
    ensures worked { IfOk result (λ answer. IsWorked answer.status) }
{
    is_valid(&net);
    let rows = decide(alloc, checker, &net, &labels)?;
    if let Some(id) = first_rejecting(&rows) {
        return refuse_at(alloc, REJECTS, id as u64);
    }
    match find_pair(alloc, ring, &net, &labels)? {
        Some(pair) => crossed_answer(alloc, ring, pair, code, net, labels),
        None => Ok(uncrossed_answer()),
    }
}

fn first_rejecting(rows: &[(u32, Outcome)]) -> Option<u32>
    ensures { result ≡ first_rejecting rows.now }
{
    rows.iter().find(|row| rejects(&row.1)).map(|row| row.0)
}

fn crossed_answer(
    alloc: Global,
    ring: &Ring,
    pair: Pair,
    code: CodeName,
    net: Network,
    labels: LabelStore,
) -> Result<Answer, NoMemory>
    requires read { IsRingOrder net ring.now }
    requires each { length labels ≡ length net }
    requires pair { IsPair net labels ring.now pair.first pair.second }
    ensures says { IfOk result
        (λ answer. answer ≡ crossed_answer code net labels ring.now pair.first pair.second) }
    ensures worked { IfOk result (λ answer. IsWorked answer.status) }
{
    let made = cross(alloc, ring, &net, &labels, pair)?;
    let network_text = write_network(alloc, &made)?;
    Ok(Answer {
        status: Status::Done,
        content: Content::Configuration {
            network_text,
            code,
            net,
            labels,
        },
    })
}

fn uncrossed_answer() -> Answer
    ensures says { result ≡ uncrossed_answer }
    ensures worked { IsWorked result.status }
{
    Answer {
        status: Status::No,
        content: Content::Known(b"none\n"),
    }
}
