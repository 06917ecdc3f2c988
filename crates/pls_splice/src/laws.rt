//! Laws without a body: a ring has one order; and where two edges of a ring are crossed, no node
//! sees a difference, the ring has become two rings, and one of them has no leader where the ring
//! had one.

ghost use Rattle.std.specs.Prelude.{◌≡◌, ◌-◌, length};
ghost use Rattle.pls_configuration.specs.declared.verdict.Verdict.{Verdict};
ghost use Rattle.pls_facts.specs.Leader.{HasOneLeader};
ghost use Rattle.pls_labels.specs.Seen.{Seen, views};
ghost use Rattle.pls_scheme.specs.Judging.{verdicts_by};
ghost use Rattle.pls_splice.specs.Crossing.{IsPair, crossed_rows};
ghost use Rattle.pls_splice.specs.Ring.{IsRingOrder};
ghost use Rattle.pls_splice.specs.TwoRings.{AreTwoRings, IsLeaderlessIn};

use crate::finding::Pair;
use crate::ring::Ring;
use pls_facts::is_valid;
use pls_graph::Network;
use pls_labels::LabelStore;

/// A ring has one order, so that both are the same list.
pub fn one_order(net: &Network, ring: &Ring, other: &Ring)
    requires one { IsRingOrder net.now ring.now }
    requires other { IsRingOrder net.now other.now }
    ensures { ring.now ≡ other.now }
{
    is_valid(net);
}

/// Each node's view in the crossed network is its view in the ring, and so is each verdict on it,
/// whatever judges.
pub fn views_stay(ring: &Ring, net: &Network, labels: &LabelStore, pair: Pair)
    requires read { IsRingOrder net.now ring.now }
    requires each { length labels.now ≡ length net.now }
    requires pair { IsPair net.now labels.now ring.now pair.first pair.second }
    ensures views { views (crossed_rows net.now ring.now pair.first pair.second) labels.now
        ≡ views net.now labels.now }
    ensures verdicts { (judge : Seen → Verdict)
        → verdicts_by judge (crossed_rows net.now ring.now pair.first pair.second) labels.now
        ≡ verdicts_by judge net.now labels.now }
{
    is_valid(net);
}

/// Where exactly one node of the ring is marked as a leader, one component of the crossed network
/// has none.
pub fn leaderless(ring: &Ring, net: &Network, labels: &LabelStore, pair: Pair)
    requires read { IsRingOrder net.now ring.now }
    requires each { length labels.now ≡ length net.now }
    requires pair { IsPair net.now labels.now ring.now pair.first pair.second }
    ensures { HasOneLeader net.now
        → IsLeaderlessIn (crossed_rows net.now ring.now pair.first pair.second) }
{
    is_valid(net);
}

/// The crossed network has two components, and each is a ring: one of as many nodes as the numbers
/// of the edges are apart, and one of the others.
pub fn two_rings(ring: &Ring, net: &Network, labels: &LabelStore, pair: Pair)
    requires read { IsRingOrder net.now ring.now }
    requires each { length labels.now ≡ length net.now }
    requires pair { IsPair net.now labels.now ring.now pair.first pair.second }
    ensures { AreTwoRings (crossed_rows net.now ring.now pair.first pair.second)
        (length net.now - (pair.second - pair.first)) (pair.second - pair.first) }
{
    is_valid(net);
}
