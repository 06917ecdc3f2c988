//! Whether rules hold where labels say something, before anything is written.

ghost use Rattle.std.specs.Prelude.{◌≡◌, ◌↔◌, ℕ, ◌<◌, length, map, slice_get, Some, IsTrue};
ghost use Rattle.pls_configuration.specs.declared.row.NodeRow.{NodeRow};
ghost use Rattle.pls_graph.specs.Places.{named_places};
ghost use Rattle.pls_scheme.specs.Judging.{judged_from};
ghost use Rattle.pls_scheme.specs.Marked.{AreSaidBy};
ghost use Rattle.pls_scheme.specs.Reading.{read_where, port_where};
ghost use Rattle.pls_scheme.specs.Theorem.{HoldEverywhere};
ghost use Rattle.pls_scheme.specs.inner.Holding.{AreKnown};

use crate::certify::accepts;
use crate::rules::Rules;
use pls_configuration::{Port, Verdict};
use pls_facts::is_valid;
use pls_graph::Network;
use pls_numbers::Format;

/// Whether the rules hold at every node where the labels say this, in the order of the nodes. It
/// takes no memory.
pub fn hold_everywhere<R: Rules>(
    rules: &R,
    net: &Network,
    labels: &[<R::Format as Format>::Label],
) -> bool
    requires { length labels.now ≡ length net.now }
    ensures { (say : ℕ → R.Format.Label) → AreSaidBy say net.now labels.now
        → IsTrue result ↔ HoldEverywhere (R.rules rules.now) net.now say }
{
    is_valid(net);
    for i in 0..net.len() {
        if !accepts(verdict_at(rules, net, labels, i)) {
            return false;
        }
    }
    true
}

fn verdict_at<R: Rules>(
    rules: &R,
    net: &Network,
    labels: &[<R::Format as Format>::Label],
    i: usize,
) -> Verdict
    requires each { length labels.now ≡ length net.now }
    requires within { i < length net.now }
    ensures { (say : ℕ → R.Format.Label) → AreSaidBy say net.now labels.now
        → (row : NodeRow) → slice_get net.now i ≡ Some row
        → result ≡ judged_from 3 (R.rules rules.now (read_where say row)) }
{
    let (id, state) = net.node(i);
    let places = net.places(i);
    let own = &labels[i];
    let above = match state.up {
        Some(up) => Some(&labels[places[up as usize] as usize]),
        None => None,
    };
    let tally = tally_at(rules, net, labels, own, net.ports(i), places);
    rules.verdict(id, state, own, above, tally)
}

// `places` are those of the neighbours, in the order of the ports.
fn tally_at<R: Rules>(
    rules: &R,
    net: &Network,
    labels: &[<R::Format as Format>::Label],
    own: &<R::Format as Format>::Label,
    ports: &[Port],
    places: &[u32],
) -> R::Tally
    requires each { length labels.now ≡ length net.now }
    requires known { AreKnown net.now ports.now }
    requires places { places.now ≡ named_places net.now ports.now }
    ensures { (say : ℕ → R.Format.Label) → AreSaidBy say net.now labels.now
        → result ≡ R.tallied rules.now own.now (map (port_where say) ports.now) }
{
    let mut tally = rules.start(own);
    for (p, port) in ports.iter().enumerate() {
        tally = rules.add(own, tally, port.weight, &labels[places[p] as usize]);
    }
    tally
}
