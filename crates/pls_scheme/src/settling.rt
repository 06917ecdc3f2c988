//! Verdicts for which few labels have to be looked into.

ghost use Rattle.std.specs.Prelude.{◌≡◌, ◌<◌, ℕ, All, is_some, length, map, slice_get, true, None, Some, IfSome, IsFalse, IsTrue};
ghost use Rattle.pls_labels.specs.Seen.{Seen, views};
ghost use Rattle.pls_numbers.specs.Shape.{said_by};
ghost use Rattle.pls_scheme.specs.Basic.{verdict_by};
ghost use Rattle.pls_scheme.specs.inner.Looks.{AreLooked, kept_at_port};

use crate::in_place::{JudgesInPlace, LabelGlance};
use crate::memory::GlanceMemory;
use crate::round::glance_above;
use pls_configuration::Verdict;
use pls_graph::Network;
use pls_labels::Labels;

// `None` where the node's label and the one above do not settle its verdict.
#[inline(always)]
pub(crate) fn early_verdict_at<R: JudgesInPlace, L: Labels, E: GlanceMemory<R::Glance>>(
    rules: &R,
    net: &Network,
    labels: &L,
    looked: &[E],
    i: usize,
) -> Option<Verdict>
    requires each { length (L.listed labels.now) ≡ length net.now }
    requires looked { AreLooked (said_by (R.Format.shape (R.format rules.now)) R.Code.takes)
        (R.glance rules.now) (L.listed labels.now) (map E.glance_in_memory looked.now) }
    requires within { i < length net.now }
    ensures { IfSome result (λ verdict. (view : Seen)
        → slice_get (views net.now (L.listed labels.now)) i ≡ Some view
        → verdict ≡ verdict_by (R.Format.shape (R.format rules.now)) (R.rules rules.now)
        R.Code.takes view) }
{
    let (id, state) = net.node(i);
    let ports = net.ports(i);
    let places = net.places(i);
    let bits = labels.bits(i);
    let glance = looked[i].glance()?;
    let own = LabelGlance {
        bits: &bits,
        glance,
    };
    let above = glance_above(looked, places, state.up);
    let verdict = rules.early_verdict(id, state, &own, above)?;
    if are_read(looked, places) {
        Some(verdict)
    } else {
        Some(Verdict::Reject { leaf: 1, rule: 2 })
    }
}

#[inline(always)]
fn are_read<G, E: GlanceMemory<G>>(looked: &[E], places: &[u32]) -> bool
    requires { All (λ place. place < length looked.now) places.now }
    ensures read { IsTrue result → (p : ℕ) → p < length places.now
        → is_some (kept_at_port E.glance_in_memory looked.now places.now p) ≡ true }
    ensures unread { IsFalse result → (p : ℕ) × (p < length places.now)
        × (kept_at_port E.glance_in_memory looked.now places.now p ≡ None) }
{
    for p in 0..places.len() {
        if looked[places[p] as usize].glance().is_none() {
            return false;
        }
    }
    true
}
