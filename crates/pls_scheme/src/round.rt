//! A round in which each label is looked at once, for all the nodes that see it.

ghost use Rattle.std.specs.Prelude.{◌≡◌, ◌<◌, All, length, map, slice_get, Some, IfOk, IfSome};
ghost use Rattle.std.specs.Option.{option_and_then, option_copied};
ghost use Rattle.pls_labels.specs.Seen.{Seen, views};
ghost use Rattle.pls_numbers.specs.Shape.{said_by};
ghost use Rattle.pls_scheme.specs.Basic.{verdict_by};
ghost use Rattle.pls_scheme.specs.Judging.{RoseByAtMost, verdicts_by};
ghost use Rattle.pls_scheme.specs.inner.Looks.{AreLooked};

use crate::in_place::{JudgesInPlace, LabelGlance};
use crate::memory::GlanceMemory;
use crate::settling::early_verdict_at;
use pls_configuration::Verdict;
use pls_graph::Network;
use pls_labels::Labels;
use pls_streams::{NoMemory, Steps};
use std::alloc::Global;

// In the order of the nodes, at most one step each; fails only for want of memory.
pub(crate) fn verdicts_of<R: JudgesInPlace, L: Labels>(
    alloc: Global,
    rules: &R,
    net: &Network,
    labels: &L,
    steps: &mut Steps,
) -> Result<Vec<Verdict>, NoMemory>
    requires { length (L.listed labels.now) ≡ length net.now }
    ensures verdicts { IfOk result (λ found. found.items
        ≡ verdicts_by (verdict_by (R.Format.shape (R.format rules.now)) (R.rules rules.now)
        R.Code.takes) net.now (L.listed labels.now)) }
    ensures few_steps { RoseByAtMost (length net.now) steps.old steps.new }
{
    let looked = look_at_all(alloc, rules, labels)?;
    let mut verdicts = Vec::with_capacity(alloc, net.len())?;
    for i in 0..net.len() {
        steps.tick();
        verdicts.push(verdict_at(rules, net, labels, looked.as_slice(), i))?;
    }
    Ok(verdicts)
}

// A glance at each label, `None` where it cannot be read.
fn look_at_all<R: JudgesInPlace, L: Labels>(
    alloc: Global,
    rules: &R,
    labels: &L,
) -> Result<Vec<Option<R::Glance>>, NoMemory>
    ensures { IfOk result
        (λ looked. AreLooked (said_by (R.Format.shape (R.format rules.now)) R.Code.takes)
        (R.glance rules.now) (L.listed labels.now) looked.items) }
{
    let mut looked = Vec::with_capacity(alloc, labels.len())?;
    for i in 0..labels.len() {
        looked.push(rules.look(&labels.bits(i)))?;
    }
    Ok(looked)
}

// The verdict of node `i`, from the kept glances.
pub(crate) fn verdict_at<R: JudgesInPlace, L: Labels, E: GlanceMemory<R::Glance>>(
    rules: &R,
    net: &Network,
    labels: &L,
    looked: &[E],
    i: usize,
) -> Verdict
    requires each { length (L.listed labels.now) ≡ length net.now }
    requires looked { AreLooked (said_by (R.Format.shape (R.format rules.now)) R.Code.takes)
        (R.glance rules.now) (L.listed labels.now) (map E.glance_in_memory looked.now) }
    requires within { i < length net.now }
    ensures { (view : Seen) → slice_get (views net.now (L.listed labels.now)) i ≡ Some view
        → result ≡ verdict_by (R.Format.shape (R.format rules.now)) (R.rules rules.now)
        R.Code.takes view }
{
    match early_verdict_at(rules, net, labels, looked, i) {
        Some(verdict) => verdict,
        None => verdict_by_all(rules, net, labels, looked, i),
    }
}

// Completes `verdict_at` where `early_verdict_at` leaves it open, by the labels at its ports.
fn verdict_by_all<R: JudgesInPlace, L: Labels, E: GlanceMemory<R::Glance>>(
    rules: &R,
    net: &Network,
    labels: &L,
    looked: &[E],
    i: usize,
) -> Verdict
    requires each { length (L.listed labels.now) ≡ length net.now }
    requires looked { AreLooked (said_by (R.Format.shape (R.format rules.now)) R.Code.takes)
        (R.glance rules.now) (L.listed labels.now) (map E.glance_in_memory looked.now) }
    requires within { i < length net.now }
    ensures { (view : Seen) → slice_get (views net.now (L.listed labels.now)) i ≡ Some view
        → result ≡ verdict_by (R.Format.shape (R.format rules.now)) (R.rules rules.now)
        R.Code.takes view }
{
    let (id, state) = net.node(i);
    let ports = net.ports(i);
    let places = net.places(i);
    let bits = labels.bits(i);
    let Some(glance) = looked[i].glance() else {
        return Verdict::Reject { leaf: 1, rule: 1 };
    };
    let own = LabelGlance {
        bits: &bits,
        glance,
    };
    let mut tally = rules.open(glance);
    for (p, port) in ports.iter().enumerate() {
        let place = places[p] as usize;
        let bits = labels.bits(place);
        let Some(glance) = looked[place].glance() else {
            return Verdict::Reject { leaf: 1, rule: 2 };
        };
        let label = LabelGlance {
            bits: &bits,
            glance,
        };
        tally = rules.pass(state.up, &own, tally, p, port.weight, &label);
    }
    let above = glance_above(looked, places, state.up);
    rules.close(id, state, &own, above, tally)
}

// The kept glance at the label that the pointer leads to, if there is one.
#[inline(always)]
pub(crate) fn glance_above<'a, G, E: GlanceMemory<G>>(
    looked: &'a [E],
    places: &[u32],
    up: Option<u32>,
) -> Option<&'a G>
    requires pointer { IfSome up (λ up. up < length places.now) }
    requires within { All (λ place. place < length looked.now) places.now }
    ensures { option_copied result ≡ option_and_then E.glance_in_memory
        (option_and_then (slice_get looked.now) (option_and_then (slice_get places.now) up)) }
{
    match up {
        Some(up) => looked[places[up as usize] as usize].glance(),
        None => None,
    }
}
