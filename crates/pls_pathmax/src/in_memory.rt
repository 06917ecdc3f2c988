//! Views of labels with more levels than one pass asks for, judged in one pass with memory for the
//! flags of all levels.

ghost use Rattle.std.specs.Prelude.{◌≡◌, ℕ, ◌<◌, ◌&&◌, ◌||◌, List, length, Some, false, slice_get, slice_index_or, true, IfOk};
ghost use Rattle.pls_numbers.specs.Shape.{said_by};
ghost use Rattle.pls_labels.specs.Seen.{Seen, views};
ghost use Rattle.pls_scheme.specs.Basic.{verdict_by};
ghost use Rattle.pls_scheme.specs.Reading.{ReadPort, port_with, read_ports, reading};
ghost use Rattle.pls_pathmax.specs.Labels.{PathMaxLabel, pathmax_shape};
ghost use Rattle.pls_levels.specs.Rules.{is_in_tree};
ghost use Rattle.pls_pathmax.specs.Rules.{pathmax_rules};
ghost use Rattle.pls_pathmax.specs.inner.OnePass.{is_led_on, is_settled, leads_from, one_pass_rules};

use crate::comparing::note_ways;
use crate::gathering::{WINDOW, have_ways};
use crate::levels::PathMaxLevels;
use crate::pathmax::{count_of, head_of, is_settled};
use pls_bits::{Bits, NumCode};
use pls_configuration::Verdict;
use pls_facts::is_valid;
use pls_graph::Network;
use pls_labels::{Labels, View};
use pls_levels::{is_in_tree, levels_of};
use pls_streams::NoMemory;
use std::alloc::Global;

// `verdict` is that of the first pass; the one error is want of memory.
pub(crate) fn verdict_of_node<C: NumCode, L: Labels>(
    alloc: Global,
    net: &Network,
    labels: &L,
    i: usize,
    verdict: Verdict,
) -> Result<Verdict, NoMemory>
    requires each { length (L.listed labels.now) ≡ length net.now }
    requires within { i < length net.now }
    requires first { (view : Seen) → slice_get (views net.now (L.listed labels.now)) i ≡ Some view
        → verdict ≡ verdict_by pathmax_shape (one_pass_rules 0) C.takes view }
    ensures { IfOk result (λ found. (view : Seen)
        → slice_get (views net.now (L.listed labels.now)) i ≡ Some view
        → found ≡ verdict_by pathmax_shape pathmax_rules C.takes view) }
{
    is_valid(net);
    if is_final::<C>(&labels.bits(i), &verdict) {
        return Ok(verdict);
    }
    let view = View::of(alloc, net, labels, i)?;
    let found = further_verdict::<C>(alloc, &view, verdict)?;
    Ok(found)
}

// Whether the first pass told the verdict by all rules: it stands whatever rule 5 says of further
// levels, or that pass asked rule 5 of all levels of `own`.
fn is_final<C: NumCode>(own: &Bits<'_>, verdict: &Verdict) -> bool
    ensures same { result ≡ true → (view : Seen) → view.own ≡ own.now
        → verdict.now ≡ verdict_by pathmax_shape (one_pass_rules 0) C.takes view
        → verdict.now ≡ verdict_by pathmax_shape pathmax_rules C.takes view }
    ensures open { result ≡ false → is_settled verdict.now ≡ false }
{
    is_settled(verdict) || count_of::<C>(own) <= WINDOW as u64
}

// `verdict` is that of the first pass; the one error is want of memory.
fn further_verdict<C: NumCode>(
    alloc: Global,
    view: &View<'_>,
    verdict: Verdict,
) -> Result<Verdict, NoMemory>
    requires first { verdict ≡ verdict_by pathmax_shape (one_pass_rules 0) C.takes view.now }
    requires open { is_settled verdict ≡ false }
    ensures { IfOk result (λ found.
        found ≡ verdict_by pathmax_shape pathmax_rules C.takes view.now) }
{
    let Some(own) = head_of::<C>(&view.own) else {
        // Bits that are no label are rejected by rule 1, and then the verdict would be settled.
        unreachable!()
    };
    let mut flags = vec![in alloc; false; own.count as usize]?;
    let flags = flags.as_mut_slice();
    note_ports::<C>(view, own.own, flags);
    let mut numbers = levels_of::<PathMaxLevels, C>(&view.own);
    if have_ways(&mut numbers, own.own, flags) {
        return Ok(verdict);
    }
    Ok(Verdict::Reject { leaf: 1, rule: 5 })
}

// Sets flag `k` where some port in the tree leads on from level `k`.
fn note_ports<C: NumCode>(view: &View<'_>, own: u64, flags: &mut [bool])
    requires { (k : ℕ) → k < length flags.old → slice_index_or flags.old k false ≡ false }
    ensures { (mine : PathMaxLabel) (ports : List (ReadPort PathMaxLabel))
        → said_by pathmax_shape C.takes view.now.own ≡ Some mine
        → read_ports (said_by pathmax_shape C.takes) view.now.ports ≡ Some ports
        → mine.own ≡ own → (k : ℕ) → k < length flags.old → slice_index_or flags.new k false
        ≡ is_led_on (reading view.now.id view.now.state mine ports) k }
{
    for (place, port) in view.ports.iter().enumerate() {
        note_port::<C>(
            &view.own,
            own,
            view.state.up,
            place,
            port.weight,
            &port.label,
            flags,
        );
    }
}

// Does nothing where the port is not in the tree; flags that are set stay so.
fn note_port<C: NumCode>(
    bits: &Bits<'_>,
    own: u64,
    up: Option<u32>,
    place: usize,
    weight: u32,
    label: &Bits<'_>,
    flags: &mut [bool],
)
    ensures { (mine theirs : PathMaxLabel)
        → said_by pathmax_shape C.takes bits.now ≡ Some mine
        → said_by pathmax_shape C.takes label.now ≡ Some theirs → mine.own ≡ own → (k : ℕ)
        → k < length flags.old → slice_index_or flags.new k false
        ≡ (slice_index_or flags.old k false
        || (is_in_tree up mine place (port_with weight theirs)
        && leads_from weight (slice_get mine.levels k) (slice_get theirs.levels k))) }
{
    let Some(head) = head_of::<C>(label) else {
        return;
    };
    if !is_in_tree(up, place, own, head.parent) {
        return;
    }
    let mut mine = levels_of::<PathMaxLevels, C>(bits);
    let mut theirs = levels_of::<PathMaxLevels, C>(label);
    note_ways(&mut mine, &mut theirs, u64::from(weight), 0, flags);
}
