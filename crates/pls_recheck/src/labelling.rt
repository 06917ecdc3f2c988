//! New labels of an edited network.

ghost use Rattle.std.specs.Prelude.{◌≡◌, All, slice_get, ◌<◌, ◌-◌, ◌^◌, length, min, nat_lt, slice_set, None, OnErr, OnOk, IfErr, IfOk, Some};
ghost use Rattle.pls_configuration.specs.declared.row.NodeRow.{NodeRow};
ghost use Rattle.pls_configuration.specs.declared.verdict.Verdict.{Verdict};
ghost use Rattle.pls_graph_edits.specs.Edits.{SaysEdit};
ghost use Rattle.pls_graph.specs.Places.{place_in};
ghost use Rattle.pls_labels.specs.Labels.{bits_together};
ghost use Rattle.pls_labels.specs.Seen.{Seen};
ghost use Rattle.pls_edits.specs.Edited.{label_refusal};
ghost use Rattle.pls_configuration.specs.declared.limits.TheConstants.{MAX_BITS};
ghost use Rattle.pls_edits.specs.declared.edit.Edit.TheVariants.{Label};
ghost use Rattle.pls_recheck.specs.After.{snapshot_after};
ghost use Rattle.pls_recheck.specs.Snapshot.{IsCurrent};
ghost use Rattle.pls_recheck.specs.inner.Flags.{AreAround, MarksMore, SetsAt, beside_itself};

use crate::edited_network::EditedNetwork;
use pls_bits::BitBuf;
use pls_configuration::MAX_BITS;
use pls_edits::EditError;
use pls_graph::Network;
use pls_labels::LabelStore;

impl EditedNetwork {
    // Gives the node's place.
    pub(crate) fn set_label(&mut self, id: u32, bits: &BitBuf) -> Result<usize, EditError>
        ensures ok { OnOk result (self.new ≡ snapshot_after (Label id bits.now) self.old) }
        ensures place { IfOk result (λ place. place ≡ place_in self.old.network id) }
        ensures within { IfOk result (λ place. place < length self.old.labels) }
        ensures allowed { OnOk result
            (label_refusal self.old.network self.old.labels id bits.now ≡ None) }
        ensures refused { IfErr result
            (λ error. SaysEdit (label_refusal self.old.network self.old.labels id bits.now) error) }
        ensures unchanged { OnErr result (self.new ≡ self.old) }
        ensures current { OnOk result ((judge : Seen → Verdict)
            → IsCurrent judge self.old → IsCurrent judge self.new) }
    {
        let Some(i) = self.net.place_of(id) else {
            return Err(EditError::Absent);
        };
        if is_full(&self.labels, i, bits) {
            return Err(EditError::Full);
        }
        let Ok(()) = self.labels.replace(i, bits) else {
            return Err(EditError::NoMemory);
        };
        touch_around(&self.net, i, &mut self.flags, &mut self.around);
        Ok(i)
    }
}

// Whether all labels would exceed `MAX_BITS` with `bits` at place `i`.
fn is_full(labels: &LabelStore, i: usize, bits: &BitBuf) -> bool
    requires { i < length labels.now }
    ensures { result ≡ nat_lt MAX_BITS (bits_together (slice_set labels.now i bits.now)) }
{
    bits_with(labels, i, bits) > MAX_BITS
}

// The total with `bits` at place `i`, at most 2^64-1.
fn bits_with(labels: &LabelStore, i: usize, bits: &BitBuf) -> u64
    requires { i < length labels.now }
    ensures { result ≡ min (bits_together (slice_set labels.now i bits.now)) (2 ^ 64 - 1) }
{
    let others = labels.total() - labels.bits(i).len() as u64;
    others.saturating_add(bits.len() as u64)
}

// Does nothing where `around` says that the node and its neighbours are all touched.
fn touch_around(net: &Network, i: usize, flags: &mut Vec<bool>, around: &mut Vec<bool>)
    requires within { i < length net.now }
    requires a_flag { length flags.old.items ≡ length net.now }
    requires around { AreAround net.now flags.old.items around.old.items }
    ensures touched { (row : NodeRow) → slice_get net.now i ≡ Some row
        → MarksMore (beside_itself row) net.now flags.old.items flags.new.items }
    ensures around { AreAround net.now flags.new.items around.new.items }
{
    if around[i] {
        return;
    }
    flags[i] = true;
    set_all(net.places(i), flags);
    around[i] = true;
}

fn set_all(places: &[u32], flags: &mut Vec<bool>)
    requires { All (λ place. place < length flags.old.items) places.now }
    ensures { SetsAt places.now flags.old.items flags.new.items }
{
    for place in places {
        flags[*place as usize] = true;
    }
}
