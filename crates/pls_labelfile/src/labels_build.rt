//! The labels that a text says, for the nodes of a network.

ghost use Rattle.std.specs.Prelude.{◌≡◌, ◌+◌, ◌*◌, ◌<◌, ◌≤◌, List, [], map, length, replicate, None, IfErr, IfNone, IfOk, IfSome, OnOk};
ghost use Rattle.pls_configuration.specs.Configuration.{ids_of};
ghost use Rattle.pls_configuration.specs.declared.limits.TheConstants.{MAX_NODES};
ghost use Rattle.pls_lines.specs.ListPart.{NextItem, Remains};
ghost use Rattle.pls_labelfile.specs.LabelsText.{FitsLabel, Labelling, NamedLabel, label_line};
ghost use Rattle.pls_labelfile.specs.LabelsScan.{TellsLabels, total_bits};
ghost use Rattle.pls_labelfile.specs.Misfit.{misfit};
ghost use Rattle.pls_labelfile.specs.Refusal.{IsLabelsRefusal, labels_refusal};
ghost use Rattle.pls_labelfile.specs.inner.HexWord.{SaysLabels};

use crate::label_line::LabelLine;
use crate::labels_text::LabelsText;
use pls_configuration::MAX_BITS;
use pls_graph::Network;
use pls_labels::{LabelRoom, LabelStore};
use pls_lines::Lines;
use pls_streams::refusal_number::MISFIT;
use pls_streams::{Quantity, TextError};
use std::alloc::Global;

impl<'a> LabelsText<'a> {
    /// The labels of the text, as those of the nodes of a network in their order.
    ///
    /// `Limit` where they have more than [`MAX_BITS`] bits together. Else `Sense` with number
    /// [`MISFIT`] and a line, the first that is out of step with the nodes: the label of another
    /// node than the one whose turn it is, a label when every node has one, or the `end` before
    /// that. `NoMemory` for want of memory.
    pub fn build(&self, alloc: Global, net: &Network) -> Result<LabelStore, TextError>
        ensures ok { (said : Labelling) → TellsLabels self.now.text said
            → IfOk result (λ store. store ≡ map (λ label. label.bits) said.labels) }
        ensures named { (said : Labelling) → TellsLabels self.now.text said
            → OnOk result (map (λ label. label.id) said.labels ≡ ids_of net.now) }
        ensures accepted { (said : Labelling) → TellsLabels self.now.text said
            → OnOk result (labels_refusal (ids_of net.now) self.now.number said.labels ≡ None) }
        ensures refused { (said : Labelling) → TellsLabels self.now.text said
            → IfErr result (λ error.
            IsLabelsRefusal (ids_of net.now) self.now.number said.labels error) }
    {
        if self.part.kept.bits > MAX_BITS {
            return Err(TextError::Limit(Quantity::Bits));
        }
        let mut store = LabelStore::blank(alloc, net.len())?;
        let room = store.with_room();
        room.reserve(self.part.kept.bits + 64 * net.len() as u64)?;
        let mut lines = self.behind_heading();
        match fill(net, &mut lines, room) {
            Some(place) => Err(TextError::Sense {
                number: MISFIT,
                place: self.number_of(place),
            }),
            None => Ok(store),
        }
    }

    fn behind_heading(&self) -> Lines<'a>
        ensures said { SaysLabels result.rest }
        ensures remains { (said : Labelling) → TellsLabels self.now.text said
            → Remains FitsLabel label_line result.rest said.labels }
    {
        self.part.behind_heading()
    }

    // The line of the label at `place`, or of the `end` after the last.
    fn number_of(&self, place: usize) -> u64
        requires { place ≤ MAX_NODES }
        ensures { result ≡ self.now.number + 1 + place }
    {
        self.part.number_of(place)
    }
}

// The place of the first label that does not fit; `None` where all fit.
fn fill(net: &Network, lines: &mut Lines<'_>, room: &mut LabelRoom) -> Option<usize>
    requires said { SaysLabels lines.old.rest }
    requires blank { room.old.labels ≡ replicate (length net.now) [] }
    requires room { (labels : List NamedLabel) → Remains FitsLabel label_line lines.old.rest labels
        → total_bits labels + 64 * length net.now ≤ room.old.spare }
    ensures misfit { (labels : List NamedLabel) → Remains FitsLabel label_line lines.old.rest labels
        → result ≡ misfit (ids_of net.now) labels }
    ensures filled { IfNone result ((labels : List NamedLabel)
        → Remains FitsLabel label_line lines.old.rest labels
        → room.new.labels ≡ map (λ label. label.bits) labels) }
    ensures within { IfSome result (λ at. at ≤ MAX_NODES) }
{
    for place in 0..net.len() {
        let Some(label) = next_label(lines) else {
            return Some(place);
        };
        if label.id() != net.node(place).0 {
            return Some(place);
        }
        label.put_into(room, place);
    }
    match next_label(lines) {
        Some(_) => Some(net.len()),
        None => None,
    }
}

// `None` at the `end`; the digits were scanned before and are not tested.
fn next_label<'a>(lines: &mut Lines<'a>) -> Option<LabelLine<'a>>
    requires { SaysLabels lines.old.rest }
    ensures next { IfSome result (λ label. (labels : List NamedLabel)
        → Remains FitsLabel label_line lines.old.rest labels
        → NextItem FitsLabel label_line labels label lines.new.rest) }
    ensures said { IfSome result (λ _. SaysLabels lines.new.rest) }
    ensures none { IfNone result ((labels : List NamedLabel)
        → Remains FitsLabel label_line lines.old.rest labels → labels ≡ []) }
    ensures fewer { IfSome result (λ _. length lines.new.rest < length lines.old.rest) }
{
    let (label, rest) = LabelLine::read_again(lines.rest())?;
    lines.pass_to(rest);
    Some(label)
}
