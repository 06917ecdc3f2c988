//! Looks that are kept, each by what is other than at the one before.

ghost use Rattle.std.specs.Prelude.{◌≡◌, ◌+◌, ◌<◌, ◌^◌, ◌++◌, ◌∷◌, [], ℕ, List, length, map, replicate, IfOk, OnErr, OnOk};
ghost use Rattle.std.specs.List.{flat_map, sum};
ghost use Rattle.pls_streams.specs.Gathered.{Writes};
ghost use Rattle.pls_report.specs.inner.Kept.{joined_text, kept_text, row_line};
ghost use Rattle.pls_report.specs.inner.Patches.{patch_text};
ghost use Rattle.pls_report.specs.inner.Renewed.{AreRenewed};

use crate::line_kind::LookCounts;
use crate::look::write_counts;
use crate::look_row::LookRow;
use crate::patches::Patches;
use pls_streams::{Fault, Gathered, NoMemory, Sink};
use std::alloc::Global;
use std::marker::Model;
use std::mem::swap;

/// A look that is kept: what its lines are other than those of the look before, as patches of their
/// text, and what they count as.
#[derive(Drop)]
pub(crate) struct KeptLook {
    patches: Patches,
    counts: LookCounts,
}

/// The looks that are kept. A line that several looks show stands here once. Seen as the lines of
/// the nodes at the last of them, which are empty before the first, and the texts of the looks,
/// numbered from 1.
#[derive(Drop)]
pub(crate) struct KeptLooks {
    looks: Vec<KeptLook>,
    // The lengths of the nodes' lines at the last look, and room for those at the next.
    lengths: Vec<usize>,
    renewed: Vec<usize>,
    // Empty, with room for the lines of each look.
    before: Vec<u8>,
    after: Vec<u8>,
}

impl Model for KeptLooks {
    ghost use Rattle.std.specs.Prelude.{◌≡◌, [], length};
    ghost use Rattle.std.specs.List.{sum};
    ghost use Rattle.std.specs.Vec.{vec_capacity};
    ghost use Rattle.pls_report.specs.inner.Kept.{TextsKept, pieces_of};
    ghost use Rattle.pls_report.specs.inner.KeptTexts.{HasRoomForAll, last_lines, texts_from};

    ghost Value = { TextsKept };

    ghost view = { λ kept. record {
      lines = pieces_of kept.lengths.items (last_lines [] kept.looks.items);
      texts = texts_from 1 [] kept.looks.items;
    } };

    ghost invariant = { λ kept. (sum kept.lengths.items ≡ length (last_lines [] kept.looks.items))
        × (length kept.renewed.items ≡ length kept.lengths.items)
        × (kept.before.items ≡ []) × (kept.after.items ≡ [])
        × HasRoomForAll (vec_capacity kept.before) kept.looks.items
        × HasRoomForAll (vec_capacity kept.after) kept.looks.items };
}

impl KeptLooks {
    /// No look yet, at `count` nodes. The one error is want of memory.
    pub(crate) fn none(alloc: Global, count: usize) -> Result<KeptLooks, NoMemory>
        ensures lines { IfOk result (λ kept. kept.lines ≡ replicate count []) }
        ensures texts { IfOk result (λ kept. kept.texts ≡ []) }
    {
        Ok(KeptLooks {
            looks: Vec::new(alloc),
            lengths: vec![in alloc; 0; count]?,
            renewed: vec![in alloc; 0; count]?,
            before: Vec::new(alloc),
            after: Vec::new(alloc),
        })
    }

    /// Keeps a look that shows these rows, which are as the lines of the look before, but for those
    /// that changed. The one error is want of memory: nothing changes then.
    pub(crate) fn keep(
        &mut self,
        alloc: Global,
        rows: &[LookRow],
        changed: &[bool],
        counts: LookCounts,
    ) -> Result<(), NoMemory>
        requires { AreRenewed rows.now changed.now self.old.lines }
        ensures lines { OnOk result (self.new.lines ≡ map row_line rows.now) }
        ensures texts { OnOk result (self.new.texts ≡ self.old.texts
            ++ kept_text (length self.old.texts + 1) (map row_line rows.now) counts ∷ []) }
        ensures unchanged { OnErr result (self.new ≡ self.old) }
    {
        let lengths = self.lengths.as_slice();
        let (patches, room) = patches_of(alloc, rows, changed, lengths, &mut self.renewed)?;
        self.before.reserve(room)?;
        self.after.reserve(room)?;
        self.looks.push(KeptLook { patches, counts })?;
        swap(&mut self.lengths, &mut self.renewed);
        Ok(())
    }

    /// Writes the texts of all looks that were kept.
    pub(crate) fn write<K: Sink>(self, sink: &mut K, gathered: &mut Gathered) -> Result<(), Fault>
        ensures { Writes gathered.old gathered.new (K.taken sink.old) (K.taken sink.new)
            (K.faults sink.old) (K.faults sink.new) (K.IsSureOf sink.old) (K.IsSureOf sink.new)
            result (flat_map (λ text. text) self.texts) }
    {
        let KeptLooks {
            looks,
            mut before,
            mut after,
            ..
        } = self;
        for (place, look) in looks.iter().enumerate() {
            look.patches.apply(before.as_slice(), &mut after);
            gathered.put(sink, after.as_slice())?;
            write_counts(sink, gathered, place as u64 + 1, look.counts)?;
            swap(&mut before, &mut after);
        }
        Ok(())
    }
}

// The patches that make the lines of these rows of lines of these lengths, and how long the text of
// the new lines is. Their lengths are written into `renewed`.
fn patches_of(
    alloc: Global,
    rows: &[LookRow],
    changed: &[bool],
    lengths: &[usize],
    renewed: &mut Vec<usize>,
) -> Result<(Patches, usize), NoMemory>
    requires each { length changed.now ≡ length rows.now }
    requires lengths { length lengths.now ≡ length rows.now }
    requires renewed { length renewed.old.items ≡ length rows.now }
    requires short { sum lengths.now < 2 ^ 64 }
    ensures as_many { length renewed.new.items ≡ length rows.now }
    ensures patches { IfOk result (λ made. (lines : List (List ℕ))
        → AreRenewed rows.now changed.now lines → lengths.now ≡ map length lines
        → patch_text made.0 (joined_text lines) ≡ joined_text (map row_line rows.now)) }
    ensures renewed { OnOk result ((lines : List (List ℕ))
        → AreRenewed rows.now changed.now lines → lengths.now ≡ map length lines
        → renewed.new.items ≡ map length (map row_line rows.now)) }
    ensures room { IfOk result (λ made. made.1 ≡ sum renewed.new.items) }
{
    renewed.copy_from_slice(lengths);
    let mut patches = Patches::new(alloc);
    let (mut stays, mut room) = (0, 0);
    for (i, row) in rows.iter().enumerate() {
        if !changed[i] {
            stays += lengths[i];
            continue;
        }
        let length = patches.add(stays, lengths[i], row)?;
        room = sum(sum(room, stays)?, length)?;
        renewed[i] = length;
        stays = 0;
    }
    room = sum(room, stays)?;
    patches.shrink();
    Ok((patches, room))
}

// More than there is memory for is want of memory.
fn sum(count: usize, more: usize) -> Result<usize, NoMemory>
    ensures { IfOk result (λ total. total ≡ count + more) }
{
    count.checked_add(more).ok_or(NoMemory)
}
