//! The labels of all nodes.

ghost use Rattle.std.specs.Prelude.{◌≡◌, ◌<◌, ◌≤◌, ◌↔◌, [], length, replicate, slice_get, slice_set, IsTrue, IfOk, OnOk, OnErr, Some};
ghost use Rattle.std.specs.List.{insert, remove};
ghost use Rattle.std.specs.Borrow.{Lends, sem};
ghost use Rattle.pls_labels.specs.contracts.label_room.LabelRoom.{the_row as room_row};
ghost use Rattle.pls_labels.specs.contracts.label_store.LabelStore.{the_row};
ghost use Rattle.pls_labels.specs.Labels.{bits_together};

use crate::label_room::LabelRoom;
use crate::labels::Labels;
use pls_bits::{BitBuf, Bits};
use pls_streams::NoMemory;
use std::alloc::Global;
use std::marker::Model;

// The greatest length of a label that is copied, 2^60. More bits find no memory.
const LONGEST: usize = 1_152_921_504_606_846_976;

// The greatest number of bits for which room is asked, 2^61.
const MOST: u64 = 2_305_843_009_213_693_952;

/// One label for each node, in the order of the nodes, seen as the list of them.
#[derive(Drop)]
pub struct LabelStore {
    room: LabelRoom,
}

impl Model for LabelStore {
    ghost use Rattle.std.specs.Prelude.{Bool, List};

    ghost Value = { List (List Bool) };

    ghost view = { λ store. store.room.labels };
}

impl LabelStore {
    /// That many empty labels.
    pub fn blank(alloc: Global, nodes: usize) -> Result<LabelStore, NoMemory>
        ensures { IfOk result (λ store. store ≡ replicate nodes []) }
    {
        let room = LabelRoom::blank(alloc, nodes)?;
        Ok(LabelStore { room })
    }

    /// That many empty labels, with room for so many bits of all together, where each label begins
    /// a word of 64 bits.
    pub fn blank_for(alloc: Global, nodes: usize, bits: u64) -> Result<LabelStore, NoMemory>
        ensures { IfOk result (λ store. store ≡ replicate nodes []) }
    {
        let mut room = LabelRoom::blank(alloc, nodes)?;
        let ends = (nodes as u64).saturating_mul(64);
        room.reserve(bits.saturating_add(ends).min(MOST))?;
        Ok(LabelStore { room })
    }

    /// How many labels there are.
    #[inline(always)]
    pub fn len(&self) -> usize
        ensures { result ≡ length self.now }
    {
        self.room.len()
    }

    /// Whether there is no label.
    pub fn is_empty(&self) -> bool
        ensures { IsTrue result ↔ (self.now ≡ []) }
    {
        self.room.is_empty()
    }

    /// How many bits all labels have together.
    pub fn total(&self) -> u64
        ensures { result ≡ bits_together self.now }
    {
        self.room.total()
    }

    /// The bits of the label at place `i`, lent. It takes no memory.
    #[inline(always)]
    pub fn bits(&self, i: usize) -> Bits<'_>
        requires { i < length self.now }
        ensures { slice_get self.now i ≡ Some result }
    {
        self.room.bits(i)
    }

    /// Puts a copy of `label` at place `i`; the other labels stay. For want of memory all stay.
    pub fn replace(&mut self, i: usize, label: &BitBuf) -> Result<(), NoMemory>
        requires { i < length self.old }
        ensures replaced { OnOk result (self.new ≡ slice_set self.old i label.now) }
        ensures unchanged { OnErr result (self.new ≡ self.old) }
    {
        if label.len() > LONGEST {
            return Err(NoMemory);
        }
        self.room.reserve(64 * label.len().div_ceil(64) as u64)?;
        self.room.replace_spare(i, label.bits());
        Ok(())
    }

    /// Puts an empty label at place `i`, before the label that is there. For want of memory all
    /// stay.
    pub fn insert(&mut self, i: usize) -> Result<(), NoMemory>
        requires { i ≤ length self.old }
        ensures inserted { OnOk result (self.new ≡ insert self.old i []) }
        ensures unchanged { OnErr result (self.new ≡ self.old) }
    {
        self.room.insert(i)
    }

    /// Takes the label at place `i` out. It takes no memory.
    pub fn remove(&mut self, i: usize)
        requires { i < length self.old }
        ensures { self.new ≡ remove self.old i }
    {
        self.room.remove(i);
    }

    /// The same labels with the room for more bits.
    pub fn with_room(&mut self) -> &mut LabelRoom
        ensures labels { result.now.labels ≡ self.old }
        ensures* stays { sem 𝓛 (Lends the_row room_row self.entry result (λ room. room.labels)) }
    {
        &mut self.room
    }
}

impl Labels for LabelStore {
    ghost listed = { λ labels. labels };

    #[inline(always)]
    fn len(&self) -> usize {
        self.room.len()
    }

    #[inline(always)]
    fn bits(&self, i: usize) -> Bits<'_> {
        self.room.bits(i)
    }
}
