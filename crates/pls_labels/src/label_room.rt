//! Labels in one list of words, with room that is reserved.

ghost use Rattle.std.specs.Prelude.{◌≡◌, ◌≤◌, ◌<◌, ◌+◌, ◌*◌, ◌/◌, ◌^◌, ◌↔◌, [], Bool, List, length, map, replicate, slice_get, slice_set, IfOk, IsTrue, OnOk, OnErr, Some};
ghost use Rattle.std.specs.List.{All, insert, remove};
ghost use Rattle.std.specs.Vec.{vec_capacity};
ghost use Rattle.pls_bits.specs.Hex.{Spells, hex_digits};
ghost use Rattle.pls_labels.specs.Labels.{bits_together};
ghost use Rattle.pls_labels.specs.Stored.{cost};
ghost use Rattle.pls_labels.specs.inner.Slots.{LiesIn, bits_of_slots, label_of_slot};

use pls_bits::{Bits, append_hex};
use pls_streams::NoMemory;
use std::alloc::Global;
use std::marker::Model;

// The greatest number of words, 2^56. More find no memory.
const MOST: usize = 72_057_594_037_927_936;

// Where a label lies: from word `at` on, so many bits.
#[derive(Clone, Copy)]
struct Slot {
    at: usize,
    len: usize,
}

/// One label for each node, in the order of the nodes, and room for more bits, seen as the list of
/// the labels and the number of bits that can still be put without memory.
#[derive(Drop)]
pub struct LabelRoom {
    // A label is put behind all others. What it replaces is garbage, until no room is left and all
    // labels move to new words.
    words: Vec<u64>,
    slots: Vec<Slot>,
    total: u64,
    // How many more words are put without memory.
    free: usize,
    alloc: Global,
}

impl Model for LabelRoom {
    ghost use Rattle.std.specs.Prelude.{◌*◌, map};
    ghost use Rattle.std.specs.Vec.{vec_capacity};
    ghost use Rattle.pls_labels.specs.Stored.{Stored};
    ghost use Rattle.pls_labels.specs.inner.Slots.{IsFree, IsRoom, label_of_slot};

    ghost Value = { Stored };

    ghost view = { λ room. record {
      labels = map (label_of_slot room.words.items) room.slots.items;
      spare = 64 * room.free;
    } };

    ghost invariant = { λ room. IsRoom room.words.items room.slots.items room.total
        × IsFree room.words.items (vec_capacity room.words) room.free };
}

impl LabelRoom {
    /// That many empty labels, and room for no bit.
    pub fn blank(alloc: Global, nodes: usize) -> Result<LabelRoom, NoMemory>
        ensures { IfOk result (λ room. room.labels ≡ replicate nodes []) }
    {
        let mut slots = Vec::with_capacity(alloc, nodes)?;
        for _ in 0..nodes {
            slots.push(Slot { at: 0, len: 0 })?;
        }
        Ok(LabelRoom {
            words: Vec::new(alloc),
            slots,
            total: 0,
            free: 0,
            alloc,
        })
    }

    /// How many labels there are.
    #[inline(always)]
    pub fn len(&self) -> usize
        ensures { result ≡ length self.now.labels }
    {
        self.slots.len()
    }

    /// Whether there is no label.
    pub fn is_empty(&self) -> bool
        ensures { IsTrue result ↔ (self.now.labels ≡ []) }
    {
        self.slots.is_empty()
    }

    /// How many bits all labels have together.
    pub fn total(&self) -> u64
        ensures { result ≡ bits_together self.now.labels }
    {
        self.total
    }

    /// The bits of the label at place `i`, lent. It takes no memory.
    #[inline(always)]
    pub fn bits(&self, i: usize) -> Bits<'_>
        requires { i < length self.now.labels }
        ensures { slice_get self.now.labels i ≡ Some result }
    {
        let slot = self.slots[i];
        Bits::of_words(self.words.as_slice(), 64 * slot.at, slot.len)
    }

    /// How many bits are reserved and not used: labels whose costs are no more together are put
    /// without memory, where a label costs 64 for each word that its bits begin.
    pub fn spare(&self) -> u64
        ensures { result ≡ self.now.spare }
    {
        64 * self.free as u64
    }

    /// Makes room for so many more bits, if there is less. For want of memory nothing changes; the
    /// labels stay in any case.
    pub fn reserve(&mut self, bits: u64) -> Result<(), NoMemory>
        requires { bits ≤ 2 ^ 61 }
        ensures room { OnOk result (bits ≤ self.new.spare) }
        ensures labels { self.new.labels ≡ self.old.labels }
        ensures spare { self.old.spare ≤ self.new.spare }
        ensures unchanged { OnErr result (self.new ≡ self.old) }
    {
        let need = bits.div_ceil(64) as usize;
        if need <= self.free {
            return Ok(());
        }
        let live = ((self.total / 64) as usize).saturating_add(self.slots.len());
        let room = live.saturating_mul(2).saturating_add(need);
        let (words, slots) = compact(
            self.alloc,
            self.words.as_slice(),
            self.slots.as_slice(),
            room,
            need,
        )?;
        self.free = words.capacity().min(MOST) - words.len();
        self.words = words;
        self.slots = slots;
        Ok(())
    }

    /// Puts a copy of `label` at place `i`; the other labels stay. It takes no memory.
    pub fn replace_spare(&mut self, i: usize, label: Bits<'_>)
        requires within { i < length self.old.labels }
        requires room { cost (length label) ≤ self.old.spare }
        ensures replaced { self.new.labels ≡ slice_set self.old.labels i label.entry }
        ensures spare { self.new.spare + cost (length label.entry) ≡ self.old.spare }
    {
        let slot = Slot {
            at: self.words.len(),
            len: label.len(),
        };
        match label.append_to(&mut self.words) {
            Ok(()) => {}
            Err(_) => unreachable!(),
        }
        self.free -= slot.len.div_ceil(64);
        self.total = replace_slot(&mut self.slots, self.total, i, slot);
    }

    /// Puts the label of `len` bits whose hex text `digits` is at place `i`; the other labels stay.
    /// The digits are not tested, and no memory is taken.
    pub fn replace_spare_hex(&mut self, i: usize, len: usize, digits: &[u8])
        requires within { i < length self.old.labels }
        requires room { cost len ≤ self.old.spare }
        requires text { Spells len digits.now }
        ensures replaced { (bits : List Bool) → length bits ≡ len → hex_digits bits ≡ digits.now
            → self.new.labels ≡ slice_set self.old.labels i bits }
        ensures spare { self.new.spare + cost len ≡ self.old.spare }
    {
        let slot = Slot {
            at: self.words.len(),
            len,
        };
        match append_hex(&mut self.words, len, digits) {
            Ok(()) => {}
            Err(_) => unreachable!(),
        }
        self.free -= len.div_ceil(64);
        self.total = replace_slot(&mut self.slots, self.total, i, slot);
    }

    /// Puts an empty label at place `i`, before the label that is there. For want of memory nothing
    /// changes.
    pub fn insert(&mut self, i: usize) -> Result<(), NoMemory>
        requires { i ≤ length self.old.labels }
        ensures inserted { OnOk result (self.new.labels ≡ insert self.old.labels i []) }
        ensures unchanged { OnErr result (self.new.labels ≡ self.old.labels) }
        ensures spare { self.new.spare ≡ self.old.spare }
    {
        self.slots.insert(i, Slot { at: 0, len: 0 })?;
        Ok(())
    }

    /// Takes the label at place `i` out. It takes no memory.
    pub fn remove(&mut self, i: usize)
        requires { i < length self.old.labels }
        ensures removed { self.new.labels ≡ remove self.old.labels i }
        ensures spare { self.new.spare ≡ self.old.spare }
    {
        let slot = self.slots.remove(i);
        self.total -= slot.len as u64;
    }
}

// The answer is the new number of bits of all slots together; `total` is the old one.
fn replace_slot(slots: &mut Vec<Slot>, total: u64, i: usize, slot: Slot) -> u64
    requires within { i < length slots.old.items }
    requires sum { total ≡ bits_of_slots slots.old.items }
    requires small { total + slot.len < 2 ^ 64 }
    ensures slots { slots.new.items ≡ slice_set slots.old.items i slot }
    ensures sum { result ≡ bits_of_slots slots.new.items }
{
    let others = total - slots[i].len as u64;
    slots[i] = slot;
    others + slot.len as u64
}

// Copies the labels without garbage, with room for `need` more words, or for `room` if more.
fn compact(
    alloc: Global,
    words: &[u64],
    slots: &[Slot],
    room: usize,
    need: usize,
) -> Result<(Vec<u64>, Vec<Slot>), NoMemory>
    requires within { All (LiesIn words.now) slots.now }
    requires small { length words.now ≤ 2 ^ 56 }
    requires need { need ≤ 2 ^ 55 }
    ensures labels { IfOk result (λ moved. map (label_of_slot moved.0.items) moved.1.items
        ≡ map (label_of_slot words.now) slots.now) }
    ensures lengths { IfOk result (λ moved. map (λ slot. slot.len) moved.1.items
        ≡ map (λ slot. slot.len) slots.now) }
    ensures lies { IfOk result (λ moved. All (LiesIn moved.0.items) moved.1.items) }
    ensures few { IfOk result (λ moved. bits_of_slots moved.1.items
        ≤ 64 * length moved.0.items) }
    ensures cap { IfOk result (λ moved. length moved.0.items + need ≤ vec_capacity moved.0) }
    ensures bound { IfOk result (λ moved. length moved.0.items + need ≤ 2 ^ 56) }
{
    let mut fresh = Vec::with_capacity(alloc, room)?;
    let mut moved = Vec::with_capacity(alloc, slots.len())?;
    for slot in slots {
        let at = fresh.len();
        Bits::of_words(words, 64 * slot.at, slot.len).append_to(&mut fresh)?;
        moved.push(Slot { at, len: slot.len })?;
    }
    fresh.reserve(need)?;
    if fresh.len() > MOST - need {
        return Err(NoMemory);
    }
    Ok((fresh, moved))
}
