//! What all labels say.

ghost use Rattle.std.specs.Prelude.{◌≡◌, ◌≤◌, ◌<◌, All, length, map, slice_get, IfOk, IfSome};
ghost use Rattle.std.specs.List.{list_all};
ghost use Rattle.std.specs.Option.{is_some, option_copied};
ghost use Rattle.pls_compile.specs.FieldTable.{said_at};
ghost use Rattle.pls_compile.specs.ReadLabels.{numbers_in};

use crate::fields::read_fields;
use pls_labels::Labels;
use pls_numbers::FieldKind;
use pls_streams::NoMemory;
use std::alloc::Global;
use std::marker::Model;

// What all labels say, each read once, seen as the list of it: the numbers of a label's fields, or
// nothing where it cannot be read.
#[derive(Drop)]
pub(crate) struct FieldTable {
    // How many fields a label has: so many numbers at the front of an entry count.
    fields: usize,
    entries: Vec<Option<[u64; 8]>>,
}

impl Model for FieldTable {
    ghost use Rattle.std.specs.Prelude.{◌≤◌, ℕ, List, Option, map};
    ghost use Rattle.pls_compile.specs.FieldTable.{front_of};

    ghost Value = { List (Option (List ℕ)) };

    ghost view = { λ table. map (front_of table.fields) table.entries.items };

    ghost invariant = { λ table. table.fields ≤ 8 };
}

impl FieldTable {
    pub(crate) fn of<L: Labels>(
        alloc: Global,
        kinds: &[FieldKind],
        labels: &L,
    ) -> Result<FieldTable, NoMemory>
        requires { length kinds.now ≤ 8 }
        ensures { IfOk result
            (λ table. table ≡ map (numbers_in kinds.now) (L.listed labels.now)) }
    {
        let mut entries = Vec::with_capacity(alloc, labels.len())?;
        for i in 0..labels.len() {
            entries.push(read_fields(kinds, &labels.bits(i)))?;
        }
        Ok(FieldTable {
            fields: kinds.len(),
            entries,
        })
    }

    // `None` where the label could not be read.
    #[inline(always)]
    pub(crate) fn label(&self, place: usize) -> Option<&[u64]>
        requires { place < length self.now }
        ensures { option_copied result ≡ said_at self.now place }
    {
        match &self.entries[place] {
            Some(numbers) => Some(&numbers[..self.fields]),
            None => None,
        }
    }

    #[inline(always)]
    pub(crate) fn are_read(&self, places: &[u32]) -> bool
        requires { All (λ place. place < length self.now) places.now }
        ensures { result ≡ list_all (λ place. is_some (said_at self.now place)) places.now }
    {
        for p in 0..places.len() {
            if self.label(places[p] as usize).is_none() {
                return false;
            }
        }
        true
    }
}

// 0 where the label lacks the field.
#[inline(always)]
pub(crate) fn number_of(label: &[u64], field: u8) -> u64
    ensures { IfSome (slice_get label.now field) (λ value. result ≡ value) }
{
    let field = field as usize;
    if field < label.len() { label[field] } else { 0 }
}
