//! Versions of labels, each beside the number of its label.

ghost use Rattle.std.specs.Prelude.{◌≡◌, ◌<◌, ◌≤◌, ◌^◌, ◌++◌, ◌∷◌, [], length, replicate, slice_index_or, slice_set, IfOk};
ghost use Rattle.pls_watch.specs.inner.Numbers.{ArePlaces};

use crate::label_version::LabelVersion;
use pls_streams::NoMemory;
use std::alloc::Global;
use std::marker::Model;

/// Versions of labels with the numbers of these labels, side by side, so that one place of memory
/// has both. Seen as the list of the versions, that of the numbers, and for how many there is room.
#[derive(Drop)]
pub(crate) struct VersionList {
    items: Vec<LabelVersion>,
}

impl Model for VersionList {
    ghost use Rattle.std.specs.Prelude.{map};
    ghost use Rattle.std.specs.Vec.{vec_capacity};
    ghost use Rattle.pls_watch.specs.inner.Columns.{VersionColumns};

    ghost Value = { VersionColumns };

    ghost view = { λ list. record {
      versions = map (λ item. item.version) list.items.items;
      labels = map (λ item. item.label) list.items.items;
      room = vec_capacity list.items;
    } };
}

impl VersionList {
    /// An empty list with room for `room` versions. The one error is want of memory.
    pub(crate) fn with_room(alloc: Global, room: usize) -> Result<VersionList, NoMemory>
        ensures versions { IfOk result (λ list. list.versions ≡ []) }
        ensures labels { IfOk result (λ list. list.labels ≡ []) }
        ensures room { IfOk result (λ list. room ≤ list.room) }
    {
        let items = Vec::with_capacity(alloc, room)?;
        Ok(VersionList { items })
    }

    /// `count` first versions, of any labels. The one error is want of memory.
    pub(crate) fn noughts(alloc: Global, count: usize) -> Result<VersionList, NoMemory>
        ensures versions { IfOk result (λ list. list.versions ≡ replicate count 0) }
        ensures labels { IfOk result (λ list. length list.labels ≡ count) }
    {
        let none = LabelVersion {
            version: 0,
            label: 0,
        };
        let items = vec![in alloc; none; count]?;
        Ok(VersionList { items })
    }

    /// The first versions of so many labels, each with its place for its number. The one error is
    /// want of memory.
    pub(crate) fn first(alloc: Global, count: usize) -> Result<VersionList, NoMemory>
        requires few { count < 2 ^ 32 }
        ensures versions { IfOk result (λ list. list.versions ≡ replicate count 0) }
        ensures labels { IfOk result (λ list. ArePlaces count list.labels) }
    {
        let mut items = Vec::with_capacity(alloc, count)?;
        for place in 0..count {
            items.push(LabelVersion {
                version: 0,
                label: place as u32,
            })?;
        }
        Ok(VersionList { items })
    }

    pub(crate) fn len(&self) -> usize
        ensures { result ≡ length self.now.versions }
    {
        self.items.len()
    }

    /// The version at a place.
    #[inline(always)]
    pub(crate) fn get(&self, place: usize) -> LabelVersion
        requires { place < length self.now.versions }
        ensures version { result.version ≡ slice_index_or self.now.versions place result.version }
        ensures label { result.label ≡ slice_index_or self.now.labels place result.label }
    {
        self.items[place]
    }

    /// Puts another version at a place.
    #[inline(always)]
    pub(crate) fn set(&mut self, place: usize, item: LabelVersion)
        requires { place < length self.old.versions }
        ensures versions { self.new.versions ≡ slice_set self.old.versions place item.version }
        ensures labels { self.new.labels ≡ slice_set self.old.labels place item.label }
        ensures room { self.new.room ≡ self.old.room }
    {
        self.items[place] = item;
    }

    /// Puts a version behind the others, where there is room.
    #[inline(always)]
    pub(crate) fn push_reserved(&mut self, item: LabelVersion)
        requires { length self.old.versions < self.old.room }
        ensures versions { self.new.versions ≡ self.old.versions ++ item.version ∷ [] }
        ensures labels { self.new.labels ≡ self.old.labels ++ item.label ∷ [] }
        ensures room { self.new.room ≡ self.old.room }
    {
        self.items.push_reserved(item);
    }
}
