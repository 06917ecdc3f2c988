//! What is other in a text than in the one before it.

ghost use Rattle.std.specs.Prelude.{◌≡◌, ◌≤◌, ◌+◌, ◌++◌, ◌∷◌, [], drop, length, take, IfOk, OnOk};
ghost use Rattle.std.specs.Vec.{vec_capacity};
ghost use Rattle.pls_report.specs.inner.Kept.{row_line};
ghost use Rattle.pls_report.specs.inner.Patches.{patch_text};

use crate::look_row::LookRow;
use crate::node_line::add_line;
use pls_streams::NoMemory;
use std::alloc::Global;
use std::marker::Model;

/// How many bytes of a text stay, how many go behind them, and how long the line is that comes in
/// their place, with its line feed.
#[derive(Clone, Copy, Debug)]
pub(crate) struct PatchPlace {
    stays: usize,
    goes: usize,
    length: usize,
}

/// Patches of a text, one behind another, seen as their list.
#[derive(Drop)]
pub(crate) struct Patches {
    // The lines that come, one behind another.
    lines: Vec<u8>,
    places: Vec<PatchPlace>,
}

impl Model for Patches {
    ghost use Rattle.std.specs.Prelude.{◌≡◌, List, length};
    ghost use Rattle.pls_report.specs.inner.Patches.{Patch, length_placed, patches_at};

    ghost Value = { List Patch };

    ghost view = { λ patches. patches_at patches.places.items patches.lines.items };

    ghost invariant = { λ patches. length_placed patches.places.items
        ≡ length patches.lines.items };
}

impl Patches {
    /// None.
    pub(crate) fn new(alloc: Global) -> Patches
        ensures { result ≡ [] }
    {
        Patches {
            lines: Vec::new(alloc),
            places: Vec::new(alloc),
        }
    }

    /// Adds a patch: behind bytes that stay the line of a row comes in the place of bytes that go.
    /// Gives the length of the line. The one error is want of memory.
    pub(crate) fn add(
        &mut self,
        stays: usize,
        goes: usize,
        row: &LookRow,
    ) -> Result<usize, NoMemory>
        ensures added { OnOk result (self.new ≡ self.old
            ++ record { stays = stays; goes = goes; comes = row_line row.now } ∷ []) }
        ensures length { IfOk result (λ count. count ≡ length (row_line row.now)) }
    {
        // Asked for first: a line without a place would be taken for that of the next patch.
        self.places.reserve(1)?;
        let start = self.lines.len();
        add_line(&mut self.lines, row.id(), row.outcome(), row.stale())?;
        let length = self.lines.len() - start;
        self.places.push_reserved(PatchPlace {
            stays,
            goes,
            length,
        });
        Ok(length)
    }

    /// Gives back the memory that no patch takes: patches are kept until all looks are written.
    pub(crate) fn shrink(&mut self)
        ensures { self.new ≡ self.old }
    {
        self.lines.shrink_to_fit();
        self.places.shrink_to_fit();
    }

    /// Makes the next text of one, in the place of what was in `after`, which has room for it.
    pub(crate) fn apply(&self, before: &[u8], after: &mut Vec<u8>)
        requires { length (patch_text self.now before.now) ≤ vec_capacity after.old }
        ensures text { after.new.items ≡ patch_text self.now before.now }
        ensures room { vec_capacity after.old ≤ vec_capacity after.new }
    {
        after.clear();
        let (mut left, mut lines) = (before, self.lines.as_slice());
        for place in &self.places {
            let PatchPlace {
                stays,
                goes,
                length,
            } = *place;
            add(after, front(left, stays));
            add(after, front(lines, length));
            left = behind(behind(left, stays), goes);
            lines = behind(lines, length);
        }
        add(after, left);
    }
}

// Adds bytes for which there is room.
#[inline(always)]
fn add(text: &mut Vec<u8>, bytes: &[u8])
    requires { length text.old.items + length bytes.now ≤ vec_capacity text.old }
    ensures text { text.new.items ≡ text.old.items ++ bytes.now }
    ensures room { vec_capacity text.old ≤ vec_capacity text.new }
{
    text.extend_from_slice(bytes).unwrap();
}

// The first so many bytes, or all.
#[inline(always)]
fn front(bytes: &[u8], count: usize) -> &[u8]
    ensures { result.now ≡ take count bytes.now }
{
    &bytes[..count.min(bytes.len())]
}

// What is behind them.
#[inline(always)]
fn behind(bytes: &[u8], count: usize) -> &[u8]
    ensures { result.now ≡ drop count bytes.now }
{
    &bytes[count.min(bytes.len())..]
}
