//! The rows of a look, kept for the next one.

ghost use Rattle.std.specs.Prelude.{◌≡◌, ◌+◌, ◌<◌, ◌++◌, ◌∷◌, [], ℕ, List, false, length, map, slice_get, slice_set, IfOk, OnErr, OnOk, Some};
ghost use Rattle.pls_sim.specs.declared.outcome.Outcome.{Outcome};
ghost use Rattle.pls_report.specs.Look.{look_is_well, look_text};
ghost use Rattle.pls_report.specs.inner.Kept.{row_line};
ghost use Rattle.pls_report.specs.inner.Lines.{counts_of};
ghost use Rattle.pls_report.specs.inner.Renewed.{AreRenewed};

use crate::kept_looks::KeptLooks;
use crate::line_kind::{LineKind, LookCounts};
use crate::look_row::LookRow;
use pls_sim::PortNumbers;
use pls_streams::NoMemory;
use std::alloc::Global;
use std::marker::Model;

/// What a look shows of all nodes, seen as the rows, and the texts of the looks that were kept.
/// From one look to the next most nodes are as they were: the line of such a node is kept once.
#[derive(Drop)]
pub struct LookRows {
    rows: Vec<LookRow>,
    counts: LookCounts,
    // Whether the row of a node is another than at the last look in `kept`.
    changed: Vec<bool>,
    kept: KeptLooks,
}

impl Model for LookRows {
    ghost use Rattle.std.specs.Prelude.{◌≡◌, ◌≤◌, length};
    ghost use Rattle.pls_report.specs.LookRows.{ShownRows};
    ghost use Rattle.pls_report.specs.inner.Lines.{counts_of};
    ghost use Rattle.pls_report.specs.inner.Renewed.{AreRenewed};

    ghost Value = { ShownRows };

    ghost view = { λ look. record {
      rows = look.rows.items;
      kept = look.kept.texts;
    } };

    ghost invariant = { λ look. (look.counts ≡ counts_of look.rows.items)
        × AreRenewed look.rows.items look.changed.items look.kept.lines };
}

impl LookRows {
    /// A look that shows these rows; none is kept. The one error is want of memory.
    pub fn of(alloc: Global, rows: Vec<LookRow>) -> Result<LookRows, NoMemory>
        ensures rows { IfOk result (λ look. look.rows ≡ rows.items) }
        ensures none { IfOk result (λ look. look.kept ≡ []) }
    {
        let kept = KeptLooks::none(alloc, rows.len())?;
        let changed = vec![in alloc; true; rows.len()]?;
        let counts = LookCounts::of(rows.as_slice());
        Ok(LookRows {
            rows,
            counts,
            changed,
            kept,
        })
    }

    /// The rows, in the order of the nodes.
    pub fn rows(&self) -> &[LookRow]
        ensures { result.now ≡ self.now.rows }
    {
        self.rows.as_slice()
    }

    /// Puts another row in the place of that at `i`.
    pub fn replace(&mut self, i: usize, row: LookRow)
        requires { i < length self.old.rows }
        ensures rows { self.new.rows ≡ slice_set self.old.rows i row }
        ensures kept { self.new.kept ≡ self.old.kept }
    {
        self.counts.take_away(LineKind::of(&self.rows[i]));
        self.counts.add(LineKind::of(&row));
        self.rows[i] = row;
        self.changed[i] = true;
    }

    /// Shows other ports of the node at place `i` as stale.
    pub fn replace_stale(&mut self, i: usize, stale: PortNumbers)
        requires { i < length self.old.rows }
        ensures rows { (id : ℕ) (outcome : Outcome) (before : List ℕ)
            → slice_get self.old.rows i ≡ Some (id, outcome, before)
            → self.new.rows ≡ slice_set self.old.rows i (id, outcome, stale) }
        ensures kept { self.new.kept ≡ self.old.kept }
    {
        let row = &mut self.rows[i];
        self.counts.take_away(LineKind::of(row));
        row.set_stale(stale);
        self.counts.add(LineKind::of(row));
        self.changed[i] = true;
    }

    /// Keeps the look as it is, numbered behind those that were kept, from 1. It makes the lines of
    /// the rows that are others than at the last one that was kept. The one error is want of
    /// memory: nothing that is seen changes then.
    pub fn keep_look(&mut self, alloc: Global) -> Result<(), NoMemory>
        ensures rows { self.new.rows ≡ self.old.rows }
        ensures kept { OnOk result (self.new.kept ≡ self.old.kept
            ++ look_text (length self.old.kept + 1) self.old.rows ∷ []) }
        ensures unchanged { OnErr result (self.new ≡ self.old) }
    {
        let rows = self.rows.as_slice();
        self.kept
            .keep(alloc, rows, self.changed.as_slice(), self.counts)?;
        self.changed.fill(false);
        Ok(())
    }

    /// The looks that were kept.
    pub(crate) fn into_kept(self) -> KeptLooks
        ensures { result.texts ≡ self.kept }
    {
        self.kept
    }

    /// Whether all nodes accept, and no port is stale.
    pub fn is_well(&self) -> bool
        ensures { result ≡ look_is_well self.now.rows }
    {
        self.counts.rejecting == 0 && self.counts.waiting == 0 && self.counts.stale == 0
    }

    /// How many nodes reject, how many wait, and how many have a line with stale ports.
    pub(crate) fn counts(&self) -> LookCounts
        ensures { result ≡ counts_of self.now.rows }
    {
        self.counts
    }
}
