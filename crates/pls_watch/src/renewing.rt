//! The rows of a look, renewed as far as something changed.

ghost use Rattle.std.specs.Prelude.{◌≡◌, ◌<◌, ℕ, List, length, slice_get, slice_set, OnErr, OnOk, Some};
ghost use Rattle.pls_configuration.specs.declared.row.NodeRow.{NodeRow};
ghost use Rattle.pls_scheme.specs.Judging.{RoseByAtMost};
ghost use Rattle.pls_sim.specs.declared.outcome.Outcome.{Outcome};
ghost use Rattle.pls_watch.specs.Watching.{look_of, stale_in};
ghost use Rattle.pls_watch.specs.inner.Current.{IsCurrent, IsRenewed, look_row};
ghost use Rattle.pls_watch.specs.inner.Known.{IsTable};

use crate::change::Change;
use crate::watch::Watch;
use pls_report::LookRows;
use pls_scheme::Checker;
use pls_sim::{PortBuffer, PortNumbers};
use pls_streams::{NoMemory, Steps};
use std::alloc::Global;

/// What looks need for one node after another: the table of what the node knows, and the list of
/// its stale ports.
#[derive(Drop)]
pub(crate) struct LookRoom {
    table: Vec<u32>,
    stale: Vec<u32>,
}

impl LookRoom {
    /// Room that is taken at the first look.
    pub(crate) fn new(alloc: Global) -> LookRoom {
        LookRoom {
            table: Vec::new(alloc),
            stale: Vec::new(alloc),
        }
    }
}

impl<'n> Watch<'n> {
    /// Looks again: renews the rows of the nodes of which something changed. The one error is want
    /// of memory: it may then be that not all were renewed.
    pub(crate) fn renew_all<K: Checker>(
        &self,
        alloc: Global,
        changes: &[Change],
        shown: &mut LookRows,
        room: &mut LookRoom,
        checker: &K,
        steps: &mut Steps,
    ) -> Result<(), NoMemory>
        requires { IsCurrent (K.judge checker.now) self.now changes.now shown.old.rows }
        ensures current { IsCurrent (K.judge checker.now) self.now changes.now shown.new.rows }
        ensures rows { OnOk result (shown.new.rows ≡ look_of (K.judge checker.now) self.now) }
        ensures kept { shown.new.kept ≡ shown.old.kept }
        ensures few_steps { RoseByAtMost (length self.now.network) steps.old steps.new }
    {
        room.table.clear();
        room.table.resize(changes.len(), 0)?;
        for i in 0..changes.len() {
            self.renew(alloc, i, changes, shown, room, checker, steps)?;
        }
        Ok(())
    }

    // Renews the row of the node at place `i` only as far as the node changed. What it calls stands
    // apart, since nothing changed at most nodes.
    #[inline(always)]
    fn renew<K: Checker>(
        &self,
        alloc: Global,
        i: usize,
        changes: &[Change],
        shown: &mut LookRows,
        room: &mut LookRoom,
        checker: &K,
        steps: &mut Steps,
    ) -> Result<(), NoMemory>
        requires place { i < length self.now.network }
        requires current { IsCurrent (K.judge checker.now) self.now changes.now shown.old.rows }
        requires table { IsTable self.now room.old.table.items }
        ensures table { IsTable self.now room.new.table.items }
        ensures renewed { OnOk result (IsRenewed (K.judge checker.now) self.now i
            shown.old.rows shown.new.rows) }
        ensures kept { shown.new.kept ≡ shown.old.kept }
        ensures unchanged { OnErr result (shown.new ≡ shown.old) }
        ensures few_steps { RoseByAtMost 1 steps.old steps.new }
    {
        match changes[i] {
            Change::Nothing => Ok(()),
            Change::Beside => self.renew_stale(alloc, i, shown, &mut room.stale),
            Change::Held | Change::Label => {
                self.renew_row(alloc, i, shown, &mut room.table, checker, steps)
            }
        }
    }

    // Shows the ports of the node at place `i` as stale that are: what else is shown is as it was.
    #[inline(never)]
    fn renew_stale(
        &self,
        alloc: Global,
        i: usize,
        shown: &mut LookRows,
        stale: &mut Vec<u32>,
    ) -> Result<(), NoMemory>
        requires place { i < length self.now.network }
        requires shown { i < length shown.old.rows }
        ensures stale { OnOk result ((row : NodeRow) (id : ℕ) (outcome : Outcome)
            (before : List ℕ) → slice_get self.now.network i ≡ Some row
            → slice_get shown.old.rows i ≡ Some (id, outcome, before)
            → shown.new.rows ≡ slice_set shown.old.rows i (id, outcome, stale_in self.now row)) }
        ensures kept { shown.new.kept ≡ shown.old.kept }
        ensures unchanged { OnErr result (shown.new ≡ shown.old) }
    {
        self.list_stale(i, stale)?;
        let stale = stale.as_slice();
        if stale == shown.rows()[i].stale() {
            return Ok(());
        }
        let stale = PortNumbers::from_buffer(PortBuffer::from_slice(alloc, stale)?);
        shown.replace_stale(i, stale);
        Ok(())
    }

    // Shows what is now true of the node at place `i`.
    #[inline(never)]
    fn renew_row<K: Checker>(
        &self,
        alloc: Global,
        i: usize,
        shown: &mut LookRows,
        table: &mut Vec<u32>,
        checker: &K,
        steps: &mut Steps,
    ) -> Result<(), NoMemory>
        requires place { i < length self.now.network }
        requires shown { i < length shown.old.rows }
        requires table { IsTable self.now table.old.items }
        ensures table { IsTable self.now table.new.items }
        ensures row { OnOk result ((row : NodeRow) → slice_get self.now.network i ≡ Some row
            → shown.new.rows ≡ slice_set shown.old.rows i
            (look_row (K.judge checker.now) self.now row)) }
        ensures kept { shown.new.kept ≡ shown.old.kept }
        ensures unchanged { OnErr result (shown.new ≡ shown.old) }
        ensures few_steps { RoseByAtMost 1 steps.old steps.new }
    {
        let row = self.look_at(alloc, i, table, checker, steps)?;
        shown.replace(i, row);
        Ok(())
    }
}
