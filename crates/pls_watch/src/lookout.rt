//! A watch with its looks.

ghost use Rattle.std.specs.Prelude.{◌≡◌, ◌<◌, ◌+◌, ◌++◌, ◌∷◌, [], length, IfErr, IfOk, None, OnErr, OnOk, Some};
ghost use Rattle.pls_scheme.specs.Judging.{RoseByAtMost};
ghost use Rattle.pls_report.specs.Look.{look_text};
ghost use Rattle.pls_watch.specs.Watching.{look_of, watch_refusal, watching};

use crate::change::{Change, forget, no_changes, note};
use crate::renewing::LookRoom;
use crate::watch::Watch;
use pls_report::{LookRow, LookRows};
use pls_scheme::Checker;
use pls_sim::EventError;
use pls_streams::{NoMemory, Steps};
use pls_watch_part::WatchEvent;
use std::alloc::Global;
use std::marker::Model;

/// A [`Watch`] with the checker of its looks, seen as the checker, what is watched, what was shown
/// at the last look, and the texts of the looks that were kept.
#[derive(Drop)]
pub struct Lookout<'n, 'k, K: Checker> {
    watch: Watch<'n>,
    checker: &'k K,
    shown: LookRows,
    // For each node what of it changed since the last look.
    changes: Vec<Change>,
    room: LookRoom,
}

impl<'n, 'k, K: Checker> Model for Lookout<'n, 'k, K> {
    ghost use Rattle.pls_watch.specs.Watching.{Shown};
    ghost use Rattle.pls_watch.specs.inner.Current.{IsCurrent};

    ghost Value = { Shown K };

    ghost view = { λ lookout. record {
      checker = lookout.checker.now;
      watched = lookout.watch;
      rows = lookout.shown.rows;
      kept = lookout.shown.kept;
    } };

    ghost invariant = { λ lookout. IsCurrent (K.judge lookout.checker.now) lookout.watch
        lookout.changes.items lookout.shown.rows };
}

impl<'n, 'k, K: Checker> Lookout<'n, 'k, K> {
    /// A first look at a watch, at which all nodes are judged. The one error is want of memory: the
    /// watch is dropped then.
    pub fn over(
        alloc: Global,
        watch: Watch<'n>,
        checker: &'k K,
        steps: &mut Steps,
    ) -> Result<Lookout<'n, 'k, K>, NoMemory>
        ensures checker { IfOk result (λ lookout. lookout.checker ≡ checker.now) }
        ensures watched { IfOk result (λ lookout. lookout.watched ≡ watch.entry) }
        ensures rows { IfOk result
            (λ lookout. lookout.rows ≡ look_of (K.judge checker.now) watch.entry) }
        ensures none { IfOk result (λ lookout. lookout.kept ≡ []) }
        ensures few_steps { RoseByAtMost (length watch.entry.network) steps.old steps.new }
    {
        let rows = watch.outcomes(alloc, checker, steps)?;
        let changes = no_changes(alloc, rows.len())?;
        let shown = LookRows::of(alloc, rows)?;
        Ok(Lookout {
            watch,
            checker,
            shown,
            changes,
            room: LookRoom::new(alloc),
        })
    }

    /// Takes one more event, as [`Watch::step`] does. What was shown stays until the next look. The
    /// first label that a node gets since the last look takes a step for each of its ports besides.
    pub fn step(&mut self, event: &WatchEvent) -> Result<(), EventError>
        ensures taken { OnOk result (self.new.watched ≡ watching event.now self.old.watched) }
        ensures checker { self.new.checker ≡ self.old.checker }
        ensures rows { self.new.rows ≡ self.old.rows }
        ensures kept { self.new.kept ≡ self.old.kept }
        ensures applies { OnOk result (watch_refusal self.old.watched event.now ≡ None) }
        ensures refused { IfErr result
            (λ error. watch_refusal self.old.watched event.now ≡ Some error) }
        ensures unchanged { OnErr result (self.new ≡ self.old) }
    {
        let place = self.watch.step_at(event)?;
        note(&self.watch, &mut self.changes, place, event);
        Ok(())
    }

    /// Looks again. A node that knows what it knew at the last look is not judged, and its stale
    /// ports are only looked for where a neighbour got a label. It takes constant time for each
    /// node, and for each port of those of which something changed, and what the checker takes for
    /// the views of those that are judged. The one error is want of memory: it may then be that not
    /// all rows were renewed.
    pub fn look(&mut self, alloc: Global, steps: &mut Steps) -> Result<(), NoMemory>
        ensures watched { self.new.watched ≡ self.old.watched }
        ensures checker { self.new.checker ≡ self.old.checker }
        ensures rows { OnOk result
            (self.new.rows ≡ look_of (K.judge self.old.checker) self.old.watched) }
        ensures kept { self.new.kept ≡ self.old.kept }
        ensures few_steps { RoseByAtMost (length self.old.watched.network) steps.old steps.new }
    {
        let changes = self.changes.as_slice();
        self.watch.renew_all(
            alloc,
            changes,
            &mut self.shown,
            &mut self.room,
            self.checker,
            steps,
        )?;
        forget(&mut self.changes);
        Ok(())
    }

    /// What was shown at the last look, a row for each node in their order.
    pub fn rows(&self) -> &[LookRow]
        ensures { result.now ≡ self.now.rows }
    {
        self.shown.rows()
    }

    /// What was shown at the last look.
    pub fn shown(&self) -> &LookRows
        ensures rows { result.now.rows ≡ self.now.rows }
        ensures kept { result.now.kept ≡ self.now.kept }
    {
        &self.shown
    }

    /// Keeps what was shown at the last look, as [`LookRows::keep_look`] does. The one error is
    /// want of memory: nothing that is seen changes then.
    pub fn keep_look(&mut self, alloc: Global) -> Result<(), NoMemory>
        ensures kept { OnOk result (self.new ≡ record self.old {
          kept = self.old.kept ++ look_text (length self.old.kept + 1) self.old.rows ∷ [];
        }) }
        ensures unchanged { OnErr result (self.new ≡ self.old) }
    {
        self.shown.keep_look(alloc)
    }

    /// What was shown at the last look, and the looks that were kept; the rest is dropped.
    pub fn into_shown(self) -> LookRows
        ensures rows { result.rows ≡ self.entry.rows }
        ensures kept { result.kept ≡ self.entry.kept }
    {
        self.shown
    }
}
