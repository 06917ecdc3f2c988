//! Who is asked about the node at a place.

ghost use Rattle.std.specs.Prelude.{◌≡◌, ◌<◌, ℕ, List, Bool, Some, IfOk, length, slice_get};
ghost use Rattle.pls_configuration.specs.declared.verdict.Verdict.{Verdict};
ghost use Rattle.pls_streams.specs.Steps.{up_by};
ghost use Rattle.pls_labels.specs.Seen.{Seen, views};

use crate::judge::Judge;
use pls_configuration::Verdict;
use pls_graph::Network;
use pls_labels::{LabelStore, View};
use pls_streams::{NoMemory, Steps};
use std::alloc::Global;

/// A way to ask about the node at a place. The counter counts how often it is asked.
pub(crate) trait Asks<C> {
    // The verdict on a view.
    ghost judge: { Self → C → Seen → Verdict };

    // How often was asked.
    ghost spent: { Self → C → ℕ };

    // What else stays of the counter.
    ghost over: { Self → C → ℕ };

    // It can be asked under these labels.
    ghost fits: { Self → List (List Bool) → Type 0 };

    /// The verdict on the view of the node at place i. Whatever it answers, the count and the steps
    /// rise by one. The one error is want of memory.
    fn ask_at(
        &self,
        alloc: Global,
        view: &View<'_>,
        net: &Network,
        labels: &LabelStore,
        i: usize,
        counter: &mut C,
        steps: &mut Steps,
    ) -> Result<Verdict, NoMemory>
        requires a_label { length labels.now ≡ length net.now }
        requires within { i < length net.now }
        requires fits { fits self.now labels.now }
        requires shows { slice_get (views net.now labels.now) i ≡ Some view.now }
        ensures judged { IfOk result (λ verdict. verdict ≡ judge self.now counter.old view.now) }
        ensures judge { judge self.now counter.new ≡ judge self.now counter.old }
        ensures over { over self.now counter.new ≡ over self.now counter.old }
        ensures spent { spent self.now counter.new ≡ up_by 1 (spent self.now counter.old) }
        ensures steps { steps.new ≡ up_by 1 steps.old };
}

/// Asks a judge, who counts by itself, about the view.
pub(crate) struct ByView;

impl<J: Judge> Asks<J> for ByView {
    ghost use Rattle.std.specs.Prelude.{⊤};

    ghost judge = { λ _ judge. J.judge judge };

    ghost spent = { λ _ judge. J.spent judge };

    ghost over = { λ _ judge. J.over judge };

    ghost fits = { λ _ _. ⊤ };

    fn ask_at(
        &self,
        alloc: Global,
        view: &View<'_>,
        _net: &Network,
        _labels: &LabelStore,
        _i: usize,
        counter: &mut J,
        steps: &mut Steps,
    ) -> Result<Verdict, NoMemory> {
        counter.verify(alloc, view, steps)
    }
}
