//! Rounds in which the touched nodes are judged.

ghost use Rattle.std.specs.Prelude.{◌≡◌, ◌<◌, ◌≤◌, [], false, length, replicate, slice_set, slice_get, IfOk, IfNone, IfSome, OnErr, OnOk, Some};
ghost use Rattle.pls_configuration.specs.declared.verdict.Verdict.{Verdict};
ghost use Rattle.pls_configuration.specs.Configuration.{ids_of};
ghost use Rattle.pls_streams.specs.Steps.{up_by};
ghost use Rattle.pls_labels.specs.Seen.{Seen, views};
ghost use Rattle.pls_scheme.specs.Judging.{round_by};
ghost use Rattle.pls_recheck.specs.Snapshot.{EndsEarly, IsCurrent, RiseTogether};
ghost use Rattle.pls_recheck.specs.inner.Flags.{AreCurrent, marked};

use crate::asks::{Asks, ByView};
use crate::edited_network::EditedNetwork;
use crate::judge::Judge;
use pls_configuration::Verdict;
use pls_facts::is_valid;
use pls_graph::Network;
use pls_labels::{LabelStore, View};
use pls_streams::{NoMemory, Steps};
use std::alloc::Global;

impl EditedNetwork {
    /// Asks the judge once for each touched node and for no other, in the order of the nodes, and
    /// gives their number. None is touched afterwards. The verdicts that are kept must be those of
    /// this judge, which they are from the start on, whatever the edits. The one error is want of
    /// memory: the nodes that were not checked are touched still.
    pub fn round<J: Judge>(
        &mut self,
        alloc: Global,
        judge: &mut J,
        steps: &mut Steps,
    ) -> Result<u32, NoMemory>
        requires { IsCurrent (J.judge judge.old) self.old }
        ensures network { self.new.network ≡ self.old.network }
        ensures labels { self.new.labels ≡ self.old.labels }
        ensures current { IsCurrent (J.judge judge.old) self.new }
        ensures judge { J.judge judge.new ≡ J.judge judge.old }
        ensures over { J.over judge.new ≡ J.over judge.old }
        ensures number { IfOk result (λ checked. checked ≡ length self.old.touched) }
        ensures none { OnOk result (self.new.touched ≡ []) }
        ensures spent { IfOk result
            (λ checked. J.spent judge.new ≡ up_by checked (J.spent judge.old)) }
        ensures steps { IfOk result (λ checked. steps.new ≡ up_by checked steps.old) }
        ensures refused { OnErr result (EndsEarly self.old.touched self.new.touched
            (J.spent judge.old) (J.spent judge.new) steps.old steps.new) }
    {
        self.round_by(alloc, &ByView, judge, steps)
    }

    // As `round`: asks once for each touched node, and for no other.
    pub(crate) fn round_by<C, A: Asks<C>>(
        &mut self,
        alloc: Global,
        asks: &A,
        counter: &mut C,
        steps: &mut Steps,
    ) -> Result<u32, NoMemory>
        requires fits { A.fits asks.now self.old.labels }
        requires current { IsCurrent (A.judge asks.now counter.old) self.old }
        ensures network { self.new.network ≡ self.old.network }
        ensures labels { self.new.labels ≡ self.old.labels }
        ensures current { IsCurrent (A.judge asks.now counter.old) self.new }
        ensures judge { A.judge asks.now counter.new ≡ A.judge asks.now counter.old }
        ensures over { A.over asks.now counter.new ≡ A.over asks.now counter.old }
        ensures number { IfOk result (λ checked. checked ≡ length self.old.touched) }
        ensures none { OnOk result (self.new.touched ≡ []) }
        ensures spent { IfOk result
            (λ checked. A.spent asks.now counter.new
            ≡ up_by checked (A.spent asks.now counter.old)) }
        ensures steps { IfOk result (λ checked. steps.new ≡ up_by checked steps.old) }
        ensures refused { OnErr result (EndsEarly self.old.touched self.new.touched
            (A.spent asks.now counter.old) (A.spent asks.now counter.new) steps.old steps.new) }
    {
        is_valid(&self.net);
        forget_all(&mut self.around);
        judge_flagged(
            alloc,
            &self.net,
            &self.labels,
            &mut self.flags,
            &mut self.kept,
            asks,
            counter,
            steps,
        )
    }

    /// The identity and the verdict of each node, or `None` where a node is touched. It takes no
    /// memory. Where the kept verdicts are those of a judge, they are its full round.
    pub fn verdicts(&self) -> Option<&[(u32, Verdict)]>
        ensures touched { IfNone result (1 ≤ length self.now.touched) }
        ensures none { IfSome result (λ _. self.now.touched ≡ []) }
        ensures all { IfSome result (λ found. (judge : Seen → Verdict) → IsCurrent judge self.now
            → found.now ≡ round_by judge self.now.network self.now.labels) }
    {
        if self.touched_count() > 0 {
            return None;
        }
        Some(self.kept.as_slice())
    }
}

// Forgets which nodes have all neighbours touched: a round takes flags back, even one that ends
// early.
fn forget_all(around: &mut Vec<bool>)
    ensures { around.new.items ≡ replicate (length around.old.items) false }
{
    around.fill(false);
}

// Asks about the flagged nodes, and takes their flags back.
fn judge_flagged<'a, C, A: Asks<C>>(
    alloc: Global,
    net: &Network,
    labels: &'a LabelStore,
    flags: &mut Vec<bool>,
    kept: &mut Vec<(u32, Verdict)>,
    asks: &A,
    counter: &mut C,
    steps: &mut Steps,
) -> Result<u32, NoMemory>
    requires a_label { length labels.now ≡ length net.now }
    requires a_flag { length flags.old.items ≡ length net.now }
    requires a_verdict { length kept.old.items ≡ length net.now }
    requires fits { A.fits asks.now labels.now }
    requires current { AreCurrent (A.judge asks.now counter.old) net.now labels.now flags.old.items
        kept.old.items }
    ensures a_flag { length flags.new.items ≡ length net.now }
    ensures a_verdict { length kept.new.items ≡ length net.now }
    ensures current { AreCurrent (A.judge asks.now counter.old) net.now labels.now flags.new.items
        kept.new.items }
    ensures judge { A.judge asks.now counter.new ≡ A.judge asks.now counter.old }
    ensures over { A.over asks.now counter.new ≡ A.over asks.now counter.old }
    ensures number { IfOk result
        (λ checked. checked ≡ length (marked (ids_of net.now) flags.old.items)) }
    ensures none { OnOk result (marked (ids_of net.now) flags.new.items ≡ []) }
    ensures spent { IfOk result
        (λ checked. A.spent asks.now counter.new ≡ up_by checked (A.spent asks.now counter.old)) }
    ensures steps { IfOk result (λ checked. steps.new ≡ up_by checked steps.old) }
    ensures refused { OnErr result (EndsEarly (marked (ids_of net.now) flags.old.items)
        (marked (ids_of net.now) flags.new.items) (A.spent asks.now counter.old)
        (A.spent asks.now counter.new) steps.old steps.new) }
{
    let mut checked = 0;
    let mut view = View::blank(alloc);
    for i in 0..net.len() {
        if flags[i] {
            let found = judge_at(alloc, &mut view, net, labels, i, asks, counter, steps)?;
            keep_answer(flags, kept, i, found);
            checked += 1;
        }
    }
    Ok(checked)
}

// Keeps the verdict of the node at place `i`, and takes its flag back.
fn keep_answer(
    flags: &mut Vec<bool>,
    kept: &mut Vec<(u32, Verdict)>,
    i: usize,
    found: (u32, Verdict),
)
    requires flag { i < length flags.old.items }
    requires verdict { i < length kept.old.items }
    ensures flag { flags.new.items ≡ slice_set flags.old.items i false }
    ensures verdict { kept.new.items ≡ slice_set kept.old.items i found }
{
    flags[i] = false;
    kept[i] = found;
}

// The identity and verdict of node `i`; raises count and steps by one, on an error by at most one.
#[inline(always)]
fn judge_at<'a, C, A: Asks<C>>(
    alloc: Global,
    view: &mut View<'a>,
    net: &Network,
    labels: &'a LabelStore,
    i: usize,
    asks: &A,
    counter: &mut C,
    steps: &mut Steps,
) -> Result<(u32, Verdict), NoMemory>
    requires a_label { length labels.now ≡ length net.now }
    requires within { i < length net.now }
    requires fits { A.fits asks.now labels.now }
    ensures judged { IfOk result (λ found. (view : Seen)
        → slice_get (views net.now labels.now) i ≡ Some view
        → found ≡ (view.id, A.judge asks.now counter.old view)) }
    ensures judge { A.judge asks.now counter.new ≡ A.judge asks.now counter.old }
    ensures over { A.over asks.now counter.new ≡ A.over asks.now counter.old }
    ensures spent { OnOk result
        (A.spent asks.now counter.new ≡ up_by 1 (A.spent asks.now counter.old)) }
    ensures steps { OnOk result (steps.new ≡ up_by 1 steps.old) }
    ensures early { OnErr result (RiseTogether 0 (A.spent asks.now counter.old)
        (A.spent asks.now counter.new) steps.old steps.new) }
{
    view.turn_to(net, labels, i)?;
    let verdict = asks.ask_at(alloc, view, net, labels, i, counter, steps)?;
    Ok((view.id, verdict))
}
