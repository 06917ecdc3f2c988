//! A network and its labels with their judge.

ghost use Rattle.std.specs.Prelude.{◌≡◌, ◌≤◌, [], length, None, IfErr, IfNone, IfOk, IfSome, OnErr, OnOk};
ghost use Rattle.pls_configuration.specs.Configuration.{ids_of};
ghost use Rattle.pls_streams.specs.Steps.{up_by};
ghost use Rattle.pls_edits.specs.Edited.{FitsNum, RefusesWith, edit_refusal, edited, relabelled};
ghost use Rattle.pls_scheme.specs.Judging.{round_by};
ghost use Rattle.pls_recheck.specs.After.{touched_after};
ghost use Rattle.pls_recheck.specs.Snapshot.{EndsEarly};

use crate::edited_network::EditedNetwork;
use crate::judge::Judge;
use pls_configuration::Verdict;
use pls_edits::{Edit, EditError};
use pls_graph::Network;
use pls_labels::LabelStore;
use pls_streams::{NoMemory, Steps};
use std::alloc::Global;
use std::marker::Model;

/// An [`EditedNetwork`] with the judge of all its rounds, seen as the record `Rechecked`.
///
/// What is known of a value that a judge borrows, as of the bench of a `BenchJudge`, is lost where
/// the judge is moved in here and out again. Who has to count a bench's questions lends the judge
/// to each [`EditedNetwork::round`] instead.
#[derive(Drop)]
pub struct Recheck<J: Judge> {
    judge: J,
    core: EditedNetwork,
}

impl<J: Judge> Model for Recheck<J> {
    ghost use Rattle.pls_recheck.specs.Rechecked.{Rechecked};
    ghost use Rattle.pls_recheck.specs.Snapshot.{IsCurrent};

    ghost Value = { Rechecked J };

    ghost view = { λ recheck. record {
      network = recheck.core.network;
      labels = recheck.core.labels;
      judge = recheck.judge;
      touched = recheck.core.touched;
    } };

    ghost invariant = { λ recheck. IsCurrent (J.judge recheck.judge) recheck.core };
}

impl<J: Judge + Drop> Recheck<J> {
    /// The network with these labels, one a node, and this judge, which is not asked yet. All
    /// nodes are touched. The one error is want of memory: all three values are dropped then.
    pub fn start(
        alloc: Global,
        net: Network,
        labels: LabelStore,
        judge: J,
    ) -> Result<Recheck<J>, NoMemory>
        requires { length labels ≡ length net }
        ensures network { IfOk result (λ recheck. recheck.network ≡ net) }
        ensures labels { IfOk result (λ recheck. recheck.labels ≡ labels) }
        ensures judge { IfOk result (λ recheck. recheck.judge ≡ judge) }
        ensures all { IfOk result (λ recheck. recheck.touched ≡ ids_of net) }
    {
        let core = EditedNetwork::start(alloc, net, labels)?;
        Ok(Recheck { judge, core })
    }
}

impl<J: Judge> Recheck<J> {
    /// Makes an edit, and touches the nodes whose view it may change: [`EditedNetwork::apply`].
    pub fn apply(&mut self, edit: &Edit) -> Result<(), EditError>
        requires { FitsNum edit.now }
        ensures network { OnOk result
            (self.new.network ≡ edited edit.now self.old.network) }
        ensures labels { OnOk result
            (self.new.labels ≡ relabelled edit.now self.old.network self.old.labels) }
        ensures touched { OnOk result
            (self.new.touched ≡ touched_after edit.now self.old.network self.old.touched) }
        ensures judge { self.new.judge ≡ self.old.judge }
        ensures allowed { OnOk result
            (edit_refusal edit.now self.old.network self.old.labels ≡ None) }
        ensures refused { IfErr result (λ error. RefusesWith edit.now
            (edit_refusal edit.now self.old.network self.old.labels) error) }
        ensures unchanged { OnErr result (self.new ≡ self.old) }
    {
        self.core.apply(edit)?;
        Ok(())
    }

    /// Asks the judge once for each touched node and for no other, in the order of the nodes, and
    /// gives their number. None is touched afterwards. The one error is want of memory: the nodes
    /// that were not checked are touched still.
    pub fn round(&mut self, alloc: Global, steps: &mut Steps) -> Result<u32, NoMemory>
        ensures network { self.new.network ≡ self.old.network }
        ensures labels { self.new.labels ≡ self.old.labels }
        ensures judge { J.judge self.new.judge ≡ J.judge self.old.judge }
        ensures over { J.over self.new.judge ≡ J.over self.old.judge }
        ensures number { IfOk result (λ checked. checked ≡ length self.old.touched) }
        ensures none { OnOk result (self.new.touched ≡ []) }
        ensures spent { IfOk result
            (λ checked. J.spent self.new.judge ≡ up_by checked (J.spent self.old.judge)) }
        ensures steps { IfOk result (λ checked. steps.new ≡ up_by checked steps.old) }
        ensures refused { OnErr result (EndsEarly self.old.touched self.new.touched
            (J.spent self.old.judge) (J.spent self.new.judge) steps.old steps.new) }
    {
        self.core.round(alloc, &mut self.judge, steps)
    }

    /// The identity of each node and the judge's verdict on its view, as a full round of the
    /// network and the labels gives them, or `None` where a node is touched. It takes no memory.
    pub fn verdicts(&self) -> Option<&[(u32, Verdict)]>
        ensures touched { IfNone result (1 ≤ length self.now.touched) }
        ensures none { IfSome result (λ _. self.now.touched ≡ []) }
        ensures all { IfSome result (λ found. found.now
            ≡ round_by (J.judge self.now.judge) self.now.network self.now.labels) }
    {
        self.core.verdicts()
    }

    /// The network as it is now.
    pub fn network(&self) -> &Network
        ensures { result.now ≡ self.now.network }
    {
        self.core.network()
    }

    /// The labels as they are now, one a node.
    pub fn labels(&self) -> &LabelStore
        ensures labels { result.now ≡ self.now.labels }
        ensures lengths { length result.now ≡ length self.now.network }
    {
        self.core.labels()
    }

    /// How many nodes are touched.
    pub fn touched_count(&self) -> u32
        ensures { result ≡ length self.now.touched }
    {
        self.core.touched_count()
    }

    /// The judge as it stands. It takes no memory.
    pub fn finish(self) -> J
        ensures { result ≡ self.judge }
    {
        let Recheck { judge, core: _ } = self;
        judge
    }
}
