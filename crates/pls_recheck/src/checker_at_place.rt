//! A checker at one place.

ghost use Rattle.std.specs.Prelude.{◌≡◌, ◌<◌, ◌≤◌, ℕ, IfOk, length, map};
ghost use Rattle.pls_configuration.specs.declared.verdict.Verdict.{Verdict};
ghost use Rattle.pls_scheme.specs.Judging.{LeafWithin};
ghost use Rattle.pls_recheck.specs.inner.AtPlace.{view_at};

use pls_configuration::Verdict;
use pls_graph::Network;
use pls_labels::{LabelStore, View};
use pls_scheme::{Checker, Remembers};
use pls_streams::{NoMemory, Steps};
use std::alloc::Global;

/// What judges one node.
pub(crate) trait JudgesOne {
    // The verdict.
    ghost verdict: { Self → Verdict };

    // How many parts of an expression a rejection may name.
    ghost leaves: { Self → ℕ };

    /// How many leaves there are, from 1 to 8.
    fn leaves(&self) -> u8
        ensures value { result ≡ leaves self.now }
        ensures some { 1 ≤ result }
        ensures few { result ≤ 8 };

    /// The verdict. The one error is want of memory.
    fn verdict(&self, alloc: Global) -> Result<Verdict, NoMemory>
        ensures { IfOk result (λ found. found ≡ verdict self.now) };

    // A rejection names one of the leaves, or 0.
    ghost leaf_law: { (s : Self) → LeafWithin (leaves s) (verdict s) };
}

/// A checker with the place of a node, which it judges by what is remembered of each label.
#[derive(Drop)]
pub(crate) struct CheckerAtPlace<'a, K: Remembers> {
    pub(crate) checker: &'a K,
    pub(crate) net: &'a Network,
    pub(crate) labels: &'a LabelStore,
    pub(crate) memories: &'a [K::Memory],
    pub(crate) i: usize,
    ghost each: { length labels.now ≡ length net.now },
    ghost remembered: { memories.now ≡ map (K.told checker.now) labels.now },
    ghost within: { i < length net.now },
}

impl<'a, K: Remembers> JudgesOne for CheckerAtPlace<'a, K> {
    ghost verdict = { λ placed. K.judge placed.checker.now
        (view_at placed.net.now placed.labels.now placed.i) };

    ghost leaves = { λ placed. K.leaves placed.checker.now };

    fn leaves(&self) -> u8 {
        self.checker.leaves()
    }

    fn verdict(&self, alloc: Global) -> Result<Verdict, NoMemory> {
        self.checker
            .verdict_at(alloc, self.net, self.labels, self.memories, self.i)
    }

    ghost leaf_law = { λ placed. K.leaf_law placed.checker.now
        (view_at placed.net.now placed.labels.now placed.i) };
}

/// A checker of one node, whatever view it is shown.
#[derive(Drop)]
pub(crate) struct OfOne<D> {
    pub(crate) one: D,
}

impl<D: JudgesOne> Checker for OfOne<D> {
    ghost use Rattle.std.specs.Prelude.{true, false};

    ghost judge = { λ s _. D.verdict s.one };

    ghost leaves = { λ s. D.leaves s.one };

    ghost lends = { λ _. false };

    ghost TAKES_MEMORY = { true };

    const TAKES_MEMORY: bool = true;

    fn leaves(&self) -> u8 {
        self.one.leaves()
    }

    fn lends(&self) -> bool {
        false
    }

    fn verify(
        &self,
        alloc: Global,
        _view: &View<'_>,
        steps: &mut Steps,
    ) -> Result<Verdict, NoMemory> {
        steps.tick();
        self.one.verdict(alloc)
    }

    ghost leaf_law = { λ s _. D.leaf_law s.one };

    ghost lends_law = { λ s no. absurd (cc) };
}
