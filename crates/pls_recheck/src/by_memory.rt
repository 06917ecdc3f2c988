//! A bench that is asked about a checker at a place.

ghost use Rattle.std.specs.Prelude.{◌≡◌};

use crate::asks::Asks;
use crate::bench::Bench;
use crate::checker_at_place::{CheckerAtPlace, OfOne};
use pls_configuration::Verdict;
use pls_graph::Network;
use pls_labels::{LabelStore, View};
use pls_scheme::Remembers;
use pls_streams::{NoMemory, Steps};
use std::alloc::Global;

/// A checker with what it remembers of each label: a bench is asked about this checker at the
/// place of the node.
#[derive(Drop)]
pub(crate) struct ByMemory<'a, K: Remembers> {
    pub(crate) checker: &'a K,
    pub(crate) memories: &'a [K::Memory],
}

impl<'a, K: Remembers, B: Bench> Asks<B> for ByMemory<'a, K> {
    ghost use Rattle.std.specs.Prelude.{◌≡◌, map};

    ghost judge = { λ asks _. K.judge asks.checker.now };

    ghost spent = { λ _ bench. B.asked bench };

    ghost over = { λ _ _. 0 };

    ghost fits = { λ asks labels. asks.memories.now ≡ map (K.told asks.checker.now) labels };

    fn ask_at(
        &self,
        alloc: Global,
        view: &View<'_>,
        net: &Network,
        labels: &LabelStore,
        i: usize,
        counter: &mut B,
        steps: &mut Steps,
    ) -> Result<Verdict, NoMemory> {
        let placed = OfOne {
            one: CheckerAtPlace {
                checker: self.checker,
                net,
                labels,
                memories: self.memories,
                i,
            },
        };
        counter.ask(alloc, &placed, view, steps)
    }
}
