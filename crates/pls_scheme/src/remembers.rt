//! Verifiers that remember what each label says.

ghost use Rattle.std.specs.Prelude.{◌≡◌, ◌<◌, Bool, List, Some, IfOk, length, map, slice_get};
ghost use Rattle.pls_labels.specs.Seen.{Seen, views};

use crate::basic::Basic;
use crate::checker::Checker;
use crate::in_place::JudgesInPlace;
use crate::memory::GlanceMemory;
use crate::round::verdict_at;
use pls_bits::Bits;
use pls_configuration::Verdict;
use pls_graph::Network;
use pls_labels::LabelStore;
use pls_streams::NoMemory;
use std::alloc::Global;

/// A verifier that judges a node by what it remembers of the labels, so that a label is read once
/// however often its neighbours are judged.
pub trait Remembers: Checker {
    /// What is remembered of a label.
    type Memory: Drop;

    // What is remembered of a label.
    ghost told: { Self → List Bool → Self.Memory };

    /// What is remembered of a label. The one error is want of memory.
    fn remember(&self, alloc: Global, bits: &Bits<'_>) -> Result<Self::Memory, NoMemory>
        ensures { IfOk result (λ memory. memory ≡ told self.now bits.now) };

    /// The verdict of the node at place `i` on its view, by the memories of all labels. The one
    /// error is want of memory.
    fn verdict_at(
        &self,
        alloc: Global,
        net: &Network,
        labels: &LabelStore,
        memories: &[Self::Memory],
        i: usize,
    ) -> Result<Verdict, NoMemory>
        requires each { length labels.now ≡ length net.now }
        requires remembered { memories.now ≡ map (told self.now) labels.now }
        requires within { i < length net.now }
        ensures { IfOk result (λ verdict. (view : Seen)
            → slice_get (views net.now labels.now) i ≡ Some view
            → verdict ≡ Self.judge self.now view) };
}

impl<R: JudgesInPlace> Remembers for Basic<R> {
    ghost use Rattle.pls_numbers.specs.Shape.{said_by};
    ghost use Rattle.pls_scheme.specs.inner.Looks.{seen_in};

    type Memory = R::Memory;

    ghost told = { λ s bits. R.Memory.keeping
        (seen_in (said_by (R.Format.shape (R.format s.rules)) R.Code.takes) (R.glance s.rules)
        bits) };

    fn remember(&self, alloc: Global, bits: &Bits<'_>) -> Result<Self::Memory, NoMemory> {
        R::Memory::keep(alloc, self.rules.look(bits))
    }

    fn verdict_at(
        &self,
        _alloc: Global,
        net: &Network,
        labels: &LabelStore,
        memories: &[Self::Memory],
        i: usize,
    ) -> Result<Verdict, NoMemory> {
        Ok(verdict_at(&self.rules, net, labels, memories, i))
    }
}
