//! The universal scheme.

ghost use Rattle.std.specs.Prelude.{◌≡◌, Bool, List, length};
ghost use Rattle.pls_configuration.specs.Walk.{IsConnected};
ghost use Rattle.pls_numbers.specs.Shape.{IsSpelled, said_by};
ghost use Rattle.pls_scheme.specs.Judging.{AllAccept};
ghost use Rattle.pls_scheme.specs.Marked.{IsMarkedBy};
ghost use Rattle.pls_scheme.specs.Reading.{judge_by};
ghost use Rattle.pls_universal.specs.Reading.{map_shape};
ghost use Rattle.pls_universal.specs.Rules.{map_rules, map_says};

use crate::bound::{map_bound, maps_are_short};
use crate::deciding::{DecidedMaps, verdict_at};
use crate::format::MapFormat;
use crate::map::MapLabel;
use crate::marking::map_labels;
use crate::property_test::PropertyTest;
use crate::stating::stated_by;
use crate::verifying::verdict_on;
use pls_bits::{BitBuf, Bits, NumCode};
use pls_configuration::Verdict;
use pls_facts::is_valid;
use pls_graph::{Network, Size};
use pls_labels::{LabelStore, Labels, View};
use pls_numbers::Format;
use pls_scheme::{Checker, Property, Scheme};
use pls_streams::{NoMemory, Steps};
use std::alloc::Global;
use std::marker::PhantomData;

/// The universal scheme of a property: each label holds its node's identity and a map of the
/// network, and each node compares the maps, finds itself in its own, and asks the property of what
/// it states (Korman, Kutten and Peleg 2010). Labels are written in the number code `C`.
#[derive(Drop)]
pub struct MapOf<P, C> {
    /// The property.
    pub property: P,
    code: PhantomData<C>,
}

impl<P, C> MapOf<P, C> {
    /// The scheme of this property. It takes no memory.
    pub fn new(property: P) -> Self
        ensures { result.property ≡ property }
    {
        MapOf {
            property,
            code: PhantomData,
        }
    }
}

impl<P: PropertyTest, C: NumCode> MapOf<P, C> {
    /// Where all nodes of a connected network accept some labels, each label has its node's
    /// identity and the map of the network itself: the labels are those that are marked.
    pub fn accepted_are_marked(&self, net: &Network, labels: &LabelStore)
        requires connected { IsConnected net.now }
        requires each { length labels.now ≡ length net.now }
        requires accepted { AllAccept
            (judge_by (said_by map_shape C.takes) (map_rules (P.test self.now.property))) net.now
            labels.now }
        ensures marked { IsMarkedBy (IsSpelled map_shape C.code) (map_says net.now) net.now
            labels.now }
        ensures alone { (others : List (List Bool))
            → IsMarkedBy (IsSpelled map_shape C.code) (map_says net.now) net.now others
            → others ≡ labels.now }
    {
        is_valid(net);
    }
}

impl<P: PropertyTest, C: NumCode> Checker for MapOf<P, C> {
    ghost use Rattle.std.specs.Prelude.{true, false};
    ghost use Rattle.pls_numbers.specs.Shape.{said_by};
    ghost use Rattle.pls_scheme.specs.Reading.{judge_by};
    ghost use Rattle.pls_scheme.specs.laws.LeafLaws.{judge_by-leaf};
    ghost use Rattle.pls_universal.specs.Reading.{map_shape};
    ghost use Rattle.pls_universal.specs.Rules.{map_rules};

    ghost judge = { λ s view. judge_by (said_by map_shape C.takes) (map_rules (P.test s.property))
        view };

    ghost leaves = { λ _. 1 };

    ghost lends = { λ _. false };

    ghost TAKES_MEMORY = { true };

    const TAKES_MEMORY: bool = true;

    fn leaves(&self) -> u8 {
        1
    }

    fn lends(&self) -> bool {
        false
    }

    fn verify(
        &self,
        alloc: Global,
        view: &View<'_>,
        steps: &mut Steps,
    ) -> Result<Verdict, NoMemory> {
        steps.tick();
        let Some(label) = MapFormat.read::<C>(alloc, &view.own)? else {
            return Ok(Verdict::Reject { leaf: 1, rule: 1 });
        };
        let stated = stated_by(alloc, &self.property, label.rows.as_slice())?;
        let verdict = verdict_on::<C>(alloc, &stated, view)?;
        Ok(verdict)
    }

    fn round<L: Labels>(
        &self,
        alloc: Global,
        net: &Network,
        labels: &L,
        steps: &mut Steps,
    ) -> Result<Vec<Verdict>, NoMemory> {
        let mut decided = DecidedMaps::new(alloc);
        let mut verdicts = Vec::with_capacity(alloc, net.len())?;
        for i in 0..net.len() {
            let view = View::of(alloc, net, labels, i)?;
            steps.tick();
            let verdict = verdict_at::<P, C, L>(
                alloc,
                &self.property,
                labels,
                &mut decided,
                i,
                &view,
            )?;
            verdicts.push(verdict)?;
        }
        Ok(verdicts)
    }

    ghost leaf_law = { λ s. judge_by-leaf (said_by map_shape C.takes)
        (map_rules (P.test s.property)) };

    ghost lends_law = { λ _ taken. absurd (cc) };
}

impl<P: PropertyTest, C: NumCode> Property for MapOf<P, C> {
    ghost holds = { λ s rows. P.holds s.property rows };

    fn decide(&self, alloc: Global, net: &Network) -> Result<bool, NoMemory> {
        self.property.decide(alloc, net)
    }
}

impl<P: PropertyTest, C: NumCode> Scheme for MapOf<P, C> {
    ghost use Rattle.pls_numbers.specs.Shape.{IsSpelled, IsWritable, said_by};
    ghost use Rattle.pls_numbers.specs.laws.FormatLaws.{has_spelling, one_spelling, said_spells};
    ghost use Rattle.pls_scheme.specs.Marked.{IsMarkedBy};
    ghost use Rattle.pls_scheme.specs.laws.Marking.{marked_once, one_said, sound_by};
    ghost use Rattle.pls_universal.specs.Bound.{longest_map};
    ghost use Rattle.pls_universal.specs.Reading.{map_shape};
    ghost use Rattle.pls_universal.specs.Rules.{map_rules, map_says};
    ghost use Rattle.pls_universal.specs.laws.MapLaws.{map_numbers};
    ghost use Rattle.pls_universal.specs.laws.MapMet.{map_right_once};
    ghost use Rattle.pls_universal.specs.laws.MapShow.{map_show};

    type Label = MapLabel;

    ghost layout = { λ _ bits label. IsSpelled map_shape C.code bits label };

    ghost writable = { λ _ label. IsWritable map_shape label };

    ghost marked = { λ _ rows labels.
        IsMarkedBy (IsSpelled map_shape C.code) (map_says rows) rows labels };

    ghost longest = { λ _ size. longest_map C.code size };

    fn read_label(&self, alloc: Global, bits: Bits<'_>) -> Result<Option<MapLabel>, NoMemory> {
        MapFormat.read::<C>(alloc, &bits)
    }

    fn write_label(&self, alloc: Global, label: &MapLabel) -> Result<BitBuf, NoMemory> {
        let mut bits = BitBuf::new(alloc);
        MapFormat.append::<C>(&mut bits, label)?;
        Ok(bits)
    }

    fn bound(&self, size: &Size) -> u64 {
        map_bound::<C>(size)
    }

    fn mark(&self, alloc: Global, net: &Network) -> Result<Option<LabelStore>, NoMemory> {
        // Its identities, weights and marks are numbers of 32 bits.
        net.size();
        maps_are_short::<C>(net);
        if !self.property.decide(alloc, net)? {
            return Ok(None);
        }
        let labels = map_labels::<C>(alloc, net)?;
        // So no label is longer than a number of 64 bits says.
        labels.total();
        Ok(Some(labels))
    }

    ghost reads_back_law = { λ _. has_spelling map_shape C.code };

    ghost one_spelling_law = { λ _. one_spelling map_shape C.code };

    ghost one_label_law = { λ _. one_said (said_by map_shape C.takes) (IsSpelled map_shape C.code)
        (said_spells map_shape map_numbers C.code C.takes C.takes_codes C.takes_only) };

    ghost sound_law = { λ s. sound_by (said_by map_shape C.takes) (map_rules (P.test s.property))
        (P.holds s.property) (map_show (P.test s.property) (P.holds s.property)
        (P.test_law s.property)) };

    ghost one_marking_law = { λ s. marked_once (IsSpelled map_shape C.code) (P.holds s.property)
        map_says (one_spelling map_shape C.code) (map_right_once (P.holds s.property)) };
}
