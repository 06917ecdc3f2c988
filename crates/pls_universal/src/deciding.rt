//! Maps that are decided in a round, each once for all nodes that have it.

ghost use Rattle.std.specs.Prelude.{◌≡◌, ◌<◌, ◌++◌, ◌∷◌, [], ℕ, true, Bool, List, All, Option, Some, None, length, slice_get, IfOk, IfSome, IfNone, OnOk};
ghost use Rattle.std.specs.Bool.{OnTrue};
ghost use Rattle.pls_configuration.specs.declared.row.NodeRow.{NodeRow};
ghost use Rattle.pls_numbers.specs.Shape.{said_by};
ghost use Rattle.pls_scheme.specs.Reading.{judge_by};
ghost use Rattle.pls_universal.specs.Reading.{map_shape};
ghost use Rattle.pls_universal.specs.Rules.{map_rules};
ghost use Rattle.pls_universal.specs.inner.Deciding.{AreDecided, IsNumberOf, IsNumberOfMap};

use crate::format::MapFormat;
use crate::property_test::PropertyTest;
use crate::stating::{StatedNetwork, stated_by};
use crate::verifying::{parts, verdict_on};
use pls_bits::{Bits, NumCode};
use pls_configuration::Verdict;
use pls_labels::{Labels, View};
use pls_numbers::Format;
use pls_streams::NoMemory;
use std::alloc::Global;
use std::collections::BTreeMap;

/// What was found out about the map of the label at a place.
#[derive(Drop)]
pub struct DecidedMap {
    pub(crate) place: usize,
    pub(crate) stated: Option<StatedNetwork>,
}

/// The maps that were decided so far.
#[derive(Drop)]
pub struct DecidedMaps {
    // The maps, numbered from 0 as they came.
    pub(crate) maps: Vec<DecidedMap>,
    // Their numbers, by the words of the maps. How soon a map is found again rests on this table,
    // and no answer does.
    numbers: BTreeMap<Vec<u64>, usize>,
}

impl DecidedMaps {
    pub(crate) fn new(alloc: Global) -> DecidedMaps
        ensures { (takes : List Bool → Option (ℕ × List Bool)) (test : List NodeRow → Bool)
            (labels : List (List Bool)) → AreDecided takes test labels result }
    {
        DecidedMaps {
            maps: Vec::new(alloc),
            numbers: BTreeMap::new(alloc),
        }
    }

    // The answer is the number of the new map.
    fn put(&mut self, words: Vec<u64>, map: DecidedMap) -> Result<usize, NoMemory>
        ensures number { IfOk result (λ number. number ≡ length self.old.maps.items) }
        ensures maps { OnOk result (self.new.maps.items ≡ self.old.maps.items ++ map ∷ []) }
    {
        let number = self.maps.len();
        self.maps.push(map)?;
        self.numbers.insert(words, number)?;
        Ok(number)
    }

    // `words` are those of the map.
    fn seek<C: NumCode, L: Labels>(
        &self,
        labels: &L,
        words: &[u64],
        map: &Bits<'_>,
    ) -> Option<usize>
        requires { All (λ map. map.place < length (L.listed labels.now)) self.now.maps.items }
        ensures { IfSome result (IsNumberOfMap C.takes (L.listed labels.now) self.now map.now) }
    {
        let number = *self.numbers.get(words)?;
        self.is_number::<C, L>(labels, number, map)
            .then_some(number)
    }

    // False where no map has this number.
    fn is_number<C: NumCode, L: Labels>(&self, labels: &L, number: usize, map: &Bits<'_>) -> bool
        requires { All (λ map. map.place < length (L.listed labels.now)) self.now.maps.items }
        ensures { OnTrue result
            (IsNumberOfMap C.takes (L.listed labels.now) self.now map.now number) }
    {
        match self.maps.get(number) {
            Some(known) => has_map::<C>(&labels.bits(known.place), map),
            None => false,
        }
    }

    // `label` stands at place `i`. `None` where it cannot be read; a new map is read and decided.
    // The last map is looked at first, so that nothing is copied where all labels have one map.
    fn number_of<P: PropertyTest, C: NumCode, L: Labels>(
        &mut self,
        alloc: Global,
        property: &P,
        labels: &L,
        i: usize,
        label: &Bits<'_>,
    ) -> Result<Option<usize>, NoMemory>
        requires at { slice_get (L.listed labels.now) i ≡ Some label.now }
        requires decided { AreDecided C.takes (P.test property.now) (L.listed labels.now) self.old }
        ensures decided { OnOk result
            (AreDecided C.takes (P.test property.now) (L.listed labels.now) self.new) }
        ensures number { IfOk result (λ found. IfSome found
            (IsNumberOf C.takes (P.test property.now) self.new label.now)) }
        ensures none { IfOk result (λ found. IfNone found
            (said_by map_shape C.takes label.now ≡ None)) }
    {
        let Some((_, map)) = parts::<C>(label) else {
            return Ok(None);
        };
        let last = self.maps.len().saturating_sub(1);
        if self.is_number::<C, L>(labels, last, &map) {
            return Ok(Some(last));
        }
        let words = words_of(alloc, &map)?;
        if let Some(known) = self.seek::<C, L>(labels, &words, &map) {
            return Ok(Some(known));
        }
        let Some(read) = MapFormat.read::<C>(alloc, label)? else {
            return Ok(None);
        };
        let stated = stated_by(alloc, property, read.rows.as_slice())?;
        let number = self.put(words, DecidedMap { place: i, stated })?;
        Ok(Some(number))
    }
}

// The length comes first and the last word is zero-filled, so equal maps have equal words.
fn words_of(alloc: Global, map: &Bits<'_>) -> Result<Vec<u64>, NoMemory> {
    let mut words = Vec::new(alloc);
    words.push(map.len() as u64)?;
    map.append_to(&mut words)?;
    let used = map.len() % 64;
    if let Some(last) = words.last_mut() {
        if used > 0 {
            *last &= u64::MAX << (64 - used);
        }
    }
    Ok(words)
}

// Compares bit by bit; false where the label cannot be read.
pub(crate) fn has_map<C: NumCode>(label: &Bits<'_>, map: &Bits<'_>) -> bool
    ensures { result ≡ true → (own : ℕ) × (C.takes label.now ≡ Some (own, map.now)) }
{
    match parts::<C>(label) {
        Some((_, other)) => map.equal(other),
        None => false,
    }
}

// Decides the map of the node at place `i` unless that was done before.
pub(crate) fn verdict_at<P: PropertyTest, C: NumCode, L: Labels>(
    alloc: Global,
    property: &P,
    labels: &L,
    decided: &mut DecidedMaps,
    i: usize,
    view: &View<'_>,
) -> Result<Verdict, NoMemory>
    requires at { slice_get (L.listed labels.now) i ≡ Some view.now.own }
    requires decided { AreDecided C.takes (P.test property.now) (L.listed labels.now) decided.old }
    ensures decided { OnOk result
        (AreDecided C.takes (P.test property.now) (L.listed labels.now) decided.new) }
    ensures verdict { IfOk result (λ verdict. verdict
        ≡ judge_by (said_by map_shape C.takes) (map_rules (P.test property.now)) view.now) }
{
    let Some(number) = decided.number_of::<P, C, L>(alloc, property, labels, i, &view.own)? else {
        return Ok(Verdict::Reject { leaf: 1, rule: 1 });
    };
    let verdict = verdict_on::<C>(alloc, &decided.maps[number].stated, view)?;
    Ok(verdict)
}
