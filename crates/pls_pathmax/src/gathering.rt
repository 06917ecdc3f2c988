//! What a node gathers of its ports, one after another.

ghost use Rattle.std.specs.Prelude.{◌≡◌, ℕ, ◌+◌, ◌<◌, ◌==◌, ◌++◌, ◌&&◌, ◌||◌, List, [], ◌∷◌, Some, false, length, slice_get, slice_index_or, true};
ghost use Rattle.std.specs.List.{list_any, zip};
ghost use Rattle.pls_configuration.specs.declared.row.State.{State};
ghost use Rattle.pls_numbers.specs.Shape.{said_by};
ghost use Rattle.pls_scheme.specs.Reading.{ReadPort, port_with, reading};
ghost use Rattle.pls_centroid.specs.declared.level.CentroidLevel.{CentroidLevel};
ghost use Rattle.pls_pathmax.specs.Labels.{PathMaxLabel, pathmax_shape};
ghost use Rattle.pls_pathmax.specs.Rules.{meet_lightly};
ghost use Rattle.pls_pathmax.specs.declared.gathering.TheConstants.{WINDOW};
ghost use Rattle.pls_pathmax.specs.inner.Glance.{glance_said, is_own_level};
ghost use Rattle.pls_pathmax.specs.inner.OnePass.{gathered_from, has_ways_from, led_on_from, with_leads};
ghost use Rattle.pls_pathmax.specs.inner.Reading.{AreLeft};

use crate::comparing::{meet_in_front, meet_somewhere, note_front, note_ways};
use crate::glance::{PathMaxGlance, both_go_on, both_keep, is_own_level};
use crate::levels::PathMaxLevels;
use crate::reading::read_level;
use pls_bits::NumCode;
use pls_centroid::CentroidLevel;
use pls_levels::{LevelHead, is_in_tree, levels_behind, pass_levels};
use pls_numbers::Numbers;
use pls_scheme::LabelGlance;

// On how many levels rule 5 is asked in one pass over the ports. A right label has at most one
// level more than the logarithm to the base 2 of the number of nodes, so one pass is enough for it.
pub(crate) const WINDOW: usize = 64;

// What is known of the ports so far.
#[derive(Clone, Copy, Debug, PartialEq, Eq)]
pub(crate) struct PortTally {
    // The neighbours name the own root.
    pub(crate) agrees: bool,
    // At each port outside of the tree so far, the node and the neighbour meet lightly on some
    // level.
    pub(crate) heavy: bool,
    // On which levels some port in the tree leads on to the centroid.
    pub(crate) led_on: [bool; WINDOW],
}

impl PortTally {
    // Before the first port.
    pub(crate) fn before() -> PortTally
        ensures { (first id : ℕ) (state : State) (label : PathMaxLabel)
            → result ≡ gathered_from first (reading id state label []) }
    {
        PortTally {
            agrees: true,
            heavy: true,
            led_on: [false; WINDOW],
        }
    }
}

// Rule 5 is asked of the levels from `first` on.
pub(crate) fn with_port<C: NumCode, const N: usize>(
    first: u64,
    up: Option<u32>,
    own: &LabelGlance<'_, PathMaxGlance<N>>,
    before: PortTally,
    place: usize,
    weight: u32,
    label: &LabelGlance<'_, PathMaxGlance<N>>,
) -> PortTally
    ensures { (id : ℕ) (state : State) (mine theirs : PathMaxLabel)
        (ports : List (ReadPort PathMaxLabel)) → state.up ≡ up → length ports ≡ place
        → said_by pathmax_shape C.takes own.now.bits.now ≡ Some mine
        → glance_said N mine ≡ own.now.glance.now
        → said_by pathmax_shape C.takes label.now.bits.now ≡ Some theirs
        → glance_said N theirs ≡ label.now.glance.now
        → before ≡ gathered_from first (reading id state mine ports)
        → result ≡ gathered_from first
        (reading id state mine (ports ++ port_with weight theirs ∷ [])) }
{
    let weight = u64::from(weight);
    let agrees = agrees_too(before.agrees, &own.glance.head, &label.glance.head);
    let led_on = before.led_on;
    if is_in_tree(up, place, own.glance.head.own, label.glance.head.parent) {
        let led_on = led_on_with::<C, N>(first, own, weight, label, led_on);
        PortTally {
            agrees,
            heavy: before.heavy,
            led_on,
        }
    } else {
        let heavy = is_heavy_too::<C, N>(before.heavy, own, weight, label);
        PortTally {
            agrees,
            heavy,
            led_on,
        }
    }
}

// Adds a port in the tree to `before`, whose flags start at level `first`. The bits are read only
// where the levels that are kept are not all that both have.
fn led_on_with<C: NumCode, const N: usize>(
    first: u64,
    own: &LabelGlance<'_, PathMaxGlance<N>>,
    weight: u64,
    label: &LabelGlance<'_, PathMaxGlance<N>>,
    before: [bool; WINDOW],
) -> [bool; WINDOW]
    ensures { (mine theirs : PathMaxLabel)
        → said_by pathmax_shape C.takes own.now.bits.now ≡ Some mine
        → glance_said N mine ≡ own.now.glance.now
        → said_by pathmax_shape C.takes label.now.bits.now ≡ Some theirs
        → glance_said N theirs ≡ label.now.glance.now
        → length before ≡ WINDOW
        → result ≡ with_leads first weight mine.levels theirs.levels before }
{
    let mut flags = before;
    let count = both_keep(own.glance, label.glance);
    if first == 0 && !both_go_on(own.glance, label.glance, count) {
        note_front(
            &own.glance.front,
            &label.glance.front,
            count,
            weight,
            &mut flags,
        );
        return flags;
    }
    let mut mine = levels_in::<C, N>(own);
    let mut theirs = levels_in::<C, N>(label);
    note_ways(&mut mine, &mut theirs, weight, first, &mut flags);
    flags
}

// The numbers of the levels of a label that was looked at.
fn levels_in<'a, C: NumCode, const N: usize>(
    seen: &LabelGlance<'a, PathMaxGlance<N>>,
) -> Numbers<'a, C>
    ensures { (label : PathMaxLabel)
        → said_by pathmax_shape C.takes seen.now.bits.now ≡ Some label
        → glance_said N label ≡ seen.now.glance.now → AreLeft result label.levels }
{
    levels_behind::<PathMaxLevels, C>(seen.bits, &seen.glance.head)
}

#[inline(always)]
fn agrees_too(before: bool, own: &LevelHead, theirs: &LevelHead) -> bool
    ensures { result ≡ (before && theirs.now.root == own.now.root) }
{
    before && theirs.root == own.root
}

// Adds a port outside of the tree to `before`.
fn is_heavy_too<C: NumCode, const N: usize>(
    before: bool,
    own: &LabelGlance<'_, PathMaxGlance<N>>,
    weight: u64,
    label: &LabelGlance<'_, PathMaxGlance<N>>,
) -> bool
    ensures { (mine theirs : PathMaxLabel)
        → said_by pathmax_shape C.takes own.now.bits.now ≡ Some mine
        → glance_said N mine ≡ own.now.glance.now
        → said_by pathmax_shape C.takes label.now.bits.now ≡ Some theirs
        → glance_said N theirs ≡ label.now.glance.now
        → result ≡ (before && list_any (λ both. meet_lightly weight both.0 both.1)
        (zip mine.levels theirs.levels)) }
{
    if !before {
        return false;
    }
    let count = both_keep(own.glance, label.glance);
    if meet_in_front(&own.glance.front, &label.glance.front, count, weight) {
        return true;
    }
    if !both_go_on(own.glance, label.glance, count) {
        return false;
    }
    let mut mine = levels_in::<C, N>(own);
    let mut theirs = levels_in::<C, N>(label);
    meet_somewhere(&mut mine, &mut theirs, own.glance.head.count, weight)
}

// Whether rule 5 holds on `WINDOW` levels from `first` on.
pub(crate) fn has_ways<C: NumCode, const N: usize>(
    first: u64,
    own: &LabelGlance<'_, PathMaxGlance<N>>,
    led_on: &[bool; WINDOW],
) -> bool
    ensures { (id : ℕ) (state : State) (mine : PathMaxLabel) (ports : List (ReadPort PathMaxLabel))
        → said_by pathmax_shape C.takes own.now.bits.now ≡ Some mine
        → glance_said N mine ≡ own.now.glance.now
        → led_on.now ≡ led_on_from first (reading id state mine ports)
        → result ≡ has_ways_from first (reading id state mine ports) }
{
    if first == 0 && own.glance.ends_at_own && lead_on(led_on, own.glance.head.count) {
        return true;
    }
    let mut numbers = levels_in::<C, N>(own);
    if !pass_levels::<PathMaxLevels, C>(&mut numbers, first) {
        return true;
    }
    have_ways(&mut numbers, own.glance.head.own, led_on)
}

// Whether on each of `count` levels but the last a port leads on, as far as there are flags.
fn lead_on(led_on: &[bool], count: u64) -> bool
    ensures { result ≡ true → (k : ℕ) → k < length led_on.now → k + 1 < count
        → slice_index_or led_on.now k false ≡ true }
{
    for number in 0..led_on.len() {
        if !led_on[number] {
            return number as u64 + 1 >= count;
        }
    }
    true
}

// Whether on each next level, one a flag, the node `own` is the centroid or a port leads on.
pub(crate) fn have_ways<C: NumCode>(numbers: &mut Numbers<'_, C>, own: u64, led_on: &[bool]) -> bool
    ensures hold { result ≡ true → (levels : List CentroidLevel) → AreLeft numbers.old levels
        → (k : ℕ) (level : CentroidLevel) → k < length led_on.now → slice_get levels k ≡ Some level
        → (is_own_level own level || slice_index_or led_on.now k false) ≡ true }
    ensures fail { result ≡ false → (levels : List CentroidLevel) → AreLeft numbers.old levels
        → (k : ℕ) × (level : CentroidLevel) × (k < length led_on.now)
        × (slice_get levels k ≡ Some level)
        × ((is_own_level own level || slice_index_or led_on.now k false) ≡ false) }
{
    for number in 0..led_on.len() {
        let Some(level) = read_level(numbers) else {
            return true;
        };
        if !has_way(own, &level, led_on[number]) {
            return false;
        }
    }
    true
}

#[inline(always)]
fn has_way(own: u64, level: &CentroidLevel, led_on: bool) -> bool
    ensures { result ≡ (is_own_level own level.now || led_on) }
{
    is_own_level(own, level) || led_on
}
