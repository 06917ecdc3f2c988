//! The levels of a node and those of a neighbour, side by side.

ghost use Rattle.std.specs.Prelude.{◌≡◌, ℕ, ◌+◌, ◌<◌, ◌≤◌, ◌==◌, ◌&&◌, ◌||◌, List, length, take, false, slice_get, slice_index_or};
ghost use Rattle.std.specs.List.{list_any, zip};
ghost use Rattle.pls_centroid.specs.declared.level.CentroidLevel.{CentroidLevel};
ghost use Rattle.pls_pathmax.specs.Rules.{leads_on, meet_lightly};
ghost use Rattle.pls_pathmax.specs.inner.Glance.{all_whole};
ghost use Rattle.pls_pathmax.specs.inner.OnePass.{leads_from};
ghost use Rattle.pls_pathmax.specs.inner.Reading.{AreLeft};

use crate::kept_level::KeptLevel;
use crate::levels::PathMaxLevels;
use crate::reading::read_level;
use pls_bits::NumCode;
use pls_centroid::CentroidLevel;
use pls_levels::pass_levels;
use pls_numbers::Numbers;
use pls_scheme::is_one_more;

// Sets flag `k` where level `first + k` leads on; flags that are set stay so.
pub(crate) fn note_ways<C: NumCode>(
    mine: &mut Numbers<'_, C>,
    theirs: &mut Numbers<'_, C>,
    weight: u64,
    first: u64,
    flags: &mut [bool],
)
    ensures { (here there : List CentroidLevel) → AreLeft mine.old here → AreLeft theirs.old there
        → (k : ℕ) → k < length flags.old → slice_index_or flags.new k false
        ≡ (slice_index_or flags.old k false
        || leads_from weight (slice_get here (first + k)) (slice_get there (first + k))) }
{
    if !pass_levels::<PathMaxLevels, C>(mine, first) {
        return;
    }
    if !pass_levels::<PathMaxLevels, C>(theirs, first) {
        return;
    }
    note_ways_on(mine, theirs, weight, flags);
}

// As `note_ways`, from the next level on.
fn note_ways_on<C: NumCode>(
    mine: &mut Numbers<'_, C>,
    theirs: &mut Numbers<'_, C>,
    weight: u64,
    flags: &mut [bool],
)
    ensures { (here there : List CentroidLevel) → AreLeft mine.old here → AreLeft theirs.old there
        → (k : ℕ) → k < length flags.old → slice_index_or flags.new k false
        ≡ (slice_index_or flags.old k false
        || leads_from weight (slice_get here k) (slice_get there k)) }
{
    for number in 0..flags.len() {
        let Some(here) = read_level(mine) else {
            return;
        };
        let Some(there) = read_level(theirs) else {
            return;
        };
        flags[number] = is_led_on(flags[number], &here, weight, &there);
    }
}

// Leads on: same centroid, one hop nearer, and no weight above the own greatest one.
#[inline(always)]
fn is_led_on(flag: bool, mine: &CentroidLevel, weight: u64, theirs: &CentroidLevel) -> bool
    ensures { result ≡ (flag || leads_on mine.now weight theirs.now) }
{
    let light = theirs.greatest <= mine.greatest && weight <= mine.greatest;
    let nearer = theirs.centroid == mine.centroid && (is_one_more(mine.hops, theirs.hops) && light);
    flag || nearer
}

// Sets flag `k` where level `k` leads on, of the first `count`, which are kept of both; flags that
// are set stay so.
#[inline(always)]
pub(crate) fn note_front<const N: usize>(
    mine: &[KeptLevel; N],
    theirs: &[KeptLevel; N],
    count: usize,
    weight: u64,
    flags: &mut [bool],
)
    requires kept { count ≤ N }
    requires flags { count ≤ length flags.old }
    ensures { (k : ℕ) → slice_index_or flags.new k false ≡ (slice_index_or flags.old k false
        || leads_from weight (slice_get (take count (all_whole mine.now)) k)
        (slice_get (take count (all_whole theirs.now)) k)) }
{
    for place in 0..count {
        let here = mine[place].whole();
        let there = theirs[place].whole();
        flags[place] = is_led_on(flags[place], &here, weight, &there);
    }
}

// Whether the two meet lightly on one of the first `count` levels, which are kept.
#[inline(always)]
pub(crate) fn meet_in_front<const N: usize>(
    mine: &[KeptLevel; N],
    theirs: &[KeptLevel; N],
    count: usize,
    weight: u64,
) -> bool
    requires { count ≤ N }
    ensures { result ≡ list_any (λ both. meet_lightly weight both.0 both.1)
        (zip (take count (all_whole mine.now)) (take count (all_whole theirs.now))) }
{
    for place in 0..count {
        if meet_lightly(weight, &mine[place].whole(), &theirs[place].whole()) {
            return true;
        }
    }
    false
}

// Stops where one of the two has no further level.
pub(crate) fn meet_somewhere<C: NumCode>(
    mine: &mut Numbers<'_, C>,
    theirs: &mut Numbers<'_, C>,
    count: u64,
    weight: u64,
) -> bool
    ensures { (here there : List CentroidLevel) → AreLeft mine.old here → AreLeft theirs.old there
        → length here ≡ count → result ≡ list_any (λ both. meet_lightly weight both.0 both.1)
        (zip here there) }
{
    for _ in 0..count {
        let Some(here) = read_level(mine) else {
            return false;
        };
        let Some(there) = read_level(theirs) else {
            return false;
        };
        if meet_lightly(weight, &here, &there) {
            return true;
        }
    }
    false
}

// Whether the centroids are the same and neither greatest weight is above `weight`.
#[inline(always)]
pub(crate) fn meet_lightly(weight: u64, mine: &CentroidLevel, theirs: &CentroidLevel) -> bool
    ensures { result ≡ meet_lightly weight mine.now theirs.now }
{
    mine.centroid == theirs.centroid && (mine.greatest <= weight && theirs.greatest <= weight)
}
