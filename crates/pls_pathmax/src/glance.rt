//! What is kept of a label at a glance: what stands in front of its levels, and the first of them.

ghost use Rattle.std.specs.Prelude.{◌≡◌, List, IfNone, IfSome, false, length, option_map, true};
ghost use Rattle.std.specs.Option.{option_copied, option_map_or};
ghost use Rattle.pls_numbers.specs.Shape.{said_by};
ghost use Rattle.pls_centroid.specs.declared.level.CentroidLevel.{CentroidLevel};
ghost use Rattle.pls_levels.specs.Labels.{are_levels};
ghost use Rattle.pls_pathmax.specs.Labels.{pathmax_levels, pathmax_shape};
ghost use Rattle.pls_pathmax.specs.inner.Glance.{IsFront, both_go_on, both_keep, front_with, glance_said, head_seen, is_own_level, kept_with, last_level};
ghost use Rattle.pls_pathmax.specs.inner.Reading.{AreLeft};

use crate::gathering::WINDOW;
use crate::kept_level::KeptLevel;
use crate::reading::read_level;
use pls_bits::{Bits, NumCode};
use pls_centroid::CentroidLevel;
use pls_levels::{LevelHead, read_head};
use pls_numbers::Numbers;

/// How many levels are kept of a long label at most. A right label has at most one level more than
/// the logarithm to the base 2 of the number of nodes, so these are all of it wherever there are
/// fewer than 65,536 nodes. Further levels are read where they lie.
pub const LONG_FRONT: usize = 16;

/// How many levels are kept of each label where labels are short, which takes less memory. Further
/// levels are read where they lie, so no verdict rests on it.
pub const SHORT_FRONT: usize = 4;

/// What is kept of a label at a glance, with `N` levels at most: all that a port asks for where the
/// label is right and has no more levels.
#[derive(Clone, Copy, Debug, PartialEq, Eq)]
pub struct PathMaxGlance<const N: usize> {
    /// What stands in front of the levels.
    pub head: LevelHead,
    /// How many of the first levels are kept: those before the first with a number of 2^32 or
    /// more, which no right label has, and `N` at most.
    pub kept: u64,
    /// These levels, and behind them, where there are fewer than `N`, levels of zeros.
    pub front: [KeptLevel; N],
    /// Whether the last level is the node's own. The levels of a right label end so.
    pub ends_at_own: bool,
}

// What is kept of levels.
struct LevelsSeen<const N: usize> {
    // How many of the first ones are kept.
    kept: u64,
    // These, and behind them levels of zeros.
    front: [KeptLevel; N],
    // The last level, where there is one.
    last: Option<CentroidLevel>,
}

// What stands where there is no level.
const NO_LEVEL: KeptLevel = KeptLevel {
    centroid: 0,
    hops: 0,
    greatest: 0,
};

// `None` where the bits are no label, read to the last bit.
pub(crate) fn glance_in<C: NumCode, const N: usize>(bits: &Bits<'_>) -> Option<PathMaxGlance<N>>
    ensures { result ≡ option_map (glance_said N) (said_by pathmax_shape C.takes bits.now) }
{
    let mut numbers = Numbers::<C>::of(bits);
    let head = read_head(&mut numbers)?;
    let LevelsSeen { kept, front, last } = levels_seen(&mut numbers, head.count)?;
    Some(PathMaxGlance {
        head,
        kept,
        front,
        ends_at_own: is_own(head.own, &last),
    })
}

// Reads so many levels; `None` where they are not all that is left.
fn levels_seen<C: NumCode, const N: usize>(
    numbers: &mut Numbers<'_, C>,
    count: u64,
) -> Option<LevelsSeen<N>>
    ensures there { IfSome result (λ _. are_levels pathmax_levels count numbers.old ≡ true) }
    ensures front { IfSome result (λ seen. (levels : List CentroidLevel)
        → AreLeft numbers.old levels → length levels ≡ count
        → IsFront N seen.kept seen.front levels) }
    ensures last { IfSome result (λ seen. (levels : List CentroidLevel)
        → AreLeft numbers.old levels → length levels ≡ count → seen.last ≡ last_level levels) }
    ensures none { IfNone result (are_levels pathmax_levels count numbers.old ≡ false) }
{
    let mut kept = 0;
    let mut front = [NO_LEVEL; N];
    let mut last = None;
    for number in 0..count {
        let level = read_level(numbers)?;
        kept = keep_level(&mut front, kept, number, &level);
        last = Some(level);
    }
    if numbers.is_end() {
        Some(LevelsSeen { kept, front, last })
    } else {
        None
    }
}

// Keeps a level of this number where all before it are kept, and it fits; gives how many are kept.
#[inline(always)]
fn keep_level<const N: usize>(
    front: &mut [KeptLevel; N],
    kept: u64,
    number: u64,
    level: &CentroidLevel,
) -> u64
    ensures kept { result ≡ kept_with N kept number level.now }
    ensures front { front.new ≡ front_with N kept number level.now front.old }
{
    if number != kept || number >= N as u64 {
        return kept;
    }
    let Some(short) = KeptLevel::of(level) else {
        return kept;
    };
    front[kept as usize] = short;
    kept + 1
}

// How many levels are kept of both.
#[inline(always)]
pub(crate) fn both_keep<const N: usize>(mine: &PathMaxGlance<N>, theirs: &PathMaxGlance<N>) -> usize
    ensures { result ≡ both_keep N mine.now theirs.now }
{
    mine.kept.min(theirs.kept).min(N.min(WINDOW) as u64) as usize
}

// Whether both have levels behind so many.
#[inline(always)]
pub(crate) fn both_go_on<const N: usize>(
    mine: &PathMaxGlance<N>,
    theirs: &PathMaxGlance<N>,
    count: usize,
) -> bool
    ensures { result ≡ both_go_on N mine.now theirs.now count }
{
    let past = count as u64;
    past < mine.head.count && past < theirs.head.count
}

fn is_own(own: u64, level: &Option<CentroidLevel>) -> bool
    ensures { result ≡ option_map_or (is_own_level own) level.now false }
{
    match level {
        Some(level) => is_own_level(own, level),
        None => false,
    }
}

// Whether it is a level of the node of this name, its centroid, without a hop.
#[inline(always)]
pub(crate) fn is_own_level(own: u64, level: &CentroidLevel) -> bool
    ensures { result ≡ is_own_level own level.now }
{
    level.hops == 0 && level.centroid == own
}

#[inline(always)]
pub(crate) fn head_above<const N: usize>(above: Option<&PathMaxGlance<N>>) -> Option<&LevelHead>
    ensures { option_copied result ≡ option_map (head_seen N) (option_copied above.entry) }
{
    match above {
        Some(above) => Some(&above.head),
        None => None,
    }
}
