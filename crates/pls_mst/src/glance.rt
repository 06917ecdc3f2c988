//! What is kept of a label at a glance: what stands in front of its levels, and the first of them.

ghost use Rattle.std.specs.Prelude.{◌≡◌, ◌-◌, ◌≤◌, ◌==◌, length, min, drop, take, true, false, Some, IfSome, IfNone, option_map};
ghost use Rattle.std.specs.List.{list_all};
ghost use Rattle.pls_numbers.specs.Shape.{said_by};
ghost use Rattle.pls_numbers.specs.Taking.{are_items, items_in, items_off};
ghost use Rattle.pls_mst.specs.Labels.{MstLabel, level_off, mst_shape};
ghost use Rattle.pls_mst.specs.Rules.{names_all_fragments};
ghost use Rattle.pls_mst.specs.inner.Glance.{IsFront, glance_of};

use crate::kept_level::KeptLevel;
use crate::levels::MstLevels;
use crate::reading::{all_have, read_level};
use pls_bits::{Bits, NumCode};
use pls_levels::{LevelHead, are_levels, levels_of, pass_levels, read_head};
use pls_numbers::Numbers;
use pls_scheme::LabelGlance;

/// How many levels are kept at most. A right label has no more than the logarithm to the base 2 of
/// the number of nodes, so these are all of it wherever there are fewer than 512 nodes, and in most
/// networks of up to 32,768. Further levels are read where they lie.
pub const FRONT: usize = 8;

/// What is kept of a label at a glance.
#[derive(Clone, Copy, Debug, PartialEq, Eq)]
pub struct MstGlance {
    /// What stands in front of the levels.
    pub head: LevelHead,
    /// How many of the first levels are kept: those before the first with a number of 2^32 or
    /// more, which no right label has, and `FRONT` at most.
    pub kept: u64,
    /// These levels, and behind them, where there are fewer than `FRONT`, levels of zeros.
    pub front: [KeptLevel; FRONT],
}

// The first of some levels.
struct Front {
    // How many are kept.
    kept: u64,
    // These, and behind them levels of zeros.
    levels: [KeptLevel; FRONT],
    // How many levels stand behind those that were read.
    left: u64,
}

// What stands where there is no level.
const NO_LEVEL: KeptLevel = KeptLevel {
    fragment: 0,
    weight: 0,
    a: 0,
    b: 0,
};

// `None` where the bits are no label, read to the last bit.
pub(crate) fn glance_at<C: NumCode>(bits: &Bits<'_>) -> Option<MstGlance>
    ensures { result ≡ option_map glance_of (said_by mst_shape C.takes bits.now) }
{
    let mut numbers = Numbers::<C>::of(bits);
    let head = read_head(&mut numbers)?;
    let Front { kept, levels, left } = read_front(&mut numbers, head.count)?;
    if are_levels::<MstLevels, C>(&mut numbers, left) {
        Some(MstGlance {
            head,
            kept,
            front: levels,
        })
    } else {
        None
    }
}

// Reads up to `FRONT` levels, stopping after one that does not fit 32 bits; `None` where one is
// missing.
fn read_front<C: NumCode>(numbers: &mut Numbers<'_, C>, count: u64) -> Option<Front>
    ensures found { IfSome result
        (λ front. IsFront front.kept front.levels (items_off level_off count numbers.old.numbers)) }
    ensures left { IfSome result (λ front. are_items level_off count numbers.old
        ≡ are_items level_off front.left numbers.new) }
    ensures none { IfNone result (are_items level_off count numbers.old ≡ false) }
{
    let mut levels = [NO_LEVEL; FRONT];
    let first = in_front(count);
    for place in 0..first {
        let level = read_level(numbers)?;
        let kept = place as u64;
        let Some(short) = KeptLevel::of(&level) else {
            return Some(Front {
                kept,
                levels,
                left: count - kept - 1,
            });
        };
        levels[place] = short;
    }
    Some(Front {
        kept: first as u64,
        levels,
        left: count - first as u64,
    })
}

#[inline(always)]
pub(crate) fn in_front(count: u64) -> usize
    ensures { result ≡ min count FRONT }
{
    count.min(FRONT as u64) as usize
}

pub(crate) fn behind_front<'a, C: NumCode>(bits: &Bits<'a>, first: usize) -> Numbers<'a, C>
    ensures { (label : MstLabel) → said_by mst_shape C.takes bits.now ≡ Some label
        → first ≤ length label.levels
        → items_in level_off (length label.levels - first) result.numbers
        ≡ Some (drop first label.levels) }
{
    let mut numbers = levels_of::<MstLevels, C>(bits);
    pass_levels::<MstLevels, C>(&mut numbers, first as u64);
    numbers
}

// Whether the fragment of each level has the node's own name.
pub(crate) fn names_all<C: NumCode>(label: &LabelGlance<'_, MstGlance>) -> bool
    ensures { (own : MstLabel) → said_by mst_shape C.takes label.now.bits.now ≡ Some own
        → glance_of own ≡ label.now.glance.now → result ≡ names_all_fragments own }
{
    let MstGlance { head, kept, front } = label.glance;
    let first = in_front(*kept);
    if !front_has(front, first, head.own) {
        return false;
    }
    let past = first as u64;
    if head.count <= past {
        return true;
    }
    let mut numbers = behind_front::<C>(label.bits, first);
    all_have(&mut numbers, head.count - past, head.own)
}

#[inline(always)]
fn front_has(front: &[KeptLevel; FRONT], count: usize, fragment: u64) -> bool
    requires { count ≤ FRONT }
    ensures { result ≡ list_all (λ level. level.fragment == fragment) (take count front.now) }
{
    for place in 0..count {
        if u64::from(front[place].fragment) != fragment {
            return false;
        }
    }
    true
}
