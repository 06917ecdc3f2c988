//! Labels that are read where they lie: what stands in front of the levels, and the levels one
//! after another.

ghost use Rattle.std.specs.Prelude.{◌≡◌, true, false, Some, IfSome, IfNone, IfOk, option_map};
ghost use Rattle.pls_numbers.specs.Shape.{said_by};
ghost use Rattle.pls_numbers.specs.Taking.{IsTaken};
ghost use Rattle.pls_levels.specs.declared.label.LevelLabel.{LevelLabel};
ghost use Rattle.pls_levels.specs.Labels.{AreFewer, AreLevelsLeft, ArePassed, are_levels, head_of, head_off, items_of, level_shape, levels_off};

use crate::label::LevelHead;
use crate::level_kind::LevelKind;
use pls_bits::{Bits, NumCode};
use pls_numbers::Numbers;
use pls_streams::NoMemory;
use std::alloc::Global;

/// What stands in front of the levels, or `None` where the bits are no label, read to the last bit.
/// It takes no memory.
pub fn head_in<K: LevelKind, C: NumCode>(bits: &Bits<'_>) -> Option<LevelHead>
    ensures { result
        ≡ option_map (head_of K.form) (said_by (level_shape K.form) C.takes bits.now) }
{
    let mut numbers = Numbers::<C>::of(bits);
    let head = read_head(&mut numbers)?;
    if are_levels::<K, C>(&mut numbers, head.count) {
        Some(head)
    } else {
        None
    }
}

/// The numbers of the levels of a label.
pub fn levels_of<'a, K: LevelKind, C: NumCode>(bits: &Bits<'a>) -> Numbers<'a, C>
    ensures { (label : LevelLabel K.List)
        → said_by (level_shape K.form) C.takes bits.now ≡ Some label
        → AreLevelsLeft K.form result (items_of K.form label.levels) }
{
    let mut numbers = Numbers::of(bits);
    read_head(&mut numbers);
    numbers
}

/// The numbers of the levels of a label whose head is known, which is passed and not read again.
pub fn levels_behind<'a, K: LevelKind, C: NumCode>(
    bits: &Bits<'a>,
    head: &LevelHead,
) -> Numbers<'a, C>
    ensures { (label : LevelLabel K.List)
        → said_by (level_shape K.form) C.takes bits.now ≡ Some label
        → head_of K.form label ≡ head.now
        → AreLevelsLeft K.form result (items_of K.form label.levels) }
{
    let mut numbers = Numbers::of(bits);
    numbers.pass(head.root);
    numbers.pass(head.own);
    numbers.pass(head.parent);
    numbers.pass(head.depth);
    numbers.pass(head.count);
    numbers
}

/// Reads the five numbers in front of the levels; `None` where fewer are left.
#[inline]
pub fn read_head<C: NumCode>(numbers: &mut Numbers<'_, C>) -> Option<LevelHead>
    ensures found { IfSome result (λ head. IsTaken head_off head numbers.old numbers.new) }
    ensures none { IfNone result (head_off numbers.old.numbers ≡ None) }
{
    let root = numbers.next()?;
    let own = numbers.next()?;
    let parent = numbers.next()?;
    let depth = numbers.next()?;
    let count = numbers.next()?;
    Some(LevelHead {
        root,
        own,
        parent,
        depth,
        count,
    })
}

/// Whether `count` levels are left and nothing more. It stops at the first that is missing.
pub fn are_levels<K: LevelKind, C: NumCode>(numbers: &mut Numbers<'_, C>, count: u64) -> bool
    ensures { result ≡ are_levels K.form count numbers.old }
{
    for _ in 0..count {
        if K::read_level(numbers).is_none() {
            return false;
        }
    }
    numbers.is_end()
}

/// Passes `count` levels; `false` where fewer are left, at the first that is missing.
pub fn pass_levels<K: LevelKind, C: NumCode>(numbers: &mut Numbers<'_, C>, count: u64) -> bool
    ensures passed { result ≡ true → ArePassed K.form count numbers.old numbers.new }
    ensures missing { result ≡ false → AreFewer K.form count numbers.old }
{
    for _ in 0..count {
        if K::read_level(numbers).is_none() {
            return false;
        }
    }
    true
}

/// Up to so many levels in memory, stopping where none comes next. The one error is want of memory.
pub fn read_levels<K: LevelKind, C: NumCode>(
    alloc: Global,
    numbers: &mut Numbers<'_, C>,
    count: u64,
) -> Result<Vec<K::Level>, NoMemory>
    ensures { IfOk result (λ found.
        found.items ≡ levels_off K.form count numbers.old.numbers) }
{
    let mut found = Vec::new(alloc);
    for _ in 0..count {
        let Some(level) = K::read_level(numbers) else {
            return Ok(found);
        };
        found.push(level)?;
    }
    Ok(found)
}
