//! The parts of all labels of a combination, each lent once for all the nodes that see it.

ghost use Rattle.std.specs.Prelude.{◌≡◌, [], drop, map, IfOk};
ghost use Rattle.std.specs.Option.{option_map_or};
ghost use Rattle.pls_parts.specs.Parts.{first_part, has_parts, second_part, tag_of};

use crate::narrowing::{parts, tag_of, without_tag};
use pls_bits::{Bits, NumCode};
use pls_labels::{Labels, LentLabels};
use pls_streams::NoMemory;
use std::alloc::Global;

/// The two parts of each label of a conjunction.
#[derive(Drop)]
pub struct LabelParts<'a> {
    /// The first parts, empty where there is none.
    pub fronts: LentLabels<'a>,
    /// The second parts, empty where there is none.
    pub backs: LentLabels<'a>,
    /// Which labels have both.
    pub whole: Vec<bool>,
}

/// All labels, lent.
pub fn lend_all<'a, L: Labels>(alloc: Global, labels: &'a L) -> Result<LentLabels<'a>, NoMemory>
    ensures { IfOk result (λ lent. lent ≡ L.listed labels.now) }
{
    let mut lent = LentLabels::with_capacity(alloc, labels.len())?;
    for i in 0..labels.len() {
        lent.push(labels.bits(i))?;
    }
    Ok(lent)
}

/// The two parts of each label.
pub fn part_all<'a, C: NumCode>(
    alloc: Global,
    labels: &'a LentLabels<'_>,
) -> Result<LabelParts<'a>, NoMemory>
    ensures fronts { IfOk result
        (λ parted. parted.fronts ≡ map (first_part C.takes) labels.now) }
    ensures backs { IfOk result
        (λ parted. parted.backs ≡ map (second_part C.takes) labels.now) }
    ensures whole { IfOk result
        (λ parted. parted.whole.items ≡ map (has_parts C.takes) labels.now) }
{
    let mut fronts = LentLabels::with_capacity(alloc, labels.len())?;
    let mut backs = LentLabels::with_capacity(alloc, labels.len())?;
    let mut whole = Vec::with_capacity(alloc, labels.len())?;
    for i in 0..labels.len() {
        let bits = labels.bits(i);
        let parts = parts::<C>(&bits);
        whole.push(parts.is_some())?;
        let (front, back) = parts_or_none(parts);
        fronts.push(front)?;
        backs.push(back)?;
    }
    Ok(LabelParts {
        fronts,
        backs,
        whole,
    })
}

// The parts, or two empty ones.
fn parts_or_none<'a>(parts: Option<(Bits<'a>, Bits<'a>)>) -> (Bits<'a>, Bits<'a>)
    ensures front { result.0 ≡ option_map_or (λ parts. parts.0) parts.entry [] }
    ensures back { result.1 ≡ option_map_or (λ parts. parts.1) parts.entry [] }
{
    match parts {
        Some(parts) => parts,
        None => (Bits::default(), Bits::default()),
    }
}

/// The tag of each label of a disjunction.
pub fn tags_of(alloc: Global, labels: &LentLabels<'_>) -> Result<Vec<Option<bool>>, NoMemory>
    ensures { IfOk result (λ tags. tags.items ≡ map tag_of labels.now) }
{
    let mut tags = Vec::with_capacity(alloc, labels.len())?;
    for i in 0..labels.len() {
        tags.push(tag_of(&labels.bits(i)))?;
    }
    Ok(tags)
}

/// What stands behind the first bit of each label, empty where there is nothing.
pub fn rests_of<'a>(alloc: Global, labels: &'a LentLabels<'_>) -> Result<LentLabels<'a>, NoMemory>
    ensures { IfOk result (λ rests. rests ≡ map (drop 1) labels.now) }
{
    let mut rests = LentLabels::with_capacity(alloc, labels.len())?;
    for i in 0..labels.len() {
        rests.push(without_tag(&labels.bits(i)))?;
    }
    Ok(rests)
}
