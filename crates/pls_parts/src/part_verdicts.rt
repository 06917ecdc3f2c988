//! Verdicts of combinations by those on their parts.

ghost use Rattle.std.specs.Prelude.{◌≡◌, ◌-◌, ◌↔◌, Bool, List, All, None, Some, true, false, drop, is_some, length, map, slice_get, unwrap_or, IfOk, IsTrue};
ghost use Rattle.pls_labels.specs.Seen.{Seen};
ghost use Rattle.pls_scheme.specs.Judging.{LeafWithin, verdicts_by};
ghost use Rattle.pls_parts.specs.Combined.{judge_both, judge_one_of, verdict_behind};
ghost use Rattle.pls_parts.specs.Parts.{first_part, has_parts, is_tag, second_part, tag_of};
ghost use Rattle.pls_parts.specs.inner.Rounds.{all_tags, all_true, both_verdict, HasTag, one_of_verdict};

use crate::narrowing::is_tag;
use crate::raising::verdict_behind;
use pls_bits::NumCode;
use pls_configuration::Verdict;
use pls_graph::Network;
use pls_streams::NoMemory;
use std::alloc::Global;

/// The verdict of each node on a conjunction, whose first part has so many leaves, by which labels
/// have their parts and by the verdicts on both parts.
pub fn both_verdicts<C: NumCode>(
    alloc: Global,
    net: &Network,
    whole: &[bool],
    leaves: u8,
    firsts: &[Verdict],
    seconds: &[Verdict],
) -> Result<Vec<Verdict>, NoMemory>
    requires each { length whole.now ≡ length net.now }
    requires firsts { length firsts.now ≡ length net.now }
    requires seconds { length seconds.now ≡ length net.now }
    requires few { All (LeafWithin (255 - leaves)) seconds.now }
    ensures { IfOk result (λ found. (labels : List (List Bool)) (one two : Seen → Verdict)
        → length labels ≡ length net.now → whole.now ≡ map (has_parts C.takes) labels
        → firsts.now ≡ verdicts_by one net.now (map (first_part C.takes) labels)
        → seconds.now ≡ verdicts_by two net.now (map (second_part C.takes) labels)
        → found.items ≡ verdicts_by (judge_both C.takes one leaves two) net.now labels) }
{
    let mut verdicts = Vec::with_capacity(alloc, net.len())?;
    for i in 0..net.len() {
        let ports = all_at(whole, net.places(i));
        let verdict = both_verdict(whole[i], ports, leaves, firsts[i], seconds[i]);
        verdicts.push(verdict)?;
    }
    Ok(verdicts)
}

// `own` and `ports` tell whether the labels have two parts; `leaves` counts the leaves of the first
// part.
fn both_verdict(own: bool, ports: bool, leaves: u8, first: Verdict, second: Verdict) -> Verdict
    requires { LeafWithin (255 - leaves) second }
    ensures { result ≡ both_verdict own ports leaves first second }
{
    if !own {
        return Verdict::Reject { leaf: 0, rule: 1 };
    }
    if !ports {
        return Verdict::Reject { leaf: 0, rule: 2 };
    }
    match first {
        Verdict::Accept => verdict_behind(leaves, second),
        Verdict::Reject { leaf, rule } => Verdict::Reject { leaf, rule },
    }
}

/// The verdict of each node on a disjunction, whose first part has so many leaves, by the tags and
/// by the verdicts on the parts. Where no label has the tag of a part, there may be no verdicts on
/// it.
pub fn one_of_verdicts(
    alloc: Global,
    net: &Network,
    tags: &[Option<bool>],
    leaves: u8,
    firsts: &[Verdict],
    seconds: &[Verdict],
) -> Result<Vec<Verdict>, NoMemory>
    requires each { length tags.now ≡ length net.now }
    requires few { All (LeafWithin (255 - leaves)) seconds.now }
    ensures { IfOk result (λ found. (labels : List (List Bool)) (one two : Seen → Verdict)
        → length labels ≡ length net.now → tags.now ≡ map tag_of labels
        → (HasTag false tags.now → firsts.now ≡ verdicts_by one net.now (map (drop 1) labels))
        → (HasTag true tags.now → seconds.now ≡ verdicts_by two net.now (map (drop 1) labels))
        → found.items ≡ verdicts_by (judge_one_of one leaves two) net.now labels) }
{
    let mut verdicts = Vec::with_capacity(alloc, net.len())?;
    for i in 0..net.len() {
        let own = tags[i];
        let named = named_verdict(own, leaves, firsts, seconds, i);
        verdicts.push(one_of_verdict(tags, net.places(i), named, own))?;
    }
    Ok(verdicts)
}

// `places` are those of the neighbours, and `named` is the verdict of the part that the own tag
// names.
fn one_of_verdict(
    tags: &[Option<bool>],
    places: &[u32],
    named: Verdict,
    own: Option<bool>,
) -> Verdict
    ensures { result ≡ one_of_verdict tags.now places.now named own }
{
    let Some(tag) = own else {
        return Verdict::Reject { leaf: 0, rule: 1 };
    };
    if !all_tagged(tags, places) {
        return Verdict::Reject { leaf: 0, rule: 2 };
    }
    if !all_have_tag(tag, tags, places) {
        return Verdict::Reject { leaf: 0, rule: 3 };
    }
    named
}

// The leaves of the second part follow the `leaves` of the first.
fn named_verdict(
    own: Option<bool>,
    leaves: u8,
    firsts: &[Verdict],
    seconds: &[Verdict],
    i: usize,
) -> Verdict
    requires { All (LeafWithin (255 - leaves)) seconds.now }
    ensures first { own ≡ Some false → (verdict : Verdict)
        → slice_get firsts.now i ≡ Some verdict → result ≡ verdict }
    ensures second { own ≡ Some true → (verdict : Verdict)
        → slice_get seconds.now i ≡ Some verdict → result ≡ verdict_behind leaves verdict }
{
    if is_tag(true, own) {
        match seconds.get(i) {
            Some(verdict) => verdict_behind(leaves, *verdict),
            None => Verdict::Reject { leaf: 0, rule: 1 },
        }
    } else {
        match firsts.get(i) {
            Some(verdict) => *verdict,
            None => Verdict::Reject { leaf: 0, rule: 1 },
        }
    }
}

fn all_tagged(tags: &[Option<bool>], places: &[u32]) -> bool
    ensures { result ≡ all_tags is_some tags.now places.now }
{
    places.iter().all(|place| tag_at(tags, *place).is_some())
}

fn all_have_tag(tag: bool, tags: &[Option<bool>], places: &[u32]) -> bool
    ensures { result ≡ all_tags (is_tag tag) tags.now places.now }
{
    places.iter().all(|place| is_tag(tag, tag_at(tags, *place)))
}

// `None` where the place is out of range.
#[inline(always)]
fn tag_at(tags: &[Option<bool>], place: u32) -> Option<bool>
    ensures { result ≡ unwrap_or (slice_get tags.now place) None }
{
    tags.get(place as usize).copied().unwrap_or(None)
}

fn all_at(marks: &[bool], places: &[u32]) -> bool
    ensures { result ≡ all_true marks.now places.now }
{
    places.iter().all(|place| is_true_at(marks, *place))
}

// False where the place is out of range.
#[inline(always)]
fn is_true_at(marks: &[bool], place: u32) -> bool
    ensures { result ≡ unwrap_or (slice_get marks.now place) false }
{
    marks.get(place as usize).copied().unwrap_or(false)
}

/// Whether some label has this tag.
pub fn has_tag(tag: bool, tags: &[Option<bool>]) -> bool
    ensures { IsTrue result ↔ HasTag tag tags.now }
{
    !tags.iter().all(|found| !is_tag(tag, *found))
}
