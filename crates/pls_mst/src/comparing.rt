//! The levels of a node and those of a neighbour, side by side.

ghost use Rattle.std.specs.Prelude.{◌≡◌, ◌≤◌, ◌==◌, nat_lt, ◌&&◌, ◌||◌, take, Some};
ghost use Rattle.pls_facts.specs.EdgeOrder.{edge_key, is_same_edge};
ghost use Rattle.pls_boruvka.specs.Boruvka.{chosen_edge};
ghost use Rattle.pls_numbers.specs.Shape.{said_by};
ghost use Rattle.pls_numbers.specs.Taking.{items_off};
ghost use Rattle.pls_mst.specs.declared.glance.TheConstants.{FRONT};
ghost use Rattle.pls_mst.specs.Labels.{MstLabel, level_off, mst_shape};
ghost use Rattle.pls_mst.specs.Rules.{chose_least, is_at_most, is_chosen_between, is_named_or_shared, on_each_level};
ghost use Rattle.pls_mst.specs.inner.Comparing.{CountsAs, both_compared, compared, edge_between, outside_of};
ghost use Rattle.pls_mst.specs.inner.Glance.{all_whole, glance_of};

use crate::glance::{FRONT, MstGlance, behind_front, in_front};
use crate::kept_level::KeptLevel;
use crate::reading::read_level;
use pls_bits::NumCode;
use pls_boruvka::Level;
use pls_numbers::Numbers;
use pls_scheme::LabelGlance;

/// The edge at a port of a node, as it is weighed against the edges that fragments chose.
#[derive(Clone, Copy, Debug, PartialEq, Eq)]
pub struct PortEdge {
    pub(crate) weight: u64,
    pub(crate) in_tree: bool,
    // The smaller identity of its ends.
    pub(crate) a: u64,
    // The greater identity of its ends.
    pub(crate) b: u64,
}

/// What the levels of a node and of a neighbour say together.
#[derive(Clone, Copy, Debug, PartialEq, Eq)]
pub struct LevelComparison {
    // Each fragment has the node's name, or the neighbour is in it too.
    pub(crate) shares: bool,
    // The chosen edges agree inside of fragments, and do not come behind the edge between two.
    pub(crate) least: bool,
    // The edge between them was chosen by the fragment of one of the two, which it leaves.
    pub(crate) chosen: bool,
}

// Compares the kept levels first, then those in the bits, up to the end of the shorter label. At a
// port along which the node does not point `least` alone counts.
pub(crate) fn compare_levels<C: NumCode>(
    pointer: bool,
    mine: &LabelGlance<'_, MstGlance>,
    theirs: &LabelGlance<'_, MstGlance>,
    between: &PortEdge,
) -> LevelComparison
    ensures { (own other : MstLabel) → said_by mst_shape C.takes mine.now.bits.now ≡ Some own
        → glance_of own ≡ mine.now.glance.now
        → said_by mst_shape C.takes theirs.now.bits.now ≡ Some other
        → glance_of other ≡ theirs.now.glance.now
        → CountsAs pointer result (compared between.now own.own own.levels other.levels) }
{
    let MstGlance { head, kept, front } = mine.glance;
    let first = in_front((*kept).min(theirs.glance.kept));
    let found = compare_fronts(
        pointer,
        front,
        &theirs.glance.front,
        first,
        between,
        head.own,
    );
    let shared = head.count.min(theirs.glance.head.count);
    let past = first as u64;
    if shared <= past {
        return found;
    }
    let mut here = behind_front::<C>(mine.bits, first);
    let mut there = behind_front::<C>(theirs.bits, first);
    let left = shared - past;
    compare_behind(found, &mut here, &mut there, left, between, head.own)
}

#[inline(always)]
fn compare_fronts(
    pointer: bool,
    mine: &[KeptLevel; FRONT],
    theirs: &[KeptLevel; FRONT],
    count: usize,
    between: &PortEdge,
    own: u64,
) -> LevelComparison
    requires { count ≤ FRONT }
    ensures { CountsAs pointer result (compared between.now own (take count (all_whole mine.now))
        (take count (all_whole theirs.now))) }
{
    let mut found = LevelComparison {
        shares: true,
        least: true,
        chosen: false,
    };
    if !pointer {
        found.least = fronts_chose_least(mine, theirs, count, between);
        return found;
    }
    for place in 0..count {
        let here = mine[place].whole();
        let there = theirs[place].whole();
        found = with_level(found, between, own, &here, &there);
    }
    found
}

// At most of the ports this alone counts, so it stands by itself: on most levels the weights
// settle it.
#[inline(always)]
fn fronts_chose_least(
    mine: &[KeptLevel; FRONT],
    theirs: &[KeptLevel; FRONT],
    count: usize,
    between: &PortEdge,
) -> bool
    requires { count ≤ FRONT }
    ensures { result
        ≡ on_each_level (chose_least (edge_between between.now) (outside_of between.now))
        (take count (all_whole mine.now)) (take count (all_whole theirs.now)) }
{
    for place in 0..count {
        if !chose_least(between, &mine[place].whole(), &theirs[place].whole()) {
            return false;
        }
    }
    true
}

// Adds up to `count` levels to `before`. Right labels agree behind the first shared fragment, so
// the rests are compared once, as bits.
fn compare_behind<C: NumCode>(
    before: LevelComparison,
    mine: &mut Numbers<'_, C>,
    theirs: &mut Numbers<'_, C>,
    count: u64,
    between: &PortEdge,
    own: u64,
) -> LevelComparison
    ensures { result ≡ both_compared before (compared between.now own
        (items_off level_off count mine.old.numbers)
        (items_off level_off count theirs.old.numbers)) }
{
    let mut found = before;
    let mut apart = true;
    for _ in 0..count {
        let Some(here) = read_level(mine) else {
            return found;
        };
        let Some(there) = read_level(theirs) else {
            return found;
        };
        found = with_level(found, between, own, &here, &there);
        let meet = apart && here.fragment == there.fragment;
        if meet && mine.rest().equal(theirs.rest()) {
            return found;
        }
        apart = apart && !meet;
    }
    found
}

#[inline(always)]
fn with_level(
    found: LevelComparison,
    between: &PortEdge,
    own: u64,
    mine: &Level,
    theirs: &Level,
) -> LevelComparison
    ensures shares { result.shares ≡ (found.shares && is_named_or_shared own mine.now theirs.now) }
    ensures least { result.least ≡ (found.least
        && chose_least (edge_between between.now) (outside_of between.now) mine.now theirs.now) }
    ensures chosen { result.chosen ≡ (found.chosen
        || is_chosen_between (edge_between between.now) mine.now theirs.now) }
{
    let LevelComparison {
        shares,
        least,
        chosen,
    } = found;
    LevelComparison {
        shares: shares && is_named_or_shared(own, mine, theirs),
        least: least && chose_least(between, mine, theirs),
        chosen: chosen || is_chosen_between(between, mine, theirs),
    }
}

#[inline(always)]
fn is_named_or_shared(own: u64, mine: &Level, theirs: &Level) -> bool
    ensures { result ≡ is_named_or_shared own mine.now theirs.now }
{
    mine.fragment == own || mine.fragment == theirs.fragment
}

// In one fragment both chose the same edge; else the own choice comes no later than `between`.
#[inline(always)]
fn chose_least(between: &PortEdge, mine: &Level, theirs: &Level) -> bool
    ensures { result ≡ chose_least (edge_between between.now) (outside_of between.now) mine.now
        theirs.now }
{
    if mine.fragment == theirs.fragment {
        chose_same(mine, theirs)
    } else {
        comes_no_later(mine, between)
    }
}

#[inline(always)]
fn chose_same(mine: &Level, theirs: &Level) -> bool
    ensures { result ≡ is_same_edge (chosen_edge mine.now) (chosen_edge theirs.now) }
{
    mine.a == theirs.a && (mine.b == theirs.b && mine.weight == theirs.weight)
}

// The order is by weight, then tree edges first, then by the ends.
#[inline(always)]
fn comes_no_later(mine: &Level, between: &PortEdge) -> bool
    ensures { result ≡ is_at_most (edge_key (chosen_edge mine.now) 0)
        (edge_key (edge_between between.now) (outside_of between.now)) }
{
    if mine.weight < between.weight {
        return true;
    }
    let ends = is_less_or(mine.a, between.a, is_less_or(mine.b, between.b, true));
    mine.weight == between.weight && (!between.in_tree || ends)
}

// One step of a lexicographic comparison.
#[inline(always)]
fn is_less_or(one: u64, other: u64, follows: bool) -> bool
    ensures { result ≡ (nat_lt one other || (one == other && follows)) }
{
    one < other || (one == other && follows)
}

#[inline(always)]
fn is_chosen_between(between: &PortEdge, mine: &Level, theirs: &Level) -> bool
    ensures { result ≡ is_chosen_between (edge_between between.now) mine.now theirs.now }
{
    mine.fragment != theirs.fragment && (is_edge(mine, between) || is_edge(theirs, between))
}

#[inline(always)]
fn is_edge(level: &Level, between: &PortEdge) -> bool
    ensures { result ≡ is_same_edge (chosen_edge level.now) (edge_between between.now) }
{
    level.a == between.a && (level.b == between.b && level.weight == between.weight)
}
