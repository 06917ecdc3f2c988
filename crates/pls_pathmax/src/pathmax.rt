//! The scheme `pathmax`: what it states of its own, and how a node judges by it.

ghost use Rattle.std.specs.Prelude.{◌≡◌, List, length, Some, true, false};
ghost use Rattle.pls_numbers.specs.Shape.{said_by};
ghost use Rattle.pls_scheme.specs.Basic.{verdict_by};
ghost use Rattle.pls_scheme.specs.Reading.{ReadPort, reading};
ghost use Rattle.pls_pathmax.specs.Labels.{PathMaxLabel, pathmax_shape};
ghost use Rattle.pls_pathmax.specs.Rules.{pathmax_rules};
ghost use Rattle.pls_pathmax.specs.inner.Reading.{head_said};
ghost use Rattle.pls_pathmax.specs.inner.OnePass.{HaveFurtherWays, IsReadThrough, is_by_rule_5, is_settled};

use crate::gathering::WINDOW;
use crate::glance::{LONG_FRONT, SHORT_FRONT};
use crate::levels::PathMaxFormat;
use crate::pass::PathMaxPass;
use pls_bits::{Bits, NumCode};
use pls_configuration::Verdict;
use pls_graph::Network;
use pls_labels::{Labels, View};
use pls_levels::{LevelHead, read_head};
use pls_numbers::Numbers;
use pls_scheme::{Basic, Judgement};
use std::marker::PhantomData;

/// What the scheme states of its own: how labels are written, the rules, the property, and what
/// labels are right.
#[derive(Clone, Copy, Debug, PartialEq, Eq)]
pub struct PathMaxRules<C> {
    code: PhantomData<C>,
    format: PathMaxFormat,
}

impl<C> Default for PathMaxRules<C> {
    fn default() -> Self {
        PathMaxRules {
            code: PhantomData,
            format: PathMaxFormat::default(),
        }
    }
}

impl<C: NumCode> Judgement for PathMaxRules<C> {
    ghost use Rattle.pls_pathmax.specs.Rules.{pathmax_rules};

    type Code = C;

    type Format = PathMaxFormat;

    ghost format = { λ s. s.format };

    ghost rules = { λ _. pathmax_rules };

    fn format(&self) -> &PathMaxFormat {
        &self.format
    }
}

pub(crate) fn pass_from<C, const N: usize>(first: u64) -> Basic<PathMaxPass<C, N>>
    ensures { result.rules.first ≡ first }
{
    Basic {
        rules: PathMaxPass::from_level(first),
    }
}

// Asks all rules, in as many passes as the levels need.
pub(crate) fn judge_view<C: NumCode>(view: &View<'_>) -> Verdict
    ensures { result ≡ verdict_by pathmax_shape pathmax_rules C.takes view.now }
{
    let verdict = pass_from::<C, LONG_FRONT>(0).judge(view);
    if is_settled(&verdict) {
        return verdict;
    }
    let count = count_of::<C>(&view.own);
    if have_further_ways::<C>(view, count) {
        return verdict;
    }
    Verdict::Reject { leaf: 1, rule: 5 }
}

// Asks rule 5 of the levels behind the first pass, of `count` in all.
fn have_further_ways<C: NumCode>(view: &View<'_>, count: u64) -> bool
    ensures { (own : PathMaxLabel) (ports : List (ReadPort PathMaxLabel))
        → IsReadThrough (said_by pathmax_shape C.takes) view.now own ports
        → length own.levels ≡ count
        → HaveFurtherWays (reading view.now.id view.now.state own ports) result }
{
    let mut first = WINDOW as u64;
    while first < count {
        let verdict = pass_from::<C, LONG_FRONT>(first).judge(view);
        if is_by_rule_5(&verdict) {
            return false;
        }
        first = first.saturating_add(WINDOW as u64);
    }
    true
}

// Whether the label of the node in the middle has no more levels than a short front takes. That
// others have no more either is a guess, and changes no verdict.
pub(crate) fn are_short<C: NumCode, L: Labels>(net: &Network, labels: &L) -> bool
    requires { length (L.listed labels.now) ≡ length net.now }
{
    count_of::<C>(&labels.bits(net.len() / 2)) <= SHORT_FRONT as u64
}

// The number of levels that a label states, 0 where no head comes first.
pub(crate) fn count_of<C: NumCode>(bits: &Bits<'_>) -> u64
    ensures { (label : PathMaxLabel) → said_by pathmax_shape C.takes bits.now ≡ Some label
        → result ≡ length label.levels }
{
    match head_of::<C>(bits) {
        Some(head) => head.count,
        None => 0,
    }
}

pub(crate) fn head_of<C: NumCode>(bits: &Bits<'_>) -> Option<LevelHead>
    ensures { (label : PathMaxLabel) → said_by pathmax_shape C.takes bits.now ≡ Some label
        → result ≡ Some (head_said label) }
{
    let mut numbers = Numbers::<C>::of(bits);
    read_head(&mut numbers)
}

// Whether a verdict stands whatever rule 5 says of further levels.
pub(crate) fn is_settled(verdict: &Verdict) -> bool
    ensures { result ≡ is_settled verdict.now }
{
    match verdict {
        Verdict::Accept => false,
        Verdict::Reject { leaf: _, rule } => *rule < 6,
    }
}

fn is_by_rule_5(verdict: &Verdict) -> bool
    ensures { result ≡ is_by_rule_5 verdict.now }
{
    match verdict {
        Verdict::Accept => false,
        Verdict::Reject { leaf: _, rule } => *rule == 5,
    }
}
