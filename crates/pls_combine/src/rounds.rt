//! Rounds of expressions: each label is parted once for all the nodes that see it, the parts are
//! judged each in a round of its own, and the verdicts are joined.

ghost use Rattle.std.specs.Prelude.{◌≡◌, ◌≤◌, All, length, IfOk};
ghost use Rattle.pls_streams.specs.Steps.{up_by};
ghost use Rattle.pls_scheme.specs.Judging.{LeafWithin, RoseByAtMost, verdicts_by};
ghost use Rattle.pls_parts.specs.inner.Rounds.{HasTag};
ghost use Rattle.pls_combine.specs.Expression.{judge_map, judge_of, leaves_of};
ghost use Rattle.pls_expressions.specs.Held.{expression_of};

use crate::scheme_tree::{leaves_of, map_of};
use pls_bits::NumCode;
use pls_configuration::Verdict;
use pls_expressions::ExpressionTree;
use pls_graph::Network;
use pls_labels::{Labels, LentLabels};
use pls_names::SchemeByName;
use pls_parts::{both_verdicts, has_tag, lend_all, one_of_verdicts, part_all, rests_of, tags_of};
use pls_scheme::Checker;
use pls_streams::{NoMemory, Steps};
use std::alloc::Global;

// Adds one step per node.
pub(crate) fn round_of<C: NumCode, L: Labels>(
    alloc: Global,
    tree: &ExpressionTree,
    net: &Network,
    labels: &L,
    steps: &mut Steps,
) -> Result<Vec<Verdict>, NoMemory>
    requires few { leaves_of (expression_of tree.now) ≤ 8 }
    requires each { length (L.listed labels.now) ≡ length net.now }
    ensures verdicts { IfOk result (λ found. found.items
        ≡ verdicts_by (judge_of C.takes (expression_of tree.now)) net.now (L.listed labels.now)) }
    ensures few_steps { RoseByAtMost (length net.now) steps.old steps.new }
{
    count(steps, net.len());
    let lent = lend_all(alloc, labels)?;
    round_tree::<C>(alloc, tree, net, &lent)
}

fn count(steps: &mut Steps, most: usize)
    ensures { steps.new ≡ up_by most steps.old }
{
    for _ in 0..most {
        steps.tick();
    }
}

#[cycle(rounds)]
fn round_tree<C: NumCode>(
    alloc: Global,
    tree: &ExpressionTree,
    net: &Network,
    labels: &LentLabels<'_>,
) -> Result<Vec<Verdict>, NoMemory>
    requires few { leaves_of (expression_of tree.now) ≤ 8 }
    requires each { length labels.now ≡ length net.now }
    ensures verdicts { IfOk result (λ found. found.items
        ≡ verdicts_by (judge_of C.takes (expression_of tree.now)) net.now labels.now) }
    ensures leaves { IfOk result (λ found.
        All (LeafWithin (leaves_of (expression_of tree.now))) found.items) }
{
    let verdicts = match tree {
        ExpressionTree::Of(name) => {
            SchemeByName::<C>::new(*name).round(alloc, net, labels, &mut Steps::new())?
        }
        ExpressionTree::And(first, second) => {
            let parted = part_all::<C>(alloc, labels)?;
            let firsts = round_tree::<C>(alloc, first, net, &parted.fronts)?;
            let seconds = round_tree::<C>(alloc, second, net, &parted.backs)?;
            let leaves = leaves_of(first);
            both_verdicts::<C>(alloc, net, &parted.whole, leaves, &firsts, &seconds)?
        }
        ExpressionTree::Or(first, second) => {
            let tags = tags_of(alloc, labels)?;
            let rests = rests_of(alloc, labels)?;
            let firsts = round_tagged::<C>(alloc, first, net, &rests, false, &tags)?;
            let seconds = round_tagged::<C>(alloc, second, net, &rests, true, &tags)?;
            one_of_verdicts(alloc, net, &tags, leaves_of(first), &firsts, &seconds)?
        }
        ExpressionTree::Diameter(_) | ExpressionTree::Bridgeless | ExpressionTree::Map(_) => {
            round_map::<C>(alloc, tree, net, labels)?
        }
    };
    Ok(verdicts)
}

// Empty where no label has the tag of the part.
#[cycle(rounds)]
fn round_tagged<C: NumCode>(
    alloc: Global,
    part: &ExpressionTree,
    net: &Network,
    rests: &LentLabels<'_>,
    tag: bool,
    tags: &[Option<bool>],
) -> Result<Vec<Verdict>, NoMemory>
    requires few { leaves_of (expression_of part.now) ≤ 8 }
    requires each { length rests.now ≡ length net.now }
    ensures verdicts { IfOk result (λ found. HasTag tag tags.now → found.items
        ≡ verdicts_by (judge_of C.takes (expression_of part.now)) net.now rests.now) }
    ensures leaves { IfOk result (λ found.
        All (LeafWithin (leaves_of (expression_of part.now))) found.items) }
{
    if has_tag(tag, tags) {
        round_tree::<C>(alloc, part, net, rests)
    } else {
        Ok(Vec::new(alloc))
    }
}

fn round_map<C: NumCode>(
    alloc: Global,
    property: &ExpressionTree,
    net: &Network,
    labels: &LentLabels<'_>,
) -> Result<Vec<Verdict>, NoMemory>
    requires { length labels.now ≡ length net.now }
    ensures { IfOk result (λ found. found.items
        ≡ verdicts_by (judge_map C.takes (expression_of property.now)) net.now labels.now) }
{
    map_of::<C>(property).round(alloc, net, labels, &mut Steps::new())
}
