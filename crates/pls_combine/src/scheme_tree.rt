//! Expressions of schemes, and what each of their calls does, by cases.

ghost use Rattle.std.specs.Prelude.{◌≡◌, true, ◌≤◌, ◌↔◌, length, All, IsOk, IfOk, IsTrue, IfSome, IfNone};
ghost use Rattle.pls_graph.specs.Size.{size_of};
ghost use Rattle.pls_configuration.specs.Walk.{IsConnected};
ghost use Rattle.pls_scheme.specs.Judging.{AllAccept};
ghost use Rattle.pls_streams.specs.Steps.{capped};
ghost use Rattle.pls_expressions.specs.Expression.{HasProperty};
ghost use Rattle.pls_combine.specs.Expression.{IsMarked, judge_of, leaves_of, lends_of, longest_of};
ghost use Rattle.pls_expressions.specs.Held.{expression_of};

use pls_bits::NumCode;
use pls_configuration::Verdict;
use pls_expressions::{ExpressionTree, LentProperty};
use pls_facts::is_valid;
use pls_graph::{Network, Size};
use pls_labels::{LabelStore, View};
use pls_names::SchemeByName;
use pls_parts::{
    FirstPart, Rest, SecondPart, joined_bound, joined_labels, lacks_parts, own_tag, tagged_bound,
    tagged_labels, verdict_behind,
};
use pls_scheme::{Checker, Scheme};
use pls_streams::{NoMemory, Steps};
use pls_universal::MapOf;
use std::alloc::Global;

pub(crate) fn map_of<C>(tree: &ExpressionTree) -> MapOf<LentProperty<'_>, C>
    ensures { result.property.tree.now ≡ tree.now }
{
    MapOf::new(LentProperty { tree })
}

pub(crate) fn leaves_of(tree: &ExpressionTree) -> u8
    requires { leaves_of (expression_of tree.now) ≤ 8 }
    ensures value { result ≡ leaves_of (expression_of tree.now) }
    ensures some { 1 ≤ result }
{
    match tree {
        ExpressionTree::And(first, second) | ExpressionTree::Or(first, second) => {
            leaves_of(first) + leaves_of(second)
        }
        _ => 1,
    }
}

// Whether a view of at most 8 ports is judged without memory.
pub(crate) fn lends_of(tree: &ExpressionTree) -> bool
    ensures { result ≡ lends_of (expression_of tree.now) }
{
    match tree {
        ExpressionTree::Of(_) => true,
        ExpressionTree::And(first, second) | ExpressionTree::Or(first, second) => {
            lends_of(first) && lends_of(second)
        }
        _ => false,
    }
}

#[tactic(auto, using(pls_parts::proofs::Verdicts::judged_first, pls_parts::proofs::Verdicts::judged_second, crate::proofs::Leaves::expression_leaf))]
pub(crate) fn verify_tree<C: NumCode>(
    alloc: Global,
    tree: &ExpressionTree,
    view: &View<'_>,
) -> Result<Verdict, NoMemory>
    requires { leaves_of (expression_of tree.now) ≤ 8 }
    ensures verdict { IfOk result
        (λ verdict. verdict ≡ judge_of C.takes (expression_of tree.now) view.now) }
    ensures lent { lends_of (expression_of tree.now) ≡ true → length view.now.ports ≤ 8
        → IsOk result }
{
    match tree {
        ExpressionTree::Of(name) => SchemeByName::<C>::new(*name).verify(
            alloc,
            view,
            &mut Steps::new(),
        ),
        ExpressionTree::And(first, second) => {
            if let Some(verdict) = lacks_parts::<C>(view) {
                return Ok(verdict);
            }
            let part = view.part(alloc, &FirstPart::<C>::new())?;
            match verify_tree::<C>(alloc, first, &part)? {
                Verdict::Reject { leaf, rule } => Ok(Verdict::Reject { leaf, rule }),
                Verdict::Accept => {
                    let part = view.part(alloc, &SecondPart::<C>::new())?;
                    let verdict = verify_tree::<C>(alloc, second, &part)?;
                    Ok(verdict_behind(leaves_of(first), verdict))
                }
            }
        }
        ExpressionTree::Or(first, second) => {
            let tag = match own_tag(view) {
                Ok(tag) => tag,
                Err(verdict) => return Ok(verdict),
            };
            let part = view.part(alloc, &Rest::new())?;
            if tag {
                let verdict = verify_tree::<C>(alloc, second, &part)?;
                Ok(verdict_behind(leaves_of(first), verdict))
            } else {
                verify_tree::<C>(alloc, first, &part)
            }
        }
        property => map_of::<C>(property).verify(alloc, view, &mut Steps::new()),
    }
}

// `u64::MAX` where the bound is greater.
pub(crate) fn bound_of<C: NumCode>(tree: &ExpressionTree, size: &Size) -> u64
    ensures { result ≡ capped (longest_of C.code (expression_of tree.now) size.now) }
{
    match tree {
        ExpressionTree::Of(name) => SchemeByName::<C>::new(*name).bound(size),
        ExpressionTree::And(first, second) => {
            joined_bound::<C>(bound_of::<C>(first, size), bound_of::<C>(second, size))
        }
        ExpressionTree::Or(first, second) => {
            tagged_bound(bound_of::<C>(first, size), bound_of::<C>(second, size))
        }
        property => map_of::<C>(property).bound(size),
    }
}

// `None` exactly where the property fails; the network is connected.
pub(crate) fn mark_tree<C: NumCode>(
    alloc: Global,
    tree: &ExpressionTree,
    net: &Network,
) -> Result<Option<LabelStore>, NoMemory>
    requires { IsConnected net.now }
    ensures lacking { IfOk result (λ found. IfNone found
        (HasProperty (expression_of tree.now) net.now → ⊥)) }
    ensures holds { IfOk result (λ found. IfSome found
        (λ labels. HasProperty (expression_of tree.now) net.now)) }
    ensures marked { IfOk result (λ found. IfSome found
        (λ labels. IsMarked C.code (expression_of tree.now) net.now labels)) }
    ensures each { IfOk result (λ found. IfSome found
        (λ labels. length labels ≡ length net.now)) }
    ensures accepted { IfOk result (λ found. IfSome found
        (λ labels. AllAccept (judge_of C.takes (expression_of tree.now)) net.now labels)) }
    ensures short { IfOk result (λ found. IfSome found (λ labels. All (λ label. length label
        ≤ capped (longest_of C.code (expression_of tree.now) (size_of net.now))) labels)) }
{
    match tree {
        ExpressionTree::Of(name) => SchemeByName::<C>::new(*name).mark(alloc, net),
        ExpressionTree::And(first, second) => {
            let Some(fronts) = mark_tree::<C>(alloc, first, net)? else {
                return Ok(None);
            };
            let Some(backs) = mark_tree::<C>(alloc, second, net)? else {
                return Ok(None);
            };
            is_valid(net);
            let labels = joined_labels::<C>(alloc, &fronts, &backs)?;
            Ok(Some(labels))
        }
        ExpressionTree::Or(first, second) => {
            is_valid(net);
            if let Some(rests) = mark_tree::<C>(alloc, first, net)? {
                let labels = tagged_labels(alloc, false, &rests)?;
                return Ok(Some(labels));
            }
            let Some(rests) = mark_tree::<C>(alloc, second, net)? else {
                return Ok(None);
            };
            let labels = tagged_labels(alloc, true, &rests)?;
            Ok(Some(labels))
        }
        ExpressionTree::Diameter(_) => map_of::<C>(tree).mark(alloc, net),
        ExpressionTree::Bridgeless => map_of::<C>(tree).mark(alloc, net),
        ExpressionTree::Map(_) => map_of::<C>(tree).mark(alloc, net),
    }
}
