//! An expression of schemes as a scheme.

ghost use Rattle.std.specs.Prelude.{◌≡◌, ◌≢◌, ◌≤◌, IfNone, IfSome};
ghost use Rattle.pls_names.specs.declared.scheme_name.SchemeName.{SchemeName};
ghost use Rattle.pls_expressions.specs.Expression.{IsSmall, Of};
ghost use Rattle.pls_combine.specs.Expression.{leaves_of};
ghost use Rattle.pls_expressions.specs.Held.{expression_of};

use crate::rounds::round_of;
use crate::scheme_tree::{bound_of, leaves_of, lends_of, map_of, mark_tree, verify_tree};
use pls_bits::{BitBuf, Bits, NumCode};
use pls_configuration::Verdict;
use pls_expressions::{ExpressionTree, decide_tree};
use pls_graph::{Network, Size};
use pls_labels::{LabelStore, Labels, View};
use pls_names::{SchemeByName, SchemeName};
use pls_scheme::{Checker, Property, Scheme};
use pls_streams::{NoMemory, Steps};
use std::alloc::Global;
use std::marker::{Model, PhantomData};

/// An expression of schemes: one that stands in no `Map`.
pub type SchemeTree = ExpressionTree;

/// An expression of at most 8 names and a depth of at most 8, whose labels are written in
/// the number code `C`, seen as the expression.
#[derive(Drop)]
pub struct AnyScheme<C> {
    tree: ExpressionTree,
    code: PhantomData<C>,
}

impl<C> Model for AnyScheme<C> {
    ghost use Rattle.pls_expressions.specs.Expression.{Expression, IsSmall};
    ghost use Rattle.pls_expressions.specs.Held.{expression_of};
    ghost use Rattle.pls_expressions.specs.inner.Codes.{coded_expression};

    ghost Value = { Expression };

    ghost coded = { coded_expression };

    ghost view = { λ scheme. expression_of scheme.tree };

    ghost invariant = { λ scheme. IsSmall (expression_of scheme.tree) };
}

impl<C> AnyScheme<C> {
    /// The expression as a scheme. It takes no memory.
    pub fn new(tree: ExpressionTree) -> Self
        requires { IsSmall (expression_of tree) }
        ensures { result ≡ expression_of tree }
    {
        let code = PhantomData;
        AnyScheme { tree, code }
    }

    /// The same expression, whose labels are written in the number code `D`. It takes no memory.
    pub fn in_code<D>(self) -> AnyScheme<D>
        ensures { result ≡ self }
    {
        let AnyScheme { tree, code: _ } = self;
        let code = PhantomData;
        AnyScheme { tree, code }
    }

    /// The name, where the expression is one.
    pub fn name(&self) -> Option<SchemeName>
        ensures some { IfSome result (λ name. self.now ≡ Of name) }
        ensures none { IfNone result ((name : SchemeName) → self.now ≢ Of name) }
    {
        match &self.tree {
            ExpressionTree::Of(name) => Some(*name),
            _ => None,
        }
    }

    /// The expression.
    #[tactic(auto, using(crate::proofs::Leaves::leaves_few))]
    pub fn tree(&self) -> &ExpressionTree
        ensures same { expression_of result.now ≡ self.now }
        ensures small { IsSmall self.now }
        ensures leaves { leaves_of self.now ≤ 8 }
    {
        &self.tree
    }
}

impl<C: NumCode> Checker for AnyScheme<C> {
    ghost use Rattle.std.specs.Prelude.{true};
    ghost use Rattle.pls_combine.specs.Expression.{judge_of, leaves_of, lends_of};
    ghost use Rattle.pls_combine.specs.laws.ExpressionLaws.{expression_leaf};

    ghost judge = { λ s view. judge_of C.takes s view };

    ghost leaves = { λ s. leaves_of s };

    ghost lends = { λ s. lends_of s };

    ghost TAKES_MEMORY = { true };

    const TAKES_MEMORY: bool = true;

    fn leaves(&self) -> u8 {
        leaves_of(self.tree())
    }

    fn lends(&self) -> bool {
        lends_of(self.tree())
    }

    fn verify(
        &self,
        alloc: Global,
        view: &View<'_>,
        steps: &mut Steps,
    ) -> Result<Verdict, NoMemory> {
        steps.tick();
        verify_tree::<C>(alloc, self.tree(), view)
    }

    fn round<L: Labels>(
        &self,
        alloc: Global,
        net: &Network,
        labels: &L,
        steps: &mut Steps,
    ) -> Result<Vec<Verdict>, NoMemory> {
        match self.tree() {
            ExpressionTree::Of(name) => SchemeByName::<C>::new(*name).round(
                alloc, net, labels, steps,
            ),
            ExpressionTree::And(_, _) | ExpressionTree::Or(_, _) => {
                round_of::<C, L>(alloc, self.tree(), net, labels, steps)
            }
            property => map_of::<C>(property).round(alloc, net, labels, steps),
        }
    }

    ghost leaf_law = { λ s. expression_leaf C.takes s };

    ghost lends_law = { λ s no. absurd (cc) };
}

impl<C: NumCode> Property for AnyScheme<C> {
    ghost use Rattle.pls_expressions.specs.Expression.{HasProperty};

    ghost holds = { λ s rows. HasProperty s rows };

    fn decide(&self, alloc: Global, net: &Network) -> Result<bool, NoMemory> {
        decide_tree(alloc, self.tree(), net)
    }
}

/// A label is its bits, which may be any.
impl<C: NumCode> Scheme for AnyScheme<C> {
    ghost use Rattle.std.specs.Prelude.{◌≡◌, ⊤, refl};
    ghost use Rattle.std.proofs.Common.{◌∙◌, sym};
    ghost use Rattle.pls_combine.specs.Expression.{IsMarked, longest_of};
    ghost use Rattle.pls_combine.specs.laws.ExpressionLaws.{expression_marked_once, expression_sound};

    type Label = BitBuf;

    ghost layout = { λ _ bits label. bits ≡ label };

    ghost writable = { λ _ _. ⊤ };

    ghost marked = { λ s rows labels. IsMarked C.code s rows labels };

    ghost longest = { λ s size. longest_of C.code s size };

    fn read_label(&self, alloc: Global, bits: Bits<'_>) -> Result<Option<BitBuf>, NoMemory> {
        let mut label = BitBuf::new(alloc);
        label.append(bits)?;
        Ok(Some(label))
    }

    fn write_label(&self, alloc: Global, label: &BitBuf) -> Result<BitBuf, NoMemory> {
        let mut copy = BitBuf::new(alloc);
        copy.append(label.bits())?;
        Ok(copy)
    }

    fn bound(&self, size: &Size) -> u64 {
        bound_of::<C>(self.tree(), size)
    }

    fn mark(&self, alloc: Global, net: &Network) -> Result<Option<LabelStore>, NoMemory> {
        mark_tree::<C>(alloc, self.tree(), net)
    }

    ghost reads_back_law = { λ _ label _. (label, refl) };

    ghost one_spelling_law = { λ _ label a b one two. one ∙ sym two };

    ghost one_label_law = { λ _ bits a b one two. sym one ∙ two };

    ghost sound_law = { λ s. expression_sound C.code C.takes C.takes_only s };

    ghost one_marking_law = { λ s. expression_marked_once C.code s };
}
