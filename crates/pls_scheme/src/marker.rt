//! What a basic scheme states of its own, beside its rules.

ghost use Rattle.std.specs.Prelude.{◌≡◌, ◌↔◌, ℕ, List, IsTrue, IfOk, IfSome, IfNone};
ghost use Rattle.pls_configuration.specs.declared.row.NodeRow.{NodeRow};
ghost use Rattle.pls_configuration.specs.Walk.{IsConnected};
ghost use Rattle.pls_graph.specs.declared.size.Size.{Size};
ghost use Rattle.pls_scheme.specs.Marked.{AreRight};
ghost use Rattle.pls_streams.specs.Steps.{capped};
ghost use Rattle.pls_scheme.specs.Theorem.{OneIsRight, RightFits, RulesAreMet, RulesShow};

use crate::judgement::Judgement;
use pls_graph::{Network, Size};
use pls_numbers::Format;
use pls_streams::NoMemory;
use std::alloc::Global;

/// Rules with a property that they show, and a marker of the networks that have it. A
/// [`Basic`](crate::Basic) of them is a [`Scheme`](crate::Scheme). Its laws speak of what labels
/// say, as a function of the identity, and of no bits.
pub trait Marker: Judgement {
    // The property, of the rows of a network.
    ghost holds: { Self → List NodeRow → Type 0 };

    // A label says what is right for the node of a row of a network with the property.
    ghost says: { Self → List NodeRow → NodeRow → Self.Format.Label → Type 0 };

    // How many bits a marked label has at most, in a network of this size.
    ghost longest: { Self → Size → ℕ };

    /// The greatest number of bits of a marked label in a network of this size, or `u64::MAX` where
    /// it is greater. It takes no memory.
    fn longest(&self, size: &Size) -> u64
        ensures { result ≡ capped (longest self.now size.now) };

    /// What the labels of a connected network say, in the order of the nodes, or `None` exactly
    /// where the property fails. The one error is want of memory.
    fn right_labels(
        &self,
        alloc: Global,
        net: &Network,
    ) -> Result<Option<Vec<<Self::Format as Format>::Label>>, NoMemory>
        requires { IsConnected net.now }
        ensures lacking { IfOk result (λ found. IfNone found (holds self.now net.now → ⊥)) }
        ensures holds { IfOk result (λ found. IfSome found (λ labels. holds self.now net.now)) }
        ensures right { IfOk result (λ found. IfSome found
            (λ labels. AreRight (says self.now net.now) net.now labels.items)) };

    /// Whether a connected network has the property. The one error is want of memory.
    fn decide(&self, alloc: Global, net: &Network) -> Result<bool, NoMemory>
        requires { IsConnected net.now }
        ensures { IfOk result (λ yes. IsTrue yes ↔ holds self.now net.now) }
    {
        Ok(self.right_labels(alloc, net)?.is_some())
    }

    // Rules that hold everywhere show the property: the scheme is sound.
    ghost show_law: { (s : Self) → RulesShow (Self.rules s) (holds s) };

    // The rules hold everywhere where what is said is right: the scheme is complete.
    ghost met_law: { (s : Self) → RulesAreMet (Self.rules s) (holds s) (says s) };

    // For each node one label is right.
    ghost one_right_law: { (s : Self) → OneIsRight (holds s) (says s) };

    // What is right can be written, and is short.
    ghost fits_law: { (s : Self) → RightFits (Self.Format.shape (Self.format s)) Self.Code.code
        (holds s) (says s) (longest s) };
}
