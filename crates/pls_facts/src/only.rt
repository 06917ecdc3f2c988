//! The one node that passes a test of its state.

ghost use Rattle.std.specs.Prelude.{◌≡◌, Bool, IfSome, IfNone};
ghost use Rattle.pls_configuration.specs.declared.row.State.{State};
ghost use Rattle.pls_configuration.specs.Configuration.{IsNetwork};
ghost use Rattle.pls_facts.specs.OnlyNode.{IsOnly, passing};

use pls_configuration::State;
use pls_graph::Network;

/// A test of a node's state.
pub trait StateTest {
    // Whether a state passes.
    ghost passes: { State → Bool };

    /// Whether the state passes.
    fn passes(state: State) -> bool
        ensures { result ≡ passes state };
}

/// That the node points at none.
pub struct PointsAtNone;

impl StateTest for PointsAtNone {
    ghost use Rattle.pls_facts.specs.OnlyNode.{points_at_none};

    ghost passes = { points_at_none };

    fn passes(state: State) -> bool {
        state.up.is_none()
    }
}

/// The identity of the one node that passes, or `None` where there is none, or more than one. It
/// takes no memory.
pub fn only_node<T: StateTest>(net: &Network) -> Option<u32>
    ensures some { IfSome result (IsOnly T.passes net.now) }
    ensures none { IfNone result (passing T.passes net.now ≡ 1 → ⊥) }
    ensures valid { IsNetwork net.now }
{
    let mut only = None;
    for i in 0..net.len() {
        let (id, state) = net.node(i);
        if T::passes(state) {
            if only.is_some() {
                return None;
            }
            only = Some(id);
        }
    }
    only
}
