//! What a level says of a fragment, and the pointers that chosen edges join.

ghost use Rattle.std.specs.Prelude.{◌<◌, length, IfSome, IfNone};
ghost use Rattle.pls_boruvka.specs.inner.Chosen.{AreChildrenWithin, IsChosen, IsUnpointed, JoinChildren};

use crate::choice::Choice;
use crate::short_level::ShortLevel;
use pls_graph::Network;

// What a level says of the nodes of a fragment, and the place of the end of its chosen edge that
// points at the other.
#[derive(Drop)]
pub(crate) struct ChosenEnd {
    pub(crate) level: ShortLevel,
    pub(crate) child: u32,
}

// `None` where the edge is not a pointed one.
pub(crate) fn chosen_at(net: &Network, top: usize, choice: Option<Choice>) -> Option<ChosenEnd>
    requires within { top < length net.now }
    ensures chosen { IfSome result (λ chosen. IsChosen net.now top choice chosen) }
    ensures unpointed { IfNone result (IsUnpointed choice) }
{
    let choice = choice?;
    let child = choice.child?;
    let level = ShortLevel::of(net.node(top).0, choice.weight, choice.a, choice.b);
    Some(ChosenEnd { level, child })
}

pub(crate) fn join(joined: &mut [bool], all: &[ChosenEnd])
    requires within { AreChildrenWithin (length joined.old) all.now }
    ensures { JoinChildren all.now (length all.now) joined.old joined.new }
{
    for chosen in all {
        joined[chosen.child as usize] = true;
    }
}
