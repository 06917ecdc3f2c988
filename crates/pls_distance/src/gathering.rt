//! What a node gathers of its ports, one after another.

ghost use Rattle.std.specs.Prelude.{◌≡◌, ℕ, ◌++◌, ◌∷◌, [], List, length, ◌==◌, ◌&&◌, ◌+◌, if◌then◌else◌};
ghost use Rattle.pls_configuration.specs.declared.row.State.{State};
ghost use Rattle.pls_scheme.specs.Reading.{ReadPort, port_with, reading};
ghost use Rattle.pls_distance.specs.declared.spt.SptLabel.{SptLabel};
ghost use Rattle.pls_distance.specs.Spt.{spt_rules};
ghost use Rattle.pls_distance.specs.inner.Gathering.{spt_tally};

use crate::farther::{is_farther_by, is_reached_by};
use crate::spt::SptLabel;
use pls_configuration::State;
use pls_scheme::{is_one_more, is_pointer};

/// What the own label says, and which rules on the ports hold at those so far.
#[derive(Clone, Copy, Debug, PartialEq, Eq)]
pub struct PortTally {
    pub(crate) own: SptLabel,
    // Each of the neighbours has the own root.
    pub(crate) agrees: bool,
    // The node is one deeper than the one that it points at, and farther by the edge's weight.
    pub(crate) follows: bool,
    // By none of the ports the node would be nearer to the root.
    pub(crate) nearest: bool,
}

impl PortTally {
    // Before the first port.
    pub(crate) fn before(own: SptLabel) -> PortTally
        ensures { (id : ℕ) (state : State) → result ≡ spt_tally (reading id state own []) }
    {
        PortTally {
            own,
            agrees: true,
            follows: true,
            nearest: true,
        }
    }

    // Adds the port at `place`; `up` is the pointer of the node.
    pub(crate) fn with(
        self,
        up: Option<u32>,
        place: usize,
        weight: u32,
        label: SptLabel,
    ) -> PortTally
        ensures { (id : ℕ) (state : State) (own : SptLabel) (ports : List (ReadPort SptLabel))
            → state.up ≡ up → length ports ≡ place → self ≡ spt_tally (reading id state own ports)
            → result ≡ spt_tally (reading id state own (ports ++ port_with weight label ∷ [])) }
    {
        let PortTally {
            own,
            agrees,
            follows,
            nearest,
        } = self;
        PortTally {
            own,
            agrees: both(agrees, label.root == own.root),
            follows: follows_so_far(&own, is_pointer(up, place), weight, &label, follows),
            nearest: both(nearest, is_reached_by(own.dist, label.dist, weight)),
        }
    }

    // Whether each rule holds, once all ports are gathered.
    pub(crate) fn rules(&self, id: u32, state: State) -> [bool; 4]
        ensures { (own : SptLabel) (ports : List (ReadPort SptLabel))
            → self.now ≡ spt_tally (reading id state own ports)
            → result ≡ spt_rules (reading id state own ports) }
    {
        let is_root = self.own.depth == 0 && u64::from(id) == self.own.root;
        let points = state.up.is_some();
        [
            self.agrees,
            (points || is_root) && (points || self.own.dist == 0),
            self.follows,
            self.nearest,
        ]
    }
}

fn both(one: bool, other: bool) -> bool
    ensures { result ≡ (one && other) }
{
    one && other
}

// Tests depth and distance where the node points at this port, else returns `before`.
fn follows_so_far(own: &SptLabel, points: bool, weight: u32, above: &SptLabel, before: bool) -> bool
    ensures { result ≡ (if points then (own.now.depth == above.now.depth + 1
        && own.now.dist == above.now.dist + weight) else before) }
{
    if points {
        is_one_more(own.depth, above.depth) && is_farther_by(own.dist, above.dist, weight)
    } else {
        before
    }
}
