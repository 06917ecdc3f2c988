//! What a node gathers of its ports, one after another.

ghost use Rattle.std.specs.Prelude.{◌≡◌, ℕ, ◌++◌, List, [], ◌∷◌, Some, length};
ghost use Rattle.pls_configuration.specs.declared.row.State.{State};
ghost use Rattle.pls_numbers.specs.Shape.{said_by};
ghost use Rattle.pls_scheme.specs.Reading.{ReadPort, port_with, reading};
ghost use Rattle.pls_levels.specs.Rules.{is_placed_in_tree};
ghost use Rattle.pls_mst.specs.Labels.{MstLabel, mst_shape};
ghost use Rattle.pls_mst.specs.Rules.{mst_rules};
ghost use Rattle.pls_mst.specs.inner.Gathering.{mst_tally, mst_tally_with, port_edge};
ghost use Rattle.pls_mst.specs.inner.Glance.{glance_of};

use crate::comparing::{LevelComparison, PortEdge, compare_levels};
use crate::glance::{MstGlance, names_all};
use pls_bits::NumCode;
use pls_configuration::State;
use pls_levels::LevelHead;
use pls_scheme::{LabelGlance, is_pointer};

/// Which rules on the ports hold at those so far.
#[derive(Clone, Copy, Debug, PartialEq, Eq)]
pub struct PortTally {
    // The neighbours name the own root and have as many levels.
    pub(crate) agrees: bool,
    // Each fragment without the node's name is that of the node that it points at.
    pub(crate) shares: bool,
    // The chosen edges agree inside of fragments, and are least among the edges that leave one.
    pub(crate) least: bool,
    // The edge that the node points along was chosen by a fragment that it leaves.
    pub(crate) chosen: bool,
}

impl PortTally {
    // Before the first port.
    pub(crate) fn before() -> PortTally
        ensures { (id : ℕ) (state : State) (label : MstLabel)
            → result ≡ mst_tally (reading id state label []) }
    {
        PortTally {
            agrees: true,
            shares: true,
            least: true,
            chosen: true,
        }
    }

    // Adds a port; `pointer` tells whether the node points along it.
    #[inline(always)]
    pub(crate) fn with(
        self,
        pointer: bool,
        own: &LevelHead,
        theirs: &LevelHead,
        both: LevelComparison,
    ) -> PortTally
        ensures { result ≡ mst_tally_with pointer own.now theirs.now both self }
    {
        let agrees = self.agrees && (theirs.root == own.root && theirs.count == own.count);
        let least = self.least && both.least;
        if !pointer {
            return PortTally {
                agrees,
                least,
                ..self
            };
        }
        PortTally {
            agrees,
            shares: both.shares,
            least,
            chosen: both.chosen,
        }
    }

    // Asked once all ports are gathered; `placed` tells whether the label places the node in the
    // tree.
    pub(crate) fn rules<C: NumCode>(
        &self,
        placed: bool,
        state: State,
        own: &LabelGlance<'_, MstGlance>,
    ) -> [bool; 5]
        ensures { (id : ℕ) (mine : MstLabel) (ports : List (ReadPort MstLabel))
            → said_by mst_shape C.takes own.now.bits.now ≡ Some mine
            → glance_of mine ≡ own.now.glance.now
            → placed ≡ is_placed_in_tree (reading id state mine ports)
            → self.now ≡ mst_tally (reading id state mine ports)
            → result ≡ mst_rules (reading id state mine ports) }
    {
        let names = state.up.is_some() || names_all::<C>(own);
        [
            placed,
            self.agrees,
            names && self.shares,
            self.least,
            self.chosen,
        ]
    }
}

pub(crate) fn with_port<C: NumCode>(
    up: Option<u32>,
    own: &LabelGlance<'_, MstGlance>,
    before: PortTally,
    place: usize,
    weight: u32,
    label: &LabelGlance<'_, MstGlance>,
) -> PortTally
    ensures { (id : ℕ) (state : State) (mine theirs : MstLabel) (ports : List (ReadPort MstLabel))
        → state.up ≡ up → length ports ≡ place
        → said_by mst_shape C.takes own.now.bits.now ≡ Some mine
        → glance_of mine ≡ own.now.glance.now
        → said_by mst_shape C.takes label.now.bits.now ≡ Some theirs
        → glance_of theirs ≡ label.now.glance.now
        → before ≡ mst_tally (reading id state mine ports)
        → result ≡ mst_tally (reading id state mine (ports ++ port_with weight theirs ∷ [])) }
{
    let pointer = is_pointer(up, place);
    let between = port_edge(pointer, weight, &own.glance.head, &label.glance.head);
    let both = compare_levels::<C>(pointer, own, label, &between);
    before.with(pointer, &own.glance.head, &label.glance.head, both)
}

// `pointer` tells whether the node points at the neighbour.
#[inline(always)]
pub(crate) fn port_edge(
    pointer: bool,
    weight: u32,
    mine: &LevelHead,
    theirs: &LevelHead,
) -> PortEdge
    ensures { result ≡ port_edge pointer weight mine.now theirs.now }
{
    PortEdge {
        weight: u64::from(weight),
        in_tree: pointer || theirs.parent == mine.own,
        a: mine.own.min(theirs.own),
        b: mine.own.max(theirs.own),
    }
}
