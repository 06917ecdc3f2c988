//! Rules that are tried in one pass over the ports of a node.

ghost use Rattle.std.specs.Prelude.{◌≡◌, ℕ, ◌++◌, ◌∷◌, [], List, length, Some, IfSome, option_map};
ghost use Rattle.std.specs.Option.{option_copied};
ghost use Rattle.pls_configuration.specs.declared.row.State.{State};
ghost use Rattle.pls_numbers.specs.Shape.{said_by};
ghost use Rattle.pls_scheme.specs.Judging.{judged_from};
ghost use Rattle.pls_scheme.specs.Reading.{Read, ReadPort, label_above, port_with, reading};

use crate::judgement::Judgement;
use crate::memory::GlanceMemory;
use pls_bits::Bits;
use pls_configuration::{State, Verdict};

/// A label that was looked at: its bits, and what they say at a glance.
#[derive(Drop)]
pub struct LabelGlance<'a, G> {
    /// The bits of the label, lent.
    pub bits: &'a Bits<'a>,
    /// What they say at a glance.
    pub glance: &'a G,
}

/// Rules that are tried without memory, in one pass over the ports, each label having been looked
/// at once. [`Once`](crate::Once) makes them of [`Rules`](crate::Rules).
pub trait JudgesInPlace: Judgement {
    /// What is kept of a label at a glance. What does not fit there is read where it lies.
    type Glance: Drop;

    /// How a glance is kept from round to round.
    type Memory: GlanceMemory<Self::Glance> + Drop;

    /// What is gathered in a pass over the ports.
    type Tally: Drop;

    // What is kept of a label.
    ghost glance: { Self → Self.Format.Label → Self.Glance };

    // What is gathered of the node and of its first ports.
    ghost tally_of: { Self → Read Self.Format.Label → Self.Tally };

    /// What the bits say at a glance, or `None` where they are no label, read to their last bit.
    fn look(&self, bits: &Bits<'_>) -> Option<Self::Glance>
        ensures { result ≡ option_map (glance self.now)
            (said_by (Self.Format.shape (Self.format self.now)) Self.Code.takes bits.now) };

    /// What is gathered before the first port.
    fn open(&self, own: &Self::Glance) -> Self::Tally
        ensures { (id : ℕ) (state : State) (label : Self.Format.Label)
            → glance self.now label ≡ own.now
            → result ≡ tally_of self.now (reading id state label []) };

    /// What is gathered with one more port, the one at this place, of a node with this pointer.
    fn pass(
        &self,
        up: Option<u32>,
        own: &LabelGlance<'_, Self::Glance>,
        tally: Self::Tally,
        place: usize,
        weight: u32,
        label: &LabelGlance<'_, Self::Glance>,
    ) -> Self::Tally
        ensures { (id : ℕ) (state : State) (mine theirs : Self.Format.Label)
            (ports : List (ReadPort Self.Format.Label))
            → state.up ≡ up → length ports ≡ place
            → said_by (Self.Format.shape (Self.format self.now)) Self.Code.takes own.now.bits.now
            ≡ Some mine
            → glance self.now mine ≡ own.now.glance.now
            → said_by (Self.Format.shape (Self.format self.now)) Self.Code.takes label.now.bits.now
            ≡ Some theirs
            → glance self.now theirs ≡ label.now.glance.now
            → tally ≡ tally_of self.now (reading id state mine ports)
            → result ≡ tally_of self.now
            (reading id state mine (ports ++ port_with weight theirs ∷ [])) };

    /// The verdict, where it is settled by the node's own label and by the one above, at the port
    /// that the node points at, whatever the other neighbours say: then no other label has to be
    /// looked into. `None` says nothing.
    #[inline(always)]
    fn early_verdict(
        &self,
        _id: u32,
        _state: State,
        _own: &LabelGlance<'_, Self::Glance>,
        _above: Option<&Self::Glance>,
    ) -> Option<Verdict>
        ensures { (label : Self.Format.Label) (ports : List (ReadPort Self.Format.Label))
            → said_by (Self.Format.shape (Self.format self.now)) Self.Code.takes _own.now.bits.now
            ≡ Some label
            → glance self.now label ≡ _own.now.glance.now
            → option_copied _above.entry ≡ option_map (glance self.now)
            (label_above ports _state.up)
            → IfSome result (λ verdict. verdict
            ≡ judged_from 3 (Self.rules self.now (reading _id _state label ports))) }
    {
        None
    }

    /// The verdict by what was gathered and by the label above, at the port that the node points
    /// at, if it points at one: a rejection by the first rule that fails, or acceptance.
    fn close(
        &self,
        id: u32,
        state: State,
        own: &LabelGlance<'_, Self::Glance>,
        above: Option<&Self::Glance>,
        tally: Self::Tally,
    ) -> Verdict
        ensures { (label : Self.Format.Label) (ports : List (ReadPort Self.Format.Label))
            → said_by (Self.Format.shape (Self.format self.now)) Self.Code.takes own.now.bits.now
            ≡ Some label
            → glance self.now label ≡ own.now.glance.now
            → option_copied above.entry ≡ option_map (glance self.now) (label_above ports state.up)
            → tally ≡ tally_of self.now (reading id state label ports)
            → result ≡ judged_from 3 (Self.rules self.now (reading id state label ports)) };
}
