//! Rules on labels that are read, each once.

ghost use Rattle.std.specs.Prelude.{◌≡◌, ◌++◌, ◌∷◌, [], List};
ghost use Rattle.std.specs.Option.{option_copied};
ghost use Rattle.pls_scheme.specs.Judging.{judged_from};
ghost use Rattle.pls_scheme.specs.Reading.{ReadPort, label_above, port_with, reading};

use crate::judgement::Judgement;
use pls_configuration::{State, Verdict};
use pls_numbers::{Format, ReadsInPlace};

/// Rules that are tried on labels that are read: the own label, and each neighbour's, once for all
/// rules. Of the neighbours they know the one that the node points at, and a tally of all.
pub trait Rules: Judgement<Format: ReadsInPlace> {
    /// What the rules need of all ports.
    type Tally: Drop;

    // What the rules need of ports, under what the own label says.
    ghost tallied: { Self → Self.Format.Label → List (ReadPort Self.Format.Label) → Self.Tally };

    /// The tally of no port.
    fn start(&self, own: &<Self::Format as Format>::Label) -> Self::Tally
        ensures { result ≡ tallied self.now own.now [] };

    /// The tally with one more port.
    fn add(
        &self,
        own: &<Self::Format as Format>::Label,
        tally: Self::Tally,
        weight: u32,
        label: &<Self::Format as Format>::Label,
    ) -> Self::Tally
        ensures { (ports : List (ReadPort Self.Format.Label))
            → tally ≡ tallied self.now own.now ports
            → result ≡ tallied self.now own.now (ports ++ port_with weight label.now ∷ []) };

    /// The verdict by the node's identity and state, what its label says, what the label above
    /// says, at the port that the node points at, if it points at one, and the tally of all ports:
    /// a rejection by the first rule that fails, or acceptance.
    fn verdict(
        &self,
        id: u32,
        state: State,
        own: &<Self::Format as Format>::Label,
        above: Option<&<Self::Format as Format>::Label>,
        tally: Self::Tally,
    ) -> Verdict
        ensures { (ports : List (ReadPort Self.Format.Label))
            → option_copied above.entry ≡ label_above ports state.up
            → tally ≡ tallied self.now own.now ports
            → result ≡ judged_from 3 (Self.rules self.now (reading id state own.now ports)) };
}
