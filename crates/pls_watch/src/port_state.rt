//! What a node has heard at a port.

ghost use Rattle.std.specs.Prelude.{◌≡◌, ◌==◌, true};
ghost use Rattle.pls_watch.specs.inner.Known.{is_heard, is_newest};

/// What a node has heard at a port since its last restart.
#[derive(Clone, Copy, Debug, PartialEq, Eq)]
pub(crate) enum PortState {
    /// Nothing.
    Unheard,
    /// A version of the neighbour's label that is not its newest.
    Stale,
    /// The newest version of the neighbour's label.
    Fresh,
}

impl PortState {
    /// What was heard, by its version and the newest one.
    #[inline(always)]
    pub(crate) fn of(version: u32, newest: u32) -> PortState
        ensures heard { is_heard result ≡ true }
        ensures newest { is_newest result ≡ (version == newest) }
    {
        if version == newest {
            PortState::Fresh
        } else {
            PortState::Stale
        }
    }
}
