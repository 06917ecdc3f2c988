//! Lists of identities.

ghost use Rattle.std.specs.Prelude.{◌≡◌};

use std::marker::Model;

/// A list of identities, seen as that list.
#[derive(Drop)]
pub struct IdList {
    pub(crate) ids: Vec<u32>,
}

impl Model for IdList {
    ghost use Rattle.std.specs.Prelude.{ℕ, List};

    ghost Value = { List ℕ };

    ghost view = { λ list. list.ids.items };
}

impl IdList {
    /// The identities, in their order.
    pub fn as_slice(&self) -> &[u32]
        ensures { result.now ≡ self.now }
    {
        self.ids.as_slice()
    }
}
