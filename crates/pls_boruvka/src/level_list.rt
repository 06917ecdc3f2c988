//! The list of the levels of a node.

ghost use Rattle.std.specs.Prelude.{◌≡◌, ◌<◌, length, slice_get, Some};
ghost use Rattle.pls_boruvka.specs.inner.Chosen.{said_at};

use crate::level::Level;
use crate::round::Round;
use std::marker::Model;
use std::rc::Rc;

/// The levels of a node from the first on, seen as a list.
#[derive(Drop)]
pub struct LevelList {
    kept: KeptLevels,
}

// Where the levels of a node lie: in memory of their own, or in that of the rounds that found those
// of all nodes, at this place of each.
#[derive(Drop)]
pub(crate) enum KeptLevels {
    Own(Vec<Level>),
    Shared(Rc<Vec<Round>>, usize),
}

impl Model for LevelList {
    ghost use Rattle.std.specs.Prelude.{List};
    ghost use Rattle.pls_boruvka.specs.declared.level.Level.{Level};
    ghost use Rattle.pls_boruvka.specs.inner.Kept.{levels_kept};

    ghost Value = { List Level };

    ghost view = { λ list. levels_kept list.kept };
}

impl LevelList {
    /// The levels of a vector, in its order. It takes no memory.
    pub fn from_vec(levels: Vec<Level>) -> LevelList
        ensures { result ≡ levels.items }
    {
        LevelList {
            kept: KeptLevels::Own(levels),
        }
    }

    pub(crate) fn of_rounds(rounds: Rc<Vec<Round>>, place: usize) -> LevelList
        ensures { result ≡ said_at rounds.value.items place }
    {
        LevelList {
            kept: KeptLevels::Shared(rounds, place),
        }
    }

    /// How many levels there are.
    pub fn len(&self) -> usize
        ensures { result ≡ length self.now }
    {
        match &self.kept {
            KeptLevels::Own(levels) => levels.len(),
            KeptLevels::Shared(rounds, _) => rounds.len(),
        }
    }

    /// The level of this number, from 0 on.
    pub fn at(&self, number: usize) -> Level
        requires { number < length self.now }
        ensures { slice_get self.now number ≡ Some result }
    {
        match &self.kept {
            KeptLevels::Own(levels) => levels[number],
            KeptLevels::Shared(rounds, place) => rounds[number].level_at(*place),
        }
    }
}
