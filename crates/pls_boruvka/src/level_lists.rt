//! The levels of all nodes.

ghost use Rattle.std.specs.Prelude.{◌≡◌, ◌<◌, length, slice_get, IfOk, Some};
ghost use Rattle.pls_boruvka.specs.inner.Chosen.{levels_said};

use crate::level_list::LevelList;
use crate::round::Round;
use pls_streams::NoMemory;
use std::alloc::Global;
use std::marker::Model;
use std::rc::Rc;

/// The levels of each node, in the order of the nodes, seen as the list of their lists.
#[derive(Drop)]
pub struct LevelLists {
    // What each round said of every node.
    rounds: Rc<Vec<Round>>,
    // How many nodes there are.
    count: usize,
}

impl Model for LevelLists {
    ghost use Rattle.std.specs.Prelude.{List};
    ghost use Rattle.pls_boruvka.specs.declared.level.Level.{Level};
    ghost use Rattle.pls_boruvka.specs.inner.Chosen.{levels_said};

    ghost Value = { List (List Level) };

    ghost view = { λ lists. levels_said lists.rounds.value.items lists.count };
}

impl LevelLists {
    // `count` is the number of nodes.
    pub(crate) fn of_rounds(
        alloc: Global,
        rounds: Vec<Round>,
        count: usize,
    ) -> Result<LevelLists, NoMemory>
        ensures { IfOk result (λ lists. lists ≡ levels_said rounds.items count) }
    {
        match Rc::new(alloc, rounds) {
            Ok(rounds) => Ok(LevelLists { rounds, count }),
            Err(_) => Err(NoMemory),
        }
    }

    /// How many nodes there are.
    pub fn len(&self) -> usize
        ensures { result ≡ length self.now }
    {
        self.count
    }

    /// The levels of the node at a place, which lie where the others lie. The one error is want of
    /// memory.
    pub fn at(&self, place: usize) -> Result<LevelList, NoMemory>
        requires { place < length self.now }
        ensures { IfOk result (λ list. slice_get self.now place ≡ Some list) }
    {
        let rounds = self.rounds.clone()?;
        Ok(LevelList::of_rounds(rounds, place))
    }
}
