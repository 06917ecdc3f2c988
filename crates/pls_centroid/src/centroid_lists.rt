//! The levels of all nodes.

ghost use Rattle.std.specs.Prelude.{◌≡◌, ◌<◌, length, map, slice_get, IfOk, Some};
ghost use Rattle.pls_centroid.specs.inner.Rounds.{lists_said};

use crate::centroid_list::CentroidList;
use crate::level_entry::LevelEntry;
use pls_streams::NoMemory;
use std::alloc::Global;
use std::marker::Model;
use std::rc::Rc;

/// The levels of each node, in the order of the nodes, seen as the list of their lists.
#[derive(Drop)]
pub struct CentroidLists {
    // What each round said of every node.
    rounds: Rc<Vec<Vec<LevelEntry>>>,
    // How many nodes there are.
    count: usize,
}

impl Model for CentroidLists {
    ghost use Rattle.std.specs.Prelude.{List, map};
    ghost use Rattle.pls_centroid.specs.declared.level.CentroidLevel.{CentroidLevel};
    ghost use Rattle.pls_centroid.specs.inner.Rounds.{lists_said};

    ghost Value = { List (List CentroidLevel) };

    ghost view = { λ lists.
        lists_said (map (λ round. round.items) lists.rounds.value.items) lists.count };
}

impl CentroidLists {
    // `count` is the number of nodes.
    pub(crate) fn of_rounds(
        alloc: Global,
        rounds: Vec<Vec<LevelEntry>>,
        count: usize,
    ) -> Result<CentroidLists, NoMemory>
        ensures { IfOk result (λ lists.
            lists ≡ lists_said (map (λ round. round.items) rounds.items) count) }
    {
        match Rc::new(alloc, rounds) {
            Ok(rounds) => Ok(CentroidLists { rounds, count }),
            Err(_) => Err(NoMemory),
        }
    }

    /// How many nodes there are.
    pub fn len(&self) -> usize
        ensures { result ≡ length self.now }
    {
        self.count
    }

    /// The levels of the node at a place, which lie where the others lie. The one error is want of
    /// memory.
    pub fn at(&self, place: usize) -> Result<CentroidList, NoMemory>
        requires { place < length self.now }
        ensures { IfOk result (λ list. slice_get self.now place ≡ Some list) }
    {
        let rounds = self.rounds.clone()?;
        Ok(CentroidList::of_rounds(rounds, place))
    }
}
