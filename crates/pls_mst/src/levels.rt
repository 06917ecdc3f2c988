//! How the levels of labels of `mst` are numbers, and how they are held.

ghost use Rattle.std.specs.Prelude.{◌≡◌};

use crate::reading::read_level;
use pls_bits::{BitBuf, NumCode};
use pls_boruvka::{Level, LevelList, LevelLists};
use pls_levels::{LevelFormat, LevelKind, LevelLabel};
use pls_numbers::{Numbers, append_numbers};
use pls_streams::NoMemory;

/// What a label says: where the node stands in the tree, and for each level the node's fragment and
/// the edge that it chose.
pub type MstLabel = LevelLabel<LevelList>;

/// The format of labels of `mst`: the root, the node, its parent, its depth and the number of
/// levels, and then for each level the fragment, the weight, and the smaller and the greater end of
/// the chosen edge.
pub type MstFormat = LevelFormat<MstLevels>;

/// Borůvka's levels, four numbers each, of which the last two are in order.
#[derive(Clone, Copy, Debug, PartialEq, Eq)]
pub struct MstLevels;

impl LevelKind for MstLevels {
    ghost use Rattle.pls_mst.specs.Labels.{mst_levels};
    ghost use Rattle.pls_mst.specs.laws.LabelLaws.{exact_levels};

    type Level = Level;

    type List = LevelList;

    type Lists = LevelLists;

    ghost form = { mst_levels };

    ghost lists_of = { λ lists. lists };

    #[inline(always)]
    fn read_level<C: NumCode>(numbers: &mut Numbers<'_, C>) -> Option<Level> {
        read_level(numbers)
    }

    fn append_level<C: NumCode>(bits: &mut BitBuf, level: &Level) -> Result<(), NoMemory> {
        let numbers = [level.fragment, level.weight, level.a, level.b];
        append_numbers::<C>(bits, &numbers)
    }

    fn list_of(levels: Vec<Level>) -> LevelList
        ensures { result ≡ levels.items }
    {
        LevelList::from_vec(levels)
    }

    fn count_of(list: &LevelList) -> usize {
        list.len()
    }

    fn level_at(list: &LevelList, number: usize) -> Level {
        list.at(number)
    }

    fn list_at(lists: &LevelLists, place: usize) -> Result<LevelList, NoMemory> {
        lists.at(place)
    }

    ghost form_law = { exact_levels };
}
