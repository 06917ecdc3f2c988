//! How the levels of labels of `pathmax` are numbers, and how they are held.

ghost use Rattle.std.specs.Prelude.{◌≡◌};

use crate::reading::read_level;
use pls_bits::{BitBuf, NumCode};
use pls_centroid::{CentroidLevel, CentroidList, CentroidLists};
use pls_levels::{LevelFormat, LevelKind, LevelLabel};
use pls_numbers::{Numbers, append_numbers};
use pls_streams::NoMemory;

/// What a label says: where the node stands in the tree, and for each level the centroid of the
/// node's piece, and the way to it.
pub type PathMaxLabel = LevelLabel<CentroidList>;

/// The format of labels of `pathmax`: the root, the node, its parent, its depth and the number of
/// levels, and then for each level the centroid, the hops and the greatest weight.
pub type PathMaxFormat = LevelFormat<PathMaxLevels>;

/// Centroid levels, three numbers each.
#[derive(Clone, Copy, Debug, PartialEq, Eq)]
pub struct PathMaxLevels;

impl LevelKind for PathMaxLevels {
    ghost use Rattle.pls_pathmax.specs.Labels.{pathmax_levels};
    ghost use Rattle.pls_pathmax.specs.laws.LabelLaws.{exact_levels};

    type Level = CentroidLevel;

    type List = CentroidList;

    type Lists = CentroidLists;

    ghost form = { pathmax_levels };

    ghost lists_of = { λ lists. lists };

    #[inline(always)]
    fn read_level<C: NumCode>(numbers: &mut Numbers<'_, C>) -> Option<CentroidLevel> {
        read_level(numbers)
    }

    fn append_level<C: NumCode>(bits: &mut BitBuf, level: &CentroidLevel) -> Result<(), NoMemory> {
        let numbers = [level.centroid, level.hops, level.greatest];
        append_numbers::<C>(bits, &numbers)
    }

    fn list_of(levels: Vec<CentroidLevel>) -> CentroidList
        ensures { result ≡ levels.items }
    {
        CentroidList::from_vec(levels)
    }

    fn count_of(list: &CentroidList) -> usize {
        list.len()
    }

    fn level_at(list: &CentroidList, number: usize) -> CentroidLevel {
        list.at(number)
    }

    fn list_at(lists: &CentroidLists, place: usize) -> Result<CentroidList, NoMemory> {
        lists.at(place)
    }

    ghost form_law = { exact_levels };
}
