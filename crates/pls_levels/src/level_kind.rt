//! What a scheme states of the levels of its labels.

ghost use Rattle.std.specs.Prelude.{◌≡◌, ℕ, ◌<◌, ◌++◌, [], List, Some, IfOk, IfSome, IfNone, OnOk, length, slice_get};
ghost use Rattle.pls_numbers.specs.Numbers.{AreCoded, codes_of};
ghost use Rattle.pls_levels.specs.Labels.{HasNoLevel, IsExactForm, IsLevelTaken, LevelForm, items_of, numbers_of};

use pls_bits::{BitBuf, NumCode};
use pls_numbers::Numbers;
use pls_streams::NoMemory;

/// How a level is numbers, and how the levels of a label and those of all nodes are held.
pub trait LevelKind {
    /// What a node has on one level.
    type Level: Drop;

    /// The levels of one node.
    type List: Drop;

    /// The levels of each node, in the order of the nodes.
    type Lists;

    // How levels are numbers, and how a list holds them.
    ghost form: { LevelForm Self.List Self.Level };

    // The lists of the nodes.
    ghost lists_of: { Self.Lists → List Self.List };

    /// Reads the next level; `None` where none comes next.
    fn read_level<C: NumCode>(numbers: &mut Numbers<'_, C>) -> Option<Self::Level>
        ensures found { IfSome result (λ level.
            IsLevelTaken form level numbers.old numbers.new) }
        ensures none { IfNone result (HasNoLevel form numbers.old) };

    /// Appends the numbers of a level. The one error is want of memory; nothing is known then of
    /// what `bits` holds.
    fn append_level<C: NumCode>(bits: &mut BitBuf, level: &Self::Level) -> Result<(), NoMemory>
        requires { AreCoded [] (numbers_of form level.now) }
        ensures { OnOk result
            (bits.new ≡ bits.old ++ codes_of C.code [] (numbers_of form level.now)) };

    /// The list of the levels of a vector, in its order.
    fn list_of(levels: Vec<Self::Level>) -> Self::List
        ensures { items_of form result ≡ levels.items };

    /// How many levels a list has.
    fn count_of(list: &Self::List) -> usize
        ensures { result ≡ length (items_of form list.now) };

    /// The level of this number, from 0 on.
    fn level_at(list: &Self::List, number: usize) -> Self::Level
        requires { number < length (items_of form list.now) }
        ensures { slice_get (items_of form list.now) number ≡ Some result };

    /// The levels of the node at a place. The one error is want of memory.
    fn list_at(lists: &Self::Lists, place: usize) -> Result<Self::List, NoMemory>
        requires { place < length (lists_of lists.now) }
        ensures { IfOk result (λ list. slice_get (lists_of lists.now) place ≡ Some list) };

    ghost form_law: { IsExactForm form };
}
