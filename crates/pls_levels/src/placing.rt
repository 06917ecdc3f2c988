//! Where a node stands in the tree, by what stands in front of the levels of labels.

ghost use Rattle.std.specs.Prelude.{◌≡◌, ◌==◌, ◌+◌, ◌&&◌, ◌||◌, List, option_map, true};
ghost use Rattle.std.specs.Option.{option_copied, option_map_or};
ghost use Rattle.pls_scheme.specs.Reading.{ReadPort, is_pointer, label_above, reading};
ghost use Rattle.pls_levels.specs.declared.label.LevelLabel.{LevelLabel};
ghost use Rattle.pls_levels.specs.Labels.{head_of};
ghost use Rattle.pls_levels.specs.Rules.{is_placed_in_tree};

use crate::label::LevelHead;
use crate::level_kind::LevelKind;
use pls_configuration::State;
use pls_scheme::{is_one_more, is_pointer};

/// Whether the label of a node with this identity and state, of which `own` stands in front of the
/// levels, places it in the tree, where `above` stands there in the label of the node that it
/// points at.
pub fn is_placed<K: LevelKind>(
    id: u32,
    state: State,
    own: &LevelHead,
    above: Option<&LevelHead>,
) -> bool
    ensures { (mine : LevelLabel K.List) (ports : List (ReadPort (LevelLabel K.List)))
        → head_of K.form mine ≡ own.now
        → option_copied above.entry ≡ option_map (head_of K.form) (label_above ports state.up)
        → result ≡ is_placed_in_tree (reading id state mine ports) }
{
    let stands = state.up.is_some() || is_root(id, own);
    own.own == u64::from(id) && (stands && follows(own, above))
}

// Whether what stands in front of the levels says of the node of this identity that it is the root.
#[inline(always)]
fn is_root(id: u32, own: &LevelHead) -> bool
    ensures { result
        ≡ (own.now.depth == 0 && (own.now.root == id && own.now.parent == own.now.own)) }
{
    own.depth == 0 && (own.root == u64::from(id) && own.parent == own.own)
}

// One deeper than its parent `above`; `true` where there is none.
#[inline(always)]
fn follows(own: &LevelHead, above: Option<&LevelHead>) -> bool
    ensures { result ≡ option_map_or (λ above. own.now.depth == above.depth + 1
        && own.now.parent == above.own) (option_copied above.entry) true }
{
    match above {
        Some(above) => is_one_more(own.depth, above.depth) && own.parent == above.own,
        None => true,
    }
}

/// Whether the edge at the port of this number is in the tree: the port is the pointer, or the
/// neighbour's parent is the node of this name.
#[inline(always)]
pub fn is_in_tree(up: Option<u32>, number: usize, own: u64, parent: u64) -> bool
    ensures { result ≡ (is_pointer up number || parent == own) }
{
    is_pointer(up, number) || parent == own
}
