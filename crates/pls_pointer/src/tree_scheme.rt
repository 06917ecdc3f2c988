//! How networks whose pointers make a tree are labelled.

ghost use Rattle.std.specs.Prelude.{◌≡◌, map, IfOk, IfSome, IfNone};
ghost use Rattle.pls_configuration.specs.Configuration.{IsNetwork};
ghost use Rattle.pls_facts.specs.OnlyNode.{IsOnly, points_at_none};
ghost use Rattle.pls_facts.specs.SpanningTree.{IsTree};
ghost use Rattle.pls_search.specs.Depths.{AreDepths};
ghost use Rattle.pls_pointer.specs.inner.Saying.{root_says};

use crate::tree::{TreeLabel, TreeRules};
use pls_bits::NumCode;
use pls_facts::{PointsAtNone, only_node};
use pls_graph::{Network, Size};
use pls_scheme::{Marker, codes_length};
use pls_search::pointer_depths;
use pls_streams::NoMemory;
use std::alloc::Global;

impl<C: NumCode> Marker for TreeRules<C> {
    ghost use Rattle.pls_facts.specs.SpanningTree.{IsTree};
    ghost use Rattle.pls_pointer.specs.Tree.{tree_limits, tree_says, tree_shape};
    ghost use Rattle.pls_scheme.specs.Basic.{longest_by};
    ghost use Rattle.pls_pointer.specs.laws.TreeLaws.{tree_fits, tree_met, tree_one_right, tree_show};

    ghost holds = { λ _ rows. IsTree rows };

    ghost says = { λ _ rows row label. tree_says rows row label };

    ghost longest = { λ _. longest_by tree_shape tree_limits C.code };

    fn longest(&self, size: &Size) -> u64 {
        codes_length::<C>(&[u64::from(size.max_id), size.nodes])
    }

    fn right_labels(
        &self,
        alloc: Global,
        net: &Network,
    ) -> Result<Option<Vec<TreeLabel>>, NoMemory> {
        let Some((root, depths)) = root_and_depths(alloc, net)? else {
            return Ok(None);
        };
        let labels = labels_of_depths(alloc, root, &depths)?;
        Ok(Some(labels))
    }

    ghost show_law = { λ _. tree_show };

    ghost met_law = { λ _. tree_met };

    ghost one_right_law = { λ _. tree_one_right };

    ghost fits_law = { λ _. tree_fits C.code C.grows_law C.short_law };
}

fn labels_of_depths(alloc: Global, root: u32, depths: &[u32]) -> Result<Vec<TreeLabel>, NoMemory>
    ensures { IfOk result (λ labels. labels.items ≡ map (root_says root) depths.now) }
{
    let labels = depths
        .iter()
        .map(|depth| TreeLabel {
            root: u64::from(root),
            depth: u64::from(*depth),
        })
        .collect(alloc)?;
    Ok(labels)
}

/// The root's identity, and the depth of each node in their order, or `None` where the pointers
/// make no tree. The one error is want of memory.
pub fn root_and_depths(alloc: Global, net: &Network) -> Result<Option<(u32, Vec<u32>)>, NoMemory>
    ensures lacking { IfOk result (λ found. IfNone found (IsTree net.now → ⊥)) }
    ensures holds { IfOk result (λ found. IfSome found (λ tree. IsTree net.now)) }
    ensures root { IfOk result (λ found. IfSome found
        (λ tree. IsOnly points_at_none net.now tree.0)) }
    ensures depths { IfOk result (λ found. IfSome found (λ tree. AreDepths net.now tree.1.items)) }
    ensures valid { IsNetwork net.now }
{
    let Some(root) = only_node::<PointsAtNone>(net) else {
        return Ok(None);
    };
    let Some(depths) = pointer_depths(alloc, net)? else {
        return Ok(None);
    };
    Ok(Some((root, depths)))
}
