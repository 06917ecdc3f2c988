//! How networks whose pointers make a spanning tree of least weight are labelled.

use crate::levels::{PathMaxLabel, PathMaxLevels};
use crate::outside::other_edges_are_heavy;
use crate::pathmax::PathMaxRules;
use pls_bits::NumCode;
use pls_centroid::centroid_levels;
use pls_graph::{Network, Size};
use pls_levels::{floor_log, make_labels};
use pls_pointer::root_and_depths;
use pls_scheme::{Marker, codes_length};
use pls_streams::NoMemory;
use std::alloc::Global;

impl<C: NumCode> Marker for PathMaxRules<C> {
    ghost use Rattle.pls_facts.specs.MinimumSpanningTree.{IsMinimumSpanningTree};
    ghost use Rattle.pls_pathmax.specs.PathMax.{PathMaxSays, longest_pathmax};
    ghost use Rattle.pls_pathmax.specs.laws.PathMaxLaws.{pathmax_fits, pathmax_met, pathmax_one_right, pathmax_show};

    ghost holds = { λ _ rows. IsMinimumSpanningTree rows };

    ghost says = { λ _ rows row label. PathMaxSays rows row label };

    ghost longest = { λ _ size. longest_pathmax C.code size };

    fn longest(&self, size: &Size) -> u64 {
        let id = u64::from(size.max_id);
        let levels = floor_log(size.nodes) + 1;
        let front = codes_length::<C>(&[id, id, id, size.nodes, levels]);
        let level = codes_length::<C>(&[id, size.nodes, u64::from(size.max_weight)]);
        front.saturating_add(levels.saturating_mul(level))
    }

    fn right_labels(
        &self,
        alloc: Global,
        net: &Network,
    ) -> Result<Option<Vec<PathMaxLabel>>, NoMemory> {
        let Some((root, depths)) = root_and_depths(alloc, net)? else {
            return Ok(None);
        };
        let lists = centroid_levels(alloc, net)?;
        let labels = make_labels::<PathMaxLevels>(alloc, net, root, &depths, &lists)?;
        // The other rules hold of these labels in any tree.
        if other_edges_are_heavy(net, labels.as_slice()) {
            Ok(Some(labels))
        } else {
            Ok(None)
        }
    }

    ghost show_law = { λ _. pathmax_show };

    ghost met_law = { λ _. pathmax_met };

    ghost one_right_law = { λ _. pathmax_one_right };

    ghost fits_law = { λ _. pathmax_fits C.code C.grows_law C.short_law };
}
