//! How networks whose pointers make a spanning tree of least weight are labelled.

use crate::levels::{MstLabel, MstLevels};
use crate::mst::MstRules;
use pls_bits::NumCode;
use pls_boruvka::boruvka_levels;
use pls_graph::{Network, Size};
use pls_levels::{floor_log, make_labels};
use pls_pointer::root_and_depths;
use pls_scheme::{Marker, codes_length};
use pls_streams::NoMemory;
use std::alloc::Global;

impl<C: NumCode> Marker for MstRules<C> {
    ghost use Rattle.pls_facts.specs.MinimumSpanningTree.{IsMinimumSpanningTree};
    ghost use Rattle.pls_mst.specs.Mst.{MstSays, longest_mst};
    ghost use Rattle.pls_mst.specs.laws.MstLaws.{mst_fits, mst_met, mst_one_right, mst_show};

    ghost holds = { λ _ rows. IsMinimumSpanningTree rows };

    ghost says = { λ _ rows row label. MstSays rows row label };

    ghost longest = { λ _ size. longest_mst C.code size };

    fn longest(&self, size: &Size) -> u64 {
        let id = u64::from(size.max_id);
        let levels = floor_log(size.nodes);
        let front = codes_length::<C>(&[id, id, id, size.nodes, levels]);
        let level = codes_length::<C>(&[id, u64::from(size.max_weight), id, id]);
        front.saturating_add(levels.saturating_mul(level))
    }

    fn right_labels(
        &self,
        alloc: Global,
        net: &Network,
    ) -> Result<Option<Vec<MstLabel>>, NoMemory> {
        let Some((root, depths)) = root_and_depths(alloc, net)? else {
            return Ok(None);
        };
        let Some(lists) = boruvka_levels(alloc, net)? else {
            return Ok(None);
        };
        let labels = make_labels::<MstLevels>(alloc, net, root, &depths, &lists)?;
        Ok(Some(labels))
    }

    ghost show_law = { λ _. mst_show };

    ghost met_law = { λ _. mst_met };

    ghost one_right_law = { λ _. mst_one_right };

    ghost fits_law = { λ _. mst_fits C.code C.grows_law C.short_law };
}
