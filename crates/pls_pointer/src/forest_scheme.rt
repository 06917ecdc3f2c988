//! How networks in which no chain of pointers returns are labelled.

ghost use Rattle.std.specs.Prelude.{◌≡◌, map, IfOk};
ghost use Rattle.pls_pointer.specs.inner.Saying.{forest_label_at};

use crate::forest::{ForestLabel, ForestRules};
use pls_bits::NumCode;
use pls_graph::{Network, Size};
use pls_scheme::{Marker, codes_length};
use pls_search::pointer_depths;
use pls_streams::NoMemory;
use std::alloc::Global;

impl<C: NumCode> Marker for ForestRules<C> {
    ghost use Rattle.pls_pointer.specs.Forest.{IsForest};
    ghost use Rattle.pls_pointer.specs.Forest.{forest_limits, forest_says, forest_shape};
    ghost use Rattle.pls_scheme.specs.Basic.{longest_by};
    ghost use Rattle.pls_pointer.specs.laws.ForestLaws.{forest_fits, forest_met, forest_one_right, forest_show};

    ghost holds = { λ _ rows. IsForest rows };

    ghost says = { λ _ rows row label. forest_says rows row label };

    ghost longest = { λ _. longest_by forest_shape forest_limits C.code };

    fn longest(&self, size: &Size) -> u64 {
        codes_length::<C>(&[size.nodes])
    }

    fn right_labels(
        &self,
        alloc: Global,
        net: &Network,
    ) -> Result<Option<Vec<ForestLabel>>, NoMemory> {
        let Some(depths) = pointer_depths(alloc, net)? else {
            return Ok(None);
        };
        let labels = labels_of_depths(alloc, &depths)?;
        Ok(Some(labels))
    }

    ghost show_law = { λ _. forest_show };

    ghost met_law = { λ _. forest_met };

    ghost one_right_law = { λ _. forest_one_right };

    ghost fits_law = { λ _. forest_fits C.code C.grows_law C.short_law };
}

fn labels_of_depths(alloc: Global, depths: &[u32]) -> Result<Vec<ForestLabel>, NoMemory>
    ensures { IfOk result (λ labels. labels.items ≡ map forest_label_at depths.now) }
{
    let labels = depths
        .iter()
        .map(|depth| ForestLabel {
            depth: u64::from(*depth),
        })
        .collect(alloc)?;
    Ok(labels)
}
