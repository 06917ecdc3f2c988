//! How networks with a two-colouring are labelled.

use crate::bipartite::BipartiteRules;
use crate::colour_format::ColourLabel;
use crate::level_labels::{SaysLevels, level_labels};
use pls_bits::NumCode;
use pls_facts::is_valid;
use pls_graph::{Network, Size};
use pls_scheme::{Marker, hold_everywhere};
use pls_streams::NoMemory;
use std::alloc::Global;

impl<C: NumCode> SaysLevels for BipartiteRules<C> {
    ghost use Rattle.pls_colour.specs.Bipartite.{parity_label};

    ghost level_label = { parity_label };

    fn level_label(level: u32) -> ColourLabel {
        ColourLabel {
            colour: level % 2 == 1,
        }
    }
}

impl<C: NumCode> Marker for BipartiteRules<C> {
    ghost use Rattle.pls_facts.specs.Bipartite.{IsBipartite};
    ghost use Rattle.pls_colour.specs.Bipartite.{bipartite_limits, bipartite_says, colour_shape};
    ghost use Rattle.pls_scheme.specs.Basic.{longest_by};
    ghost use Rattle.pls_colour.specs.laws.BipartiteLaws.{bipartite_fits, bipartite_met, bipartite_one_right, bipartite_show};

    ghost holds = { λ _ rows. IsBipartite rows };

    ghost says = { λ _ rows row label. bipartite_says rows row label };

    ghost longest = { λ _. longest_by colour_shape bipartite_limits C.code };

    fn longest(&self, _size: &Size) -> u64 {
        1
    }

    fn right_labels(
        &self,
        alloc: Global,
        net: &Network,
    ) -> Result<Option<Vec<ColourLabel>>, NoMemory> {
        is_valid(net);
        let labels = level_labels::<Self>(alloc, net)?;
        if hold_everywhere(self, net, &labels) {
            Ok(Some(labels))
        } else {
            Ok(None)
        }
    }

    ghost show_law = { λ _. bipartite_show };

    ghost met_law = { λ _. bipartite_met };

    ghost one_right_law = { λ _. bipartite_one_right };

    ghost fits_law = { λ _. bipartite_fits C.code };
}
