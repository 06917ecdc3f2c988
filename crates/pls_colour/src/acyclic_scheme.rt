//! How networks without cycle are labelled.

use crate::acyclic::{AcyclicLabel, AcyclicRules};
use crate::level_labels::{SaysLevels, level_labels};
use pls_bits::NumCode;
use pls_facts::is_valid;
use pls_graph::{Network, Size};
use pls_scheme::{Marker, codes_length, hold_everywhere};
use pls_streams::NoMemory;
use std::alloc::Global;

impl<C: NumCode> SaysLevels for AcyclicRules<C> {
    ghost use Rattle.pls_colour.specs.Acyclic.{acyclic_label_at};

    ghost level_label = { acyclic_label_at };

    fn level_label(level: u32) -> AcyclicLabel {
        AcyclicLabel {
            depth: u64::from(level),
        }
    }
}

impl<C: NumCode> Marker for AcyclicRules<C> {
    ghost use Rattle.pls_facts.specs.Cycle.{IsAcyclic};
    ghost use Rattle.pls_colour.specs.Acyclic.{acyclic_limits, acyclic_says, acyclic_shape};
    ghost use Rattle.pls_scheme.specs.Basic.{longest_by};
    ghost use Rattle.pls_colour.specs.laws.AcyclicLaws.{acyclic_fits, acyclic_met, acyclic_one_right, acyclic_show};

    ghost holds = { λ _ rows. IsAcyclic rows };

    ghost says = { λ _ rows row label. acyclic_says rows row label };

    ghost longest = { λ _. longest_by acyclic_shape acyclic_limits C.code };

    fn longest(&self, size: &Size) -> u64 {
        codes_length::<C>(&[size.nodes])
    }

    fn right_labels(
        &self,
        alloc: Global,
        net: &Network,
    ) -> Result<Option<Vec<AcyclicLabel>>, NoMemory> {
        is_valid(net);
        let labels = level_labels::<Self>(alloc, net)?;
        if hold_everywhere(self, net, &labels) {
            Ok(Some(labels))
        } else {
            Ok(None)
        }
    }

    ghost show_law = { λ _. acyclic_show };

    ghost met_law = { λ _. acyclic_met };

    ghost one_right_law = { λ _. acyclic_one_right };

    ghost fits_law = { λ _. acyclic_fits C.code C.grows_law C.short_law };
}
