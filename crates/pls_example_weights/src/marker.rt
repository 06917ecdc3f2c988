//! How networks of same weights are labelled.

ghost use Rattle.std.specs.Prelude.{◌≡◌, map, take, IfOk};
ghost use Rattle.pls_example_weights.specs.SameWeights.{first_weights};

use crate::rules::SameWeightsRules;
use crate::weights::Weights;
use pls_bits::NumCode;
use pls_configuration::Port;
use pls_facts::is_valid;
use pls_graph::{Network, Size};
use pls_scheme::{Marker, codes_length, hold_everywhere};
use pls_streams::NoMemory;
use std::alloc::Global;

impl<C: NumCode> Marker for SameWeightsRules<C> {
    ghost use Rattle.pls_scheme.specs.Basic.{longest_by};
    ghost use Rattle.pls_example_weights.specs.SameWeights.{HaveSameWeights, same_weights_limits, same_weights_says, weights_shape};
    ghost use Rattle.pls_example_weights.specs.laws.SameWeightsLaws.{same_weights_fits, same_weights_met, same_weights_one_right, same_weights_show};

    ghost holds = { λ _ rows. HaveSameWeights rows };

    ghost says = { λ _ rows row label. same_weights_says rows row label };

    ghost longest = { λ _. longest_by weights_shape same_weights_limits C.code };

    fn longest(&self, size: &Size) -> u64 {
        let weight = u64::from(size.max_weight);
        codes_length::<C>(&[4, weight, weight, weight, weight])
    }

    fn right_labels(&self, alloc: Global, net: &Network) -> Result<Option<Vec<Weights>>, NoMemory> {
        is_valid(net);
        let labels = all_weights(alloc, net)?;
        if hold_everywhere(self, net, &labels) {
            Ok(Some(labels))
        } else {
            Ok(None)
        }
    }

    ghost show_law = { λ _. same_weights_show };

    ghost met_law = { λ _. same_weights_met };

    ghost one_right_law = { λ _. same_weights_one_right };

    ghost fits_law = { λ _. same_weights_fits C.code C.grows_law C.short_law };
}

fn all_weights(alloc: Global, net: &Network) -> Result<Vec<Weights>, NoMemory>
    ensures { IfOk result (λ labels. labels.items ≡ map first_weights net.now) }
{
    let mut labels = Vec::with_capacity(alloc, net.len())?;
    for i in 0..net.len() {
        labels.push(weights_at(net.ports(i)))?;
    }
    Ok(labels)
}

// The weights at the first four ports.
fn weights_at(ports: &[Port]) -> Weights
    ensures { result ≡ take 4 (map (λ port. port.weight) ports.now) }
{
    let mut weights = Weights::none();
    for port in ports {
        weights.push(u64::from(port.weight));
    }
    weights
}
