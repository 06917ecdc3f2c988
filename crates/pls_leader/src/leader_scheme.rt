//! How networks with one leader are labelled.

ghost use Rattle.std.specs.Prelude.{◌≡◌, map, IfOk};
ghost use Rattle.pls_leader.specs.inner.Saying.{leader_at};

use crate::leader::{LeaderLabel, LeaderRules};
use crate::rooted::levels_from;
use pls_bits::NumCode;
use pls_configuration::State;
use pls_facts::{StateTest, only_node};
use pls_graph::{Network, Size};
use pls_scheme::{Marker, codes_length};
use pls_streams::NoMemory;
use std::alloc::Global;

/// That the node is marked as a leader.
pub struct IsLeader;

impl StateTest for IsLeader {
    ghost use Rattle.pls_facts.specs.Leader.{is_leader};

    ghost passes = { is_leader };

    fn passes(state: State) -> bool {
        state.mark == 1
    }
}

impl<C: NumCode> Marker for LeaderRules<C> {
    ghost use Rattle.pls_facts.specs.Leader.{HasOneLeader};
    ghost use Rattle.pls_leader.specs.Leader.{leader_limits, leader_says, leader_shape};
    ghost use Rattle.pls_scheme.specs.Basic.{longest_by};
    ghost use Rattle.pls_leader.specs.laws.LeaderLaws.{leader_fits, leader_met, leader_one_right, leader_show};

    ghost holds = { λ _ rows. HasOneLeader rows };

    ghost says = { λ _ rows row label. leader_says rows row label };

    ghost longest = { λ _. longest_by leader_shape leader_limits C.code };

    fn longest(&self, size: &Size) -> u64 {
        codes_length::<C>(&[u64::from(size.max_id), size.nodes])
    }

    fn right_labels(
        &self,
        alloc: Global,
        net: &Network,
    ) -> Result<Option<Vec<LeaderLabel>>, NoMemory> {
        let Some(leader) = only_node::<IsLeader>(net) else {
            return Ok(None);
        };
        let Some(place) = net.place_of(leader) else {
            return Ok(None);
        };
        let levels = levels_from(alloc, net, place)?;
        let labels = labels_of_levels(alloc, leader, &levels)?;
        Ok(Some(labels))
    }

    ghost show_law = { λ _. leader_show };

    ghost met_law = { λ _. leader_met };

    ghost one_right_law = { λ _. leader_one_right };

    ghost fits_law = { λ _. leader_fits C.code C.grows_law C.short_law };
}

fn labels_of_levels(alloc: Global, root: u32, levels: &[u32]) -> Result<Vec<LeaderLabel>, NoMemory>
    ensures { IfOk result (λ labels. labels.items ≡ map (leader_at root) levels.now) }
{
    let labels = levels
        .iter()
        .map(|level| LeaderLabel {
            root: u64::from(root),
            depth: u64::from(*level),
        })
        .collect(alloc)?;
    Ok(labels)
}
