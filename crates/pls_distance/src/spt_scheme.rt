//! How networks whose pointers make a shortest-path tree are labelled.

ghost use Rattle.std.specs.Prelude.{◌≡◌, ◌↔◌, ◌<◌, length, IfOk, IsTrue};
ghost use Rattle.pls_distance.specs.inner.Following.{AreFollowed, AreLabelsSoFar, IsFollowed};

use crate::farther::is_farther_by;
use crate::spt::{SptLabel, SptRules};
use pls_bits::NumCode;
use pls_graph::{Network, Size};
use pls_pointer::root_and_depths;
use pls_scheme::{Marker, codes_length};
use pls_search::distances;
use pls_streams::NoMemory;
use std::alloc::Global;

impl<C: NumCode> Marker for SptRules<C> {
    ghost use Rattle.pls_facts.specs.ShortestPath.{IsShortestPathTree};
    ghost use Rattle.pls_distance.specs.Spt.{spt_limits, spt_says, spt_shape};
    ghost use Rattle.pls_scheme.specs.Basic.{longest_by};
    ghost use Rattle.pls_distance.specs.laws.SptLaws.{spt_fits, spt_met, spt_one_right, spt_show};

    ghost holds = { λ _ rows. IsShortestPathTree rows };

    ghost says = { λ _ rows row label. spt_says rows row label };

    ghost longest = { λ _. longest_by spt_shape spt_limits C.code };

    fn longest(&self, size: &Size) -> u64 {
        let heaviest = size.nodes.saturating_mul(u64::from(size.max_weight));
        codes_length::<C>(&[u64::from(size.max_id), size.nodes, heaviest])
    }

    fn right_labels(
        &self,
        alloc: Global,
        net: &Network,
    ) -> Result<Option<Vec<SptLabel>>, NoMemory> {
        let Some((root, depths)) = root_and_depths(alloc, net)? else {
            return Ok(None);
        };
        let Some(place) = net.place_of(root) else {
            return Ok(None);
        };
        let found = distances(alloc, net, place)?;
        if !follow_pointers(net, &found) {
            return Ok(None);
        }
        let labels = labels_of(alloc, root, &depths, &found)?;
        Ok(Some(labels))
    }

    ghost show_law = { λ _. spt_show };

    ghost met_law = { λ _. spt_met };

    ghost one_right_law = { λ _. spt_one_right };

    ghost fits_law = { λ _. spt_fits C.code C.grows_law C.short_law };
}

// A distance within the limits is below 2^47, the weight of 32,767 edges.
fn follow_pointers(net: &Network, found: &[Option<u64>]) -> bool
    requires { length found.now ≡ length net.now }
    ensures { IsTrue result ↔ AreFollowed net.now found.now }
{
    for place in 0..net.len() {
        if !follows_pointer(net, found, place) {
            return false;
        }
    }
    true
}

// `true` where the node points at none.
fn follows_pointer(net: &Network, found: &[Option<u64>], place: usize) -> bool
    requires each { length found.now ≡ length net.now }
    requires within { place < length net.now }
    ensures { IsTrue result ↔ IsFollowed net.now found.now place }
{
    let (_, state) = net.node(place);
    let Some(up) = state.up else {
        return true;
    };
    let above = net.places(place)[up as usize] as usize;
    let weight = net.ports(place)[up as usize].weight;
    is_farther_by(found[place].unwrap_or(0), found[above].unwrap_or(0), weight)
}

fn labels_of(
    alloc: Global,
    root: u32,
    depths: &[u32],
    found: &[Option<u64>],
) -> Result<Vec<SptLabel>, NoMemory>
    requires { length found.now ≡ length depths.now }
    ensures { IfOk result (λ labels.
        AreLabelsSoFar root depths.now found.now labels.items (length depths.now)) }
{
    let mut labels = Vec::new(alloc);
    for (place, depth) in depths.iter().enumerate() {
        labels.push(SptLabel {
            root: u64::from(root),
            depth: u64::from(*depth),
            dist: found[place].unwrap_or(0),
        })?;
    }
    Ok(labels)
}
