//! How networks whose nodes know their number are labelled.

ghost use Rattle.std.specs.Prelude.{◌≡◌, ◌↔◌, ◌<◌, length, slice_get, Some, IsTrue, IfOk};
ghost use Rattle.pls_configuration.specs.declared.row.NodeRow.{NodeRow};
ghost use Rattle.pls_facts.specs.NodeCount.{AreCounted};
ghost use Rattle.pls_scheme.specs.Marked.{AreRight};
ghost use Rattle.pls_search.specs.SubtreeSizes.{AreSubtreeSizes};
ghost use Rattle.pls_leader.specs.Count.{count_says};
ghost use Rattle.pls_leader.specs.inner.LevelsFrom.{AreLevelsFrom};
ghost use Rattle.pls_leader.specs.inner.Nearest.{AreNearest};

use crate::count::{CountLabel, CountRules};
use crate::parents::nearest_above;
use crate::rooted::levels_from;
use pls_bits::NumCode;
use pls_facts::is_valid;
use pls_graph::{Network, Size};
use pls_scheme::{Marker, codes_length};
use pls_search::subtree_sizes;
use pls_streams::NoMemory;
use std::alloc::Global;

impl<C: NumCode> Marker for CountRules<C> {
    ghost use Rattle.pls_facts.specs.NodeCount.{AreCounted};
    ghost use Rattle.pls_leader.specs.Count.{count_limits, count_says, count_shape};
    ghost use Rattle.pls_scheme.specs.Basic.{longest_by};
    ghost use Rattle.pls_leader.specs.laws.CountShow.{count_show};
    ghost use Rattle.pls_leader.specs.laws.CountLaws.{count_fits, count_met, count_one_right};

    ghost holds = { λ _ rows. AreCounted rows };

    ghost says = { λ _ rows row label. count_says rows row label };

    ghost longest = { λ _. longest_by count_shape count_limits C.code };

    fn longest(&self, size: &Size) -> u64 {
        let id = u64::from(size.max_id);
        codes_length::<C>(&[id, id, id, size.nodes, size.nodes, size.nodes])
    }

    fn right_labels(
        &self,
        alloc: Global,
        net: &Network,
    ) -> Result<Option<Vec<CountLabel>>, NoMemory> {
        if !are_counted(net) {
            return Ok(None);
        }
        is_valid(net);
        let levels = levels_from(alloc, net, 0)?;
        let parents = nearest_above(alloc, net, &levels)?;
        let sizes = subtree_sizes(alloc, &parents)?;
        let labels = labels_of_parts(alloc, net, &levels, &parents, &sizes)?;
        Ok(Some(labels))
    }

    ghost show_law = { λ _. count_show };

    ghost met_law = { λ _. count_met };

    ghost one_right_law = { λ _. count_one_right };

    ghost fits_law = { λ _. count_fits C.code C.grows_law C.short_law };
}

// Whether each node's number is the number of nodes.
fn are_counted(net: &Network) -> bool
    ensures { IsTrue result ↔ AreCounted net.now }
{
    for i in 0..net.len() {
        let (_, state) = net.node(i);
        if state.num != net.len() as u64 {
            return false;
        }
    }
    true
}

fn labels_of_parts(
    alloc: Global,
    net: &Network,
    levels: &[u32],
    parents: &[Option<usize>],
    sizes: &[u32],
) -> Result<Vec<CountLabel>, NoMemory>
    requires levels { AreLevelsFrom net.now 0 levels.now }
    requires parents { AreNearest net.now levels.now parents.now }
    requires sizes { AreSubtreeSizes parents.now sizes.now }
    ensures { IfOk result (λ labels. AreRight (count_says net.now) net.now labels.items) }
{
    let mut labels = Vec::new(alloc);
    for place in 0..net.len() {
        labels.push(label_at(net, levels, parents, sizes, place))?;
    }
    Ok(labels)
}

fn label_at(
    net: &Network,
    levels: &[u32],
    parents: &[Option<usize>],
    sizes: &[u32],
    place: usize,
) -> CountLabel
    requires within { place < length net.now }
    requires levels { AreLevelsFrom net.now 0 levels.now }
    requires parents { AreNearest net.now levels.now parents.now }
    requires sizes { AreSubtreeSizes parents.now sizes.now }
    ensures { (row : NodeRow) → slice_get net.now place ≡ Some row
        → count_says net.now row result }
{
    let (root, _) = net.node(0);
    let (own, _) = net.node(place);
    let parent = match parents[place] {
        Some(parent) => net.node(parent).0,
        None => own,
    };
    CountLabel {
        root: u64::from(root),
        own: u64::from(own),
        parent: u64::from(parent),
        depth: u64::from(levels[place]),
        size: u64::from(sizes[place]),
        total: net.len() as u64,
    }
}
