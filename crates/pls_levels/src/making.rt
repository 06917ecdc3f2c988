//! Labels that are made of a root, depths and levels.

ghost use Rattle.std.specs.Prelude.{◌≡◌, ◌<◌, length, IfOk, slice_get, Some};
ghost use Rattle.pls_bits.specs.Gamma.{floor_log};
ghost use Rattle.pls_configuration.specs.declared.row.NodeRow.{NodeRow};
ghost use Rattle.pls_levels.specs.Making.{AreMade, label_from, parent_or_own};

use crate::label::LevelLabel;
use crate::level_kind::LevelKind;
use pls_graph::Network;
use pls_streams::NoMemory;
use std::alloc::Global;

/// The labels of this root, these depths and these levels, in the order of the nodes. The one error
/// is want of memory.
pub fn make_labels<K: LevelKind>(
    alloc: Global,
    net: &Network,
    root: u32,
    depths: &[u32],
    lists: &K::Lists,
) -> Result<Vec<LevelLabel<K::List>>, NoMemory>
    requires deep { length depths.now ≡ length net.now }
    requires levels { length (K.lists_of lists.now) ≡ length net.now }
    ensures { IfOk result (λ labels. AreMade net.now root depths.now (K.lists_of lists.now)
        (length net.now) labels.items) }
{
    let mut labels = Vec::with_capacity(alloc, net.len())?;
    for place in 0..net.len() {
        let levels = K::list_at(lists, place)?;
        labels.push(label_at(net, place, root, depths[place], levels))?;
    }
    Ok(labels)
}

fn label_at<S: Drop>(net: &Network, place: usize, root: u32, depth: u32, levels: S) -> LevelLabel<S>
    requires { place < length net.now }
    ensures { (row : NodeRow) → slice_get net.now place ≡ Some row
        → result ≡ label_from root row depth levels }
{
    let (own, _) = net.node(place);
    LevelLabel {
        root: u64::from(root),
        own: u64::from(own),
        parent: u64::from(parent_at(net, place)),
        depth: u64::from(depth),
        levels,
    }
}

// The node itself where it points at none.
fn parent_at(net: &Network, place: usize) -> u32
    requires { place < length net.now }
    ensures { (row : NodeRow) → slice_get net.now place ≡ Some row → result ≡ parent_or_own row }
{
    let (id, state) = net.node(place);
    match state.up {
        Some(up) => net.ports(place)[up as usize].nbr,
        None => id,
    }
}

/// The logarithm of a number to the base 2, rounded down, and 0 for the number 0. Above 62 it is
/// given as 62.
pub fn floor_log(number: u64) -> u64
    ensures { result ≡ floor_log number }
{
    if number == 0 {
        return 0;
    }
    u64::from(number.ilog2()).min(62)
}
