//! Labels in one store with room for those to come.

ghost use Rattle.std.specs.Prelude.{◌≡◌, ◌+◌, ◌*◌, ◌≤◌, ◌^◌, ◌++◌, [], length, replicate, IfOk};

use pls_labels::{LabelRoom, LabelStore};
use pls_streams::NoMemory;
use std::alloc::Global;

// The greatest number of bits for which room is asked, 2^61.
const MOST: u64 = 2_305_843_009_213_693_952;

// A copy of the labels with `more` empty ones behind, and room for `bits` bits in these.
pub(crate) fn stock_of(
    alloc: Global,
    labels: &LabelStore,
    more: usize,
    bits: u64,
) -> Result<LabelRoom, NoMemory>
    requires few { length labels.now ≤ 2 ^ 20 }
    requires few_more { more ≤ 2 ^ 20 }
    requires few_bits { bits ≤ 2 ^ 28 }
    ensures labels { IfOk result (λ room. room.labels ≡ labels.now ++ replicate more []) }
    ensures spare { IfOk result (λ room. bits + 64 * more ≤ room.spare) }
{
    let nodes = labels.len();
    let room_for_more = bits + 64 * more as u64;
    let mut room = LabelRoom::blank(alloc, nodes + more)?;
    let all = labels.total().saturating_add(64 * nodes as u64);
    room.reserve(all.saturating_add(room_for_more).min(MOST))?;
    for i in 0..nodes {
        let cost = labels.bits(i).len().div_ceil(64);
        if cost as u64 > MOST / 64 {
            return Err(NoMemory);
        }
        room.reserve(64 * cost as u64)?;
        room.replace_spare(i, labels.bits(i));
    }
    room.reserve(room_for_more)?;
    Ok(room)
}
