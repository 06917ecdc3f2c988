//! Marking a network whose components are marked each by itself.

ghost use Rattle.std.specs.Prelude.{◌≡◌, ◌≤◌, ◌<◌, ◌^◌, ◌∷◌, ℕ, List, Some, All, IfOk, OnOk, [], length, slice_get};
ghost use Rattle.pls_configuration.specs.Rising.{IsRising};
ghost use Rattle.pls_components.specs.Components.{AreComponents};
ghost use Rattle.pls_components.specs.Parts.{AreLacking, AreShown, IfLabels, IfLacking};
ghost use Rattle.pls_components.specs.inner.Marking.{ArePutAt, IsPartMarked, room_for};

use crate::component_list::Components;
use crate::id_list::IdList;
use crate::mark_result::MarkResult;
use pls_facts::is_valid;
use pls_graph::Network;
use pls_labels::{LabelRoom, LabelStore};
use pls_scheme::Scheme;
use pls_streams::NoMemory;
use std::alloc::Global;

// The greatest number of bits of the labels of a component, 2^60. More find no memory.
const MOST: u64 = 1_152_921_504_606_846_976;

/// The labels that prove the property of each component, or the smallest identities of those that
/// lack it, exactly where there are such. The one error is want of memory.
///
/// A network that is one component is marked as it is: neither it nor its labels are copied.
pub fn mark_parts<S: Scheme>(
    alloc: Global,
    scheme: &S,
    net: &Network,
    parts: &Components,
) -> Result<MarkResult, NoMemory>
    requires { AreComponents net.now parts.now }
    ensures labels { IfOk result (IfLabels (AreShown (S.holds scheme.now) (S.marked scheme.now)
        (S.judge scheme.now) (S.longest scheme.now) net.now)) }
    ensures lacking { IfOk result (IfLacking (AreLacking (S.holds scheme.now) net.now)) }
{
    if parts.len() == 1 {
        return mark_whole(alloc, scheme, net, parts);
    }
    let mut labels = LabelStore::blank(alloc, net.len())?;
    let mut ids = Vec::new(alloc);
    // Behind a component that lacks the property the others are asked too, so that all are named.
    for k in 0..parts.len() {
        if !mark_part(alloc, scheme, net, parts, k, &mut labels)? {
            ids.push(parts.smallest_id(net, k))?;
        }
    }
    if ids.is_empty() {
        return Ok(MarkResult::Labels(labels));
    }
    Ok(MarkResult::Lacking(IdList { ids }))
}

fn mark_whole<S: Scheme>(
    alloc: Global,
    scheme: &S,
    net: &Network,
    parts: &Components,
) -> Result<MarkResult, NoMemory>
    requires made { AreComponents net.now parts.now }
    requires one { length parts.now ≡ 1 }
    ensures labels { IfOk result (IfLabels (AreShown (S.holds scheme.now) (S.marked scheme.now)
        (S.judge scheme.now) (S.longest scheme.now) net.now)) }
    ensures lacking { IfOk result (IfLacking (AreLacking (S.holds scheme.now) net.now)) }
{
    is_valid(net);
    match scheme.mark(alloc, net)? {
        Some(labels) => Ok(MarkResult::Labels(labels)),
        None => Ok(MarkResult::Lacking(one_id(alloc, net.node(0).0)?)),
    }
}

fn one_id(alloc: Global, id: u32) -> Result<IdList, NoMemory>
    ensures { IfOk result (λ list. list ≡ id ∷ []) }
{
    let mut ids = Vec::new(alloc);
    ids.push(id)?;
    Ok(IdList { ids })
}

// `false` where component `k` lacks the property, else its labels are put at its places.
fn mark_part<S: Scheme>(
    alloc: Global,
    scheme: &S,
    net: &Network,
    parts: &Components,
    k: usize,
    labels: &mut LabelStore,
) -> Result<bool, NoMemory>
    requires made { AreComponents net.now parts.now }
    requires within { k < length parts.now }
    requires each { length labels.old ≡ length net.now }
    ensures put { IfOk result (λ has. (places : List ℕ) → slice_get parts.now k ≡ Some places
        → IsPartMarked (S.holds scheme.now) (S.marked scheme.now) (S.judge scheme.now)
        (S.longest scheme.now) net.now places labels.old labels.new has) }
{
    is_valid(net);
    let part = parts.part(alloc, net, k)?;
    match scheme.mark(alloc, &part)? {
        Some(marked) => {
            put_labels(labels, parts.members(k), &marked)?;
            Ok(true)
        }
        None => Ok(false),
    }
}

// Reserves room for all labels first, so that none allocates on its own.
fn put_labels(labels: &mut LabelStore, places: &[u32], marked: &LabelStore) -> Result<(), NoMemory>
    requires rising { IsRising places.now }
    requires within { All (λ place. place < length labels.old) places.now }
    requires few { length places.now ≤ 2 ^ 20 }
    requires each { length marked.now ≡ length places.now }
    ensures { OnOk result (ArePutAt places.now marked.now labels.old labels.new) }
{
    let bits = marked.total();
    if bits > MOST {
        return Err(NoMemory);
    }
    let room = labels.with_room();
    room.reserve(bits + 64 * places.len() as u64)?;
    put_into(room, places, marked);
    Ok(())
}

// Each label begins a new word of `room`, which must have space for all.
fn put_into(room: &mut LabelRoom, places: &[u32], marked: &LabelStore)
    requires rising { IsRising places.now }
    requires within { All (λ place. place < length room.old.labels) places.now }
    requires each { length marked.now ≡ length places.now }
    requires room { room_for marked.now ≤ room.old.spare }
    ensures { ArePutAt places.now marked.now room.old.labels room.new.labels }
{
    for (j, place) in places.iter().enumerate() {
        room.replace_spare(*place as usize, marked.bits(j));
    }
}
