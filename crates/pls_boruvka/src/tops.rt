//! The tops of fragments: where chains end that follow joined pointers alone. Each chain is walked
//! to its end, or to a place whose top is known, and then walked again to note the top along it.

ghost use Rattle.std.specs.Prelude.{◌≡◌, ◌<◌, ◌≤◌, length, IfOk};
ghost use Rattle.pls_boruvka.specs.inner.Tops.{AreParents, AreTops, AreNotedTops, HasDepths, IsParentPlace, IsTop, joined_parent};
ghost use Rattle.pls_configuration.specs.declared.limits.TheConstants.{MAX_NODES};

use pls_graph::Network;
use pls_search::pointed_place;
use pls_streams::NoMemory;
use std::alloc::Global;

pub(crate) fn parents_of(alloc: Global, net: &Network) -> Result<Vec<Option<u32>>, NoMemory>
    ensures { IfOk result (λ parents. AreParents net.now parents.items) }
{
    let mut parents = Vec::with_capacity(alloc, net.len())?;
    for place in 0..net.len() {
        parents.push(parent_of(net, place))?;
    }
    Ok(parents)
}

fn parent_of(net: &Network, place: usize) -> Option<u32>
    requires within { place < length net.now }
    requires few { length net.now ≤ MAX_NODES }
    ensures { IsParentPlace net.now place result }
{
    match pointed_place(net, place) {
        Some(parent) => Some(parent as u32),
        None => None,
    }
}

pub(crate) fn tops_of(
    alloc: Global,
    parents: &[Option<u32>],
    joined: &[bool],
) -> Result<Vec<u32>, NoMemory>
    requires each { length joined.now ≡ length parents.now }
    requires few { length parents.now ≤ MAX_NODES }
    requires falls { HasDepths parents.now }
    ensures { IfOk result (λ tops. AreTops parents.now joined.now tops.items) }
{
    let mut noted = none_noted(alloc, parents.len())?;
    tops_with(alloc, parents, joined, noted.as_mut_slice())
}

pub(crate) fn none_noted(alloc: Global, count: usize) -> Result<Vec<Option<u32>>, NoMemory>
    ensures { IfOk result (λ noted. length noted.items ≡ count) }
{
    Ok(vec![in alloc; None; count]?)
}

// As `tops_of`, in the memory of `noted`, which is written anew.
pub(crate) fn tops_with(
    alloc: Global,
    parents: &[Option<u32>],
    joined: &[bool],
    noted: &mut [Option<u32>],
) -> Result<Vec<u32>, NoMemory>
    requires each { length joined.now ≡ length parents.now }
    requires room { length noted.old ≡ length parents.now }
    requires few { length parents.now ≤ MAX_NODES }
    requires falls { HasDepths parents.now }
    ensures tops { IfOk result (λ tops. AreTops parents.now joined.now tops.items) }
    ensures room { length noted.new ≡ length noted.old }
{
    noted.fill(None);
    let mut tops = Vec::with_capacity(alloc, parents.len())?;
    for place in 0..parents.len() {
        let top = top_from(parents, joined, noted, place);
        note_top(parents, joined, noted, place, top);
        tops.push(top)?;
    }
    Ok(tops)
}

fn top_from(parents: &[Option<u32>], joined: &[bool], noted: &[Option<u32>], start: usize) -> u32
    requires within { start < length parents.now }
    requires each { length joined.now ≡ length parents.now }
    requires few { length parents.now ≤ MAX_NODES }
    requires falls { HasDepths parents.now }
    requires noted { AreNotedTops parents.now joined.now noted.now }
    ensures { IsTop parents.now joined.now start result }
{
    let mut place = start;
    loop {
        if let Some(top) = noted[place] {
            return top;
        }
        match joined_parent(parents, joined, place) {
            Some(parent) => place = parent as usize,
            None => return place as u32,
        }
    }
}

// Notes `top` along the chain from `start`, up to a place already noted.
fn note_top(
    parents: &[Option<u32>],
    joined: &[bool],
    noted: &mut [Option<u32>],
    start: usize,
    top: u32,
)
    requires within { start < length parents.now }
    requires each { length joined.now ≡ length parents.now }
    requires falls { HasDepths parents.now }
    requires top { IsTop parents.now joined.now start top }
    requires noted { AreNotedTops parents.now joined.now noted.old }
    ensures { AreNotedTops parents.now joined.now noted.new }
{
    let mut place = start;
    while noted[place].is_none() {
        noted[place] = Some(top);
        let Some(parent) = joined_parent(parents, joined, place) else {
            return;
        };
        place = parent as usize;
    }
}

fn joined_parent(parents: &[Option<u32>], joined: &[bool], place: usize) -> Option<u32>
    requires within { place < length parents.now }
    requires each { length joined.now ≡ length parents.now }
    ensures { result ≡ joined_parent parents.now joined.now place }
{
    if joined[place] { parents[place] } else { None }
}
