//! The sizes of subtrees. Each place waits for a visit and for its children; when it has waited for
//! all, it hands its size on to its parent. So each place is entered once for itself and once for
//! each child.

ghost use Rattle.std.specs.Prelude.{◌≡◌, ◌+◌, ◌<◌, ◌≤◌, length, replicate, IfOk};
ghost use Rattle.pls_facts.specs.Parents.{NoParentsReturn};
ghost use Rattle.pls_search.specs.SubtreeSizes.{AreParentsWithin, AreSubtreeSizes, HasParentAt};
ghost use Rattle.pls_search.specs.inner.Passing.{AreWaits, IsPassing, visits_from};

use pls_streams::NoMemory;
use std::alloc::Global;

/// For each place, how many places there are whose chain of parents meets it, itself included. The
/// one error is want of memory.
pub fn subtree_sizes(alloc: Global, parents: &[Option<usize>]) -> Result<Vec<u32>, NoMemory>
    requires few { length parents.now ≤ 32768 }
    requires within { AreParentsWithin parents.now }
    requires never_returns { NoParentsReturn (HasParentAt parents.now) }
    ensures { IfOk result (λ sizes. AreSubtreeSizes parents.now sizes.items) }
{
    let mut waits = visits_and_children(alloc, parents)?;
    let mut sizes = one_each(alloc, parents.len())?;
    for place in 0..parents.len() {
        hand_on(parents, waits.as_mut_slice(), sizes.as_mut_slice(), place);
    }
    Ok(sizes)
}

// For each place, one visit and one for each child.
fn visits_and_children(alloc: Global, parents: &[Option<usize>]) -> Result<Vec<u32>, NoMemory>
    requires few { length parents.now ≤ 32768 }
    requires within { AreParentsWithin parents.now }
    ensures { IfOk result (λ waits. AreWaits parents.now (length parents.now) waits.items) }
{
    let mut waits = one_each(alloc, parents.len())?;
    for place in 0..parents.len() {
        if let Some(parent) = parents[place] {
            waits[parent] += 1;
        }
    }
    Ok(waits)
}

// Visits `start`, and hands sizes to parents while places wait for no more.
fn hand_on(parents: &[Option<usize>], waits: &mut [u32], sizes: &mut [u32], start: usize)
    requires few { length parents.now ≤ 32768 }
    requires within { AreParentsWithin parents.now }
    requires start { start < length parents.now }
    requires passing { IsPassing parents.now (visits_from start) waits.old sizes.old }
    ensures passing { IsPassing parents.now (visits_from (start + 1)) waits.new sizes.new }
{
    let mut place = start;
    loop {
        waits[place] -= 1;
        if waits[place] > 0 {
            return;
        }
        let Some(parent) = parents[place] else {
            return;
        };
        sizes[parent] += sizes[place];
        place = parent;
    }
}

fn one_each(alloc: Global, count: usize) -> Result<Vec<u32>, NoMemory>
    ensures { IfOk result (λ ones. ones.items ≡ replicate count 1) }
{
    Ok(vec![in alloc; 1; count]?)
}
