//! The names of fragments: the identities at which chains of joined pointers end.

ghost use Rattle.std.specs.Prelude.{◌≡◌, length, IfOk};
ghost use Rattle.pls_facts.specs.Pointer.{NoneReturns};
ghost use Rattle.pls_boruvka.specs.Fragments.{AreFragmentNames};

use crate::tops::{parents_of, tops_of};
use pls_graph::Network;
use pls_streams::NoMemory;
use std::alloc::Global;

/// For each node, in their order, the identity at which the chain ends that follows pointers only
/// from nodes whose entry in `joined` is true. The one error is want of memory.
pub fn fragments(alloc: Global, net: &Network, joined: &[bool]) -> Result<Vec<u32>, NoMemory>
    requires never_returns { NoneReturns net.now }
    requires each { length joined.now ≡ length net.now }
    ensures { IfOk result (λ names. AreFragmentNames net.now joined.now names.items) }
{
    let mut names = Vec::with_capacity(alloc, net.len())?;
    let parents = parents_of(alloc, net)?;
    let tops = tops_of(alloc, parents.as_slice(), joined)?;
    for top in &tops {
        names.push(net.node(*top as usize).0)?;
    }
    Ok(names)
}
