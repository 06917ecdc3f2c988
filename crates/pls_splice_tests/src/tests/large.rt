//! A ring of as many nodes as there may be.

use super::plain_crossing;
use pls_splice::Pair;
use std::alloc::Global;
use std::test::Fail;

// `count` words of 16 bits that look random; behind `period` of them the same ones again.
fn words_of(alloc: Global, count: usize, period: usize) -> Result<Vec<u32>, Fail> {
    let mut words = Vec::new(alloc);
    let mut word = 12_345u32;
    for place in 0..count {
        if place == period {
            word = 12_345;
        }
        // A number that looks like chance (Marsaglia 2003, "Xorshift RNGs").
        word ^= word << 13;
        word ^= word >> 17;
        word ^= word << 5;
        words.push(word % 65_536)?;
    }
    Ok(words)
}

#[test]
fn a_ring_of_32768_nodes(rt: HostRuntime) -> Result<(), Fail> {
    let words = words_of(rt.alloc(), 32_768, 32_768)?;
    let none = plain_crossing(rt.alloc(), 32_768, words.as_slice(), 16)?;
    assert!(rt; none.is_none(), "no two edges are alike");
    let words = words_of(rt.alloc(), 32_768, 16_384)?;
    let Some((pair, net)) = plain_crossing(rt.alloc(), 32_768, words.as_slice(), 16)? else {
        return Err(Fail::from("no pair"));
    };
    let due = Pair {
        first: 0,
        second: 16_384,
    };
    assert!(rt; pair == due && net.len() == 32_768, "edges 0 and 16384");
    Ok(())
}
