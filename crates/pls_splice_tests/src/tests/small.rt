//! All labels of one bit on rings of up to twelve nodes, against a plain program.

ghost use Rattle.pls_splice.specs.Ring.{IsRingOrder};

use super::{first_crossing, labels_of, network};
use pls_components::components;
use pls_graph::Network;
use pls_labels::LabelStore;
use pls_splice::{Pair, Ring};
use std::alloc::{AllocError, Global};
use std::test::Fail;

// The identity of the node at position `number` on the ring.
fn id_of(count: u32, number: u32) -> u32 {
    if count == 7 {
        return number.wrapping_add(1);
    }
    number
        .wrapping_mul(7)
        .checked_rem(count)
        .unwrap_or(0)
        .wrapping_add(1)
}

// The edges have `weights` different weights in turn.
fn weight_of(edge: u32, weights: u32) -> u32 {
    edge.checked_rem(weights).unwrap_or(0).wrapping_add(1)
}

// The port to the node behind comes first where `number` is even.
fn write_node(text: &mut String, count: u32, number: u32, weights: u32) -> Result<(), AllocError> {
    let id = id_of(count, number);
    let last = count.wrapping_sub(1);
    let back = if number == 0 {
        last
    } else {
        number.wrapping_sub(1)
    };
    let on = if number == last {
        0
    } else {
        number.wrapping_add(1)
    };
    let behind = id_of(count, on);
    let before = id_of(count, back);
    let there = weight_of(number, weights);
    let here = weight_of(back, weights);
    if number % 2 == 0 {
        write!(
            text,
            "node {id} - 0 0\nport {behind} {there}\nport {before} {here}\n"
        )
    } else {
        write!(
            text,
            "node {id} - 0 0\nport {before} {here}\nport {behind} {there}\n"
        )
    }
}

fn write_ring(text: &mut String, count: u32, weights: u32) -> Result<(), AllocError> {
    text.push_str("network\n")?;
    for place in 0..count {
        for number in 0..count {
            if id_of(count, number) == place + 1 {
                write_node(text, count, number, weights)?;
            }
        }
    }
    text.push_str("end\n")
}

fn ring_of(alloc: Global, count: u32, weights: u32) -> Result<Network, Fail> {
    let mut text = String::new(alloc);
    write_ring(&mut text, count, weights)?;
    network(alloc, text.as_str())
}

fn bit(word: u32, number: u32) -> u32 {
    word.checked_shr(number).unwrap_or(0) % 2
}

// The plain program: tries all pairs in order.
fn first_pair(count: u32, weights: u32, word: u32) -> Option<Pair> {
    for first in 0..count {
        for second in first..count {
            let apart = second - first;
            let on = if first + 1 == count { 0 } else { first + 1 };
            let next = if second + 1 == count { 0 } else { second + 1 };
            if apart >= 3
                && count - apart >= 3
                && weight_of(first, weights) == weight_of(second, weights)
                && bit(word, first) == bit(word, second)
                && bit(word, on) == bit(word, next)
            {
                return Some(Pair { first, second });
            }
        }
    }
    None
}

// One bit each: bit `number` of `word` for the node at that position on the ring.
fn labels(alloc: Global, count: u32, word: u32) -> Result<LabelStore, Fail> {
    let mut words = Vec::new(alloc);
    for place in 0..count {
        for number in 0..count {
            if id_of(count, number) == place + 1 {
                words.push(bit(word, number))?;
            }
        }
    }
    labels_of(alloc, words.as_slice(), 1)
}

// Whether there are two components, the second of `second` nodes, of `count` in all.
fn is_in_two(alloc: Global, net: &Network, count: usize, second: usize) -> Result<bool, Fail> {
    let parts = components(alloc, net)?;
    Ok(
        parts.len() == 2
            && parts.members(1).len() == second
            && parts.members(0).len() == count.wrapping_sub(second),
    )
}

// Whether the first pair is `due`, and crossing it leaves components of the due sizes.
fn agrees(
    alloc: Global,
    net: &Network,
    ring: &Ring,
    labels: &LabelStore,
    due: Option<Pair>,
) -> Result<bool, Fail>
    requires { IsRingOrder net.now ring.now }
{
    let Some((pair, other)) = first_crossing(alloc, ring, net, labels)? else {
        return Ok(due.is_none());
    };
    if due != Some(pair) {
        return Ok(false);
    }
    let apart = pair.second.wrapping_sub(pair.first) as usize;
    is_in_two(alloc, &other, net.len(), apart)
}

// The first label word where the ring and the plain program differ.
fn first_other(
    alloc: Global,
    net: &Network,
    ring: &Ring,
    count: u32,
    weights: u32,
) -> Result<Option<u32>, Fail>
    requires { IsRingOrder net.now ring.now }
{
    for word in 0..1_u32.wrapping_shl(count) {
        let labels = labels(alloc, count, word)?;
        let due = first_pair(count, weights, word);
        if labels.len() != net.len() || !agrees(alloc, net, ring, &labels, due)? {
            return Ok(Some(word));
        }
    }
    Ok(None)
}

fn first_other_of(alloc: Global, count: u32, weights: u32) -> Result<Option<u32>, Fail> {
    let net = ring_of(alloc, count, weights)?;
    match Ring::read(alloc, &net) {
        Ok(ring) => first_other(alloc, &net, &ring, count, weights),
        Err(_) => Err(Fail::from("no ring")),
    }
}

#[test]
fn all_labels_of_one_bit(rt: HostRuntime) -> Result<(), Fail> {
    for count in 3..13u32 {
        for weights in 1..4u32 {
            let other = first_other_of(rt.alloc(), count, weights)?;
            assert!(rt;
                other.is_none(),
                "{count} nodes, {weights} weights, labels {other:?}"
            );
        }
    }
    Ok(())
}
