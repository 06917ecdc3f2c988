//! Labels in one store, and views of a node with many ports.

use super::bits::{bits_of, zeros_and_ones};
use super::network;
use pls_bits::{BitBuf, from_hex, spells_bits};
use pls_graph::Network;
use pls_labels::{LabelRoom, LabelStore, PortView, View};
use pls_streams::NoMemory;
use std::alloc::Global;
use std::process::Abort;
use std::test::Fail;

// A node with nine neighbours, more than a view has room for without memory.
const STAR: &str = "network\nnode 0 - 0 0\nport 1 10\nport 2 20\nport 3 30\nport 4 40\nport 5 50\n\
                    port 6 60\nport 7 70\nport 8 80\nport 9 90\nnode 1 0 0 0\nport 0 10\n\
                    node 2 0 0 0\nport 0 20\nnode 3 0 0 0\nport 0 30\nnode 4 0 0 0\nport 0 40\n\
                    node 5 0 0 0\nport 0 50\nnode 6 0 0 0\nport 0 60\nnode 7 0 0 0\nport 0 70\n\
                    node 8 0 0 0\nport 0 80\nnode 9 0 0 0\nport 0 90\nend\n";

// Asserts that two labels of 64 bits fit into the 128 bits reserved.
fn assert_two_words(
    rt: &impl Abort,
    room: &mut LabelRoom,
    ones: &BitBuf,
    half: &BitBuf,
) -> Result<(), Fail> {
    assert!(rt; ones.len() == 64 && half.len() == 64, "64 bits each");
    assert!(rt; room.len() == 3, "three labels");
    room.reserve(128)?;
    room.replace_spare(0, ones.bits());
    room.replace_spare(1, half.bits());
    assert!(rt; room.bits(0).equal(ones.bits()), "the first label");
    assert!(rt; room.bits(1).equal(half.bits()), "the second label");
    assert!(rt; room.bits(2).is_empty() && room.total() == 128, "the third");
    Ok(())
}

#[test]
fn two_words_are_placed_without_memory(rt: HostRuntime) -> Result<(), Fail> {
    let ones = zeros_and_ones(rt.alloc(), 0, 64)?;
    let half = zeros_and_ones(rt.alloc(), 32, 32)?;
    let mut room = LabelRoom::blank(rt.alloc(), 3)?;
    assert_two_words(&rt, &mut room, &ones, &half)
}

fn stands_at(store: &mut LabelStore, place: usize, label: &BitBuf) -> Result<bool, NoMemory> {
    if place >= store.len() {
        return Ok(false);
    }
    store.replace(place, label)?;
    Ok(store.bits(place).equal(label.bits()))
}

// Puts a label of `zeros` zeros and a one at `place`.
fn assert_stands(
    rt: &impl Abort,
    alloc: Global,
    store: &mut LabelStore,
    place: usize,
    zeros: usize,
) -> Result<(), Fail> {
    let label = zeros_and_ones(alloc, zeros, 1)?;
    assert!(rt;
        stands_at(store, place, &label)?,
        "a label of {zeros} zeros at place {place}"
    );
    Ok(())
}

// Asserts that the last of three labels stays while the first is replaced often.
fn assert_stays(
    rt: &impl Abort,
    alloc: Global,
    store: &mut LabelStore,
    last: &BitBuf,
) -> Result<(), Fail> {
    assert!(rt; stands_at(store, 2, last)?, "the last label");
    for zeros in 0..200 {
        assert_stands(rt, alloc, store, 0, zeros)?;
    }
    assert!(rt;
        store.len() == 3 && store.bits(2).equal(last.bits()),
        "the last"
    );
    Ok(())
}

#[test]
fn one_label_is_replaced_often(rt: HostRuntime) -> Result<(), Fail> {
    let mut store = LabelStore::blank(rt.alloc(), 3)?;
    let last = bits_of(rt.alloc(), "101")?;
    assert_stays(&rt, rt.alloc(), &mut store, &last)?;
    assert!(rt; store.with_room().spare() < 3200, "room for few more words");
    Ok(())
}

// Port `number`, from 1, has weight 10 * `number` and a label of `number` zeros and a one.
fn is_port(alloc: Global, port: &PortView<'_>, number: usize) -> Result<bool, NoMemory> {
    let label = zeros_and_ones(alloc, number, 1)?;
    Ok(port.weight as usize == number.saturating_mul(10) && port.label.equal(label.bits()))
}

fn has_nine(alloc: Global, view: &View<'_>) -> Result<bool, NoMemory> {
    let mut number: usize = 0;
    for port in view.ports.iter() {
        number = number.saturating_add(1);
        if !is_port(alloc, port, number)? {
            return Ok(false);
        }
    }
    Ok(number == 9 && view.degree() == 9)
}

// Whether the first node's view has nine ports, each as `is_port` asks.
fn shows_nine(alloc: Global, net: &Network, labels: &LabelStore) -> Result<bool, NoMemory> {
    if net.len() == 0 || labels.len() != net.len() {
        return Ok(false);
    }
    let view = View::of(alloc, net, labels, 0)?;
    has_nine(alloc, &view)
}

// First gives each of ten nodes a label of as many zeros as its place, and a one.
fn assert_nine(
    rt: &impl Abort,
    alloc: Global,
    net: &Network,
    labels: &mut LabelStore,
) -> Result<(), Fail> {
    for place in 0..10 {
        assert_stands(rt, alloc, labels, place, place)?;
    }
    assert!(rt; shows_nine(alloc, net, labels)?, "nine ports");
    Ok(())
}

#[test]
fn a_view_of_nine_ports(rt: HostRuntime) -> Result<(), Fail> {
    let net = network(rt.alloc(), STAR)?;
    let mut labels = LabelStore::blank(rt.alloc(), net.len())?;
    assert_nine(&rt, rt.alloc(), &net, &mut labels)
}

// Asserts that a label of 69 bits, as hex digits, fits into the 128 bits reserved.
fn assert_hex(
    rt: &impl Abort,
    room: &mut LabelRoom,
    digits: &[u8],
    wanted: &BitBuf,
) -> Result<(), Fail> {
    assert!(rt; room.len() == 2, "two labels");
    room.reserve(128)?;
    assert!(rt; spells_bits(69, digits), "69 bits");
    room.replace_spare_hex(1, 69, digits);
    assert!(rt;
        room.bits(0).is_empty() && room.total() == 69,
        "the first label"
    );
    assert!(rt; room.bits(1).equal(wanted.bits()), "the second label");
    Ok(())
}

#[test]
fn hex_digits_are_put_without_memory(rt: HostRuntime) -> Result<(), Fail> {
    let digits = b"0123456789abcdef88".as_slice();
    let wanted = from_hex(rt.alloc(), 69, digits)?;
    let mut room = LabelRoom::blank(rt.alloc(), 2)?;
    assert_hex(&rt, &mut room, digits, &wanted)
}
