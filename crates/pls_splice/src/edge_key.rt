//! What two edges of a ring have to agree in, as one list of words.

ghost use Rattle.std.specs.Prelude.{◌≡◌, ◌<◌, ◌==◌, ◌++◌, ◌∷◌, Bool, List, IfOk, OnOk, find, length, option_map};
ghost use Rattle.pls_splice.specs.Crossing.{label_at, weight_between};
ghost use Rattle.pls_splice.specs.Ring.{IsRingOrder};
ghost use Rattle.pls_splice.specs.inner.Keys.{edge_key, full_words, last_word};

use crate::ring::Ring;
use pls_bits::Bits;
use pls_graph::{Network, Port};
use pls_labels::LabelStore;
use pls_streams::NoMemory;
use std::alloc::Global;

// The first number that has no room for a bit more.
const FULL: u64 = 4_611_686_018_427_387_904;

/// The weight of edge `i`, how many bits the label at its tail has, and then the labels at its tail
/// and its head: two edges have the same words exactly where they agree in these.
pub(crate) fn edge_key(
    alloc: Global,
    ring: &Ring,
    net: &Network,
    labels: &LabelStore,
    i: usize,
) -> Result<Vec<u64>, NoMemory>
    requires read { IsRingOrder net.now ring.now }
    requires each { length labels.now ≡ length net.now }
    requires within { i < length ring.now }
    ensures { IfOk result (λ key. key.items ≡ edge_key net.now labels.now ring.now i) }
{
    let tail = ring.tail(i);
    let head = ring.head(i);
    let tail_label = label_at(labels, tail);
    let mut key = Vec::new(alloc);
    key.push(weight_between(net, tail, head) as u64)?;
    key.push(tail_label.len() as u64)?;
    let word = push_bits(&mut key, 1, &tail_label)?;
    let word = push_bits(&mut key, word, &label_at(labels, head))?;
    key.push(word)?;
    Ok(key)
}

fn label_at(labels: &LabelStore, place: usize) -> Bits<'_>
    requires { place < length labels.now }
    ensures { result ≡ label_at labels.now place }
{
    labels.bits(place)
}

fn weight_between(net: &Network, i: usize, j: usize) -> u32
    requires one { i < length net.now }
    requires other { j < length net.now }
    ensures { result ≡ weight_between net.now i j }
{
    weight_to(net.ports(i), net.node(j).0).unwrap_or(0)
}

fn weight_to(ports: &[Port], nbr: u32) -> Option<u32>
    ensures { result ≡ option_map (λ port. port.weight) (find (λ port. nbr == port.nbr) ports.now) }
{
    ports
        .iter()
        .find(|port| nbr == port.nbr)
        .map(|port| port.weight)
}

// Full words go to `key`; the answer is the last, unfilled word, its bits behind a one.
fn push_bits(key: &mut Vec<u64>, word: u64, bits: &Bits<'_>) -> Result<u64, NoMemory>
    ensures last { IfOk result (λ last. last ≡ last_word word bits.now) }
    ensures words { OnOk result (key.new.items ≡ key.old.items ++ full_words word bits.now) }
{
    let mut last = word;
    for i in 0..bits.len() {
        last = push_bit(key, last, bits.bit(i))?;
    }
    Ok(last)
}

fn push_bit(key: &mut Vec<u64>, word: u64, bit: bool) -> Result<u64, NoMemory>
    ensures last { IfOk result (λ last. (rest : List Bool)
        → last_word last rest ≡ last_word word (bit ∷ rest)) }
    ensures words { IfOk result (λ last. (rest : List Bool)
        → key.new.items ++ full_words last rest ≡ key.old.items ++ full_words word (bit ∷ rest)) }
{
    if word < FULL {
        return Ok(2 * word + bit as u64);
    }
    key.push(word)?;
    Ok(2 + bit as u64)
}
