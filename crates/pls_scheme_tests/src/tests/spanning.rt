//! Labels of spanning trees of least weight, of small networks.

ghost use Rattle.std.specs.Prelude.{◌≡◌, length};
ghost use Rattle.pls_configuration.specs.Walk.{IsConnected};

use super::{ALONE, HEAVY, RING, TRIANGLE, connected_network};
use pls_bits::{BitBuf, Bits, Gamma, from_hex};
use pls_graph::Network;
use pls_labels::LabelStore;
use pls_mst::Mst;
use pls_scheme::{Scheme, certifies};
use pls_streams::{NoMemory, Steps};
use std::alloc::Global;
use std::test::Fail;

// Number of bits, digits, and a bar.
fn label_text(alloc: Global, bits: Bits<'_>) -> Result<String, NoMemory> {
    let digits = bits.to_hex(alloc)?;
    Ok(format!(in alloc; "{} {}|", bits.len(), digits.as_str())?)
}

fn put_labels(alloc: Global, text: &mut String, labels: &LabelStore) -> Result<(), NoMemory> {
    for i in 0..labels.len() {
        text.push_str(label_text(alloc, labels.bits(i))?.as_str())?;
    }
    Ok(())
}

fn text_of(alloc: Global, labels: &LabelStore) -> Result<String, NoMemory> {
    let mut text = String::new(alloc);
    put_labels(alloc, &mut text, labels)?;
    Ok(text)
}

// The labels as text; fails unless all nodes accept them.
fn accepted_labels(alloc: Global, net: &Network, labels: &LabelStore) -> Result<String, Fail>
    requires connected { IsConnected net.now }
    requires each { length labels.now ≡ length net.now }
{
    let scheme = Mst::<Gamma>::new();
    if certifies(alloc, &scheme, net, labels, &mut Steps::new())? {
        Ok(text_of(alloc, labels)?)
    } else {
        Err(Fail::from("rejected"))
    }
}

// The marked labels as text, or `no`; fails unless all nodes accept them.
fn marked_labels_of(alloc: Global, net: &Network) -> Result<String, Fail>
    requires { IsConnected net.now }
{
    match Mst::<Gamma>::new().mark(alloc, net)? {
        Some(labels) => accepted_labels(alloc, net, &labels),
        None => Ok(format!(in alloc; "no")?),
    }
}

fn marked_labels(alloc: Global, text: &str) -> Result<String, Fail> {
    marked_labels_of(alloc, &connected_network(alloc, text)?)
}

// Networks, and their labels.
const MARKED: &[(&str, &str)] = &[
    (ALONE, "17 318d80|"),
    (TRIANGLE, "29 49521098|31 4d24c426|37 446d104320|"),
    (HEAVY, "no"),
    (
        RING,
        "41 495a49a33200|43 4d26d268cc80|53 446d9110a43320|57 452119510a433200|",
    ),
];

#[test]
fn marked_labels_are_those_of_small_networks(rt: HostRuntime) -> Result<(), Fail> {
    for (text, due) in MARKED {
        assert!(rt;
            marked_labels(rt.alloc(), text)?.as_str() == *due,
            "labels of {text}"
        );
    }
    Ok(())
}

// Whether the bits are a label; fails if it is written otherwise than it was read.
fn is_label(alloc: Global, bits: &BitBuf) -> Result<bool, Fail> {
    let scheme = Mst::<Gamma>::new();
    let Some(label) = scheme.read_label(alloc, bits.bits())? else {
        return Ok(false);
    };
    if scheme.write_label(alloc, &label)?.bits().equal(bits.bits()) {
        Ok(true)
    } else {
        Err(Fail::from("written otherwise"))
    }
}

// As `is_label`, for `len` bits with these digits.
fn are_label(alloc: Global, len: usize, digits: &str) -> Result<bool, Fail> {
    match from_hex(alloc, len, digits.as_bytes()) {
        Ok(bits) => is_label(alloc, &bits),
        Err(_) => Err(Fail::from("other digits")),
    }
}

// Digits of so many bits, and whether they are a label: of one level, with the ends of its edge
// swapped, with one end twice, with a spare bit, with one of two levels, with 2^60 levels and none.
const LABELS: &[(usize, &str, bool)] = &[
    (31, "4d24c426", true),
    (31, "4d24c434", false),
    (31, "4d24c436", false),
    (32, "4d24c427", false),
    (31, "4d26c426", false),
    (137, "318d00000000000000080000000000000080", false),
];

#[test]
fn labels_are_read_and_written_again(rt: HostRuntime) -> Result<(), Fail> {
    for (len, digits, due) in LABELS {
        assert!(rt;
            are_label(rt.alloc(), *len, digits)? == *due,
            "{len} bits {digits}"
        );
    }
    Ok(())
}
