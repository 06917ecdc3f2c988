//! The labels with the map of a network.

ghost use Rattle.std.specs.Prelude.{List, IfOk, OnOk};
ghost use Rattle.pls_numbers.specs.Shape.{IsSpelled};
ghost use Rattle.pls_scheme.specs.Marked.{IsMarkedBy};
ghost use Rattle.pls_universal.specs.declared.map.MapRow.{MapRow};
ghost use Rattle.pls_universal.specs.Reading.{map_label_with, map_shape, rows_shape};
ghost use Rattle.pls_universal.specs.Rules.{map_says};

use crate::writing::write_map;
use pls_bits::{BitBuf, Bits, NumCode};
use pls_graph::Network;
use pls_labels::LabelStore;
use pls_streams::NoMemory;
use std::alloc::Global;

/// The labels of a network, each with its node's identity and the map of the network. The map is
/// written once. The one error is want of memory.
pub fn map_labels<C: NumCode>(alloc: Global, net: &Network) -> Result<LabelStore, NoMemory>
    ensures { IfOk result (λ labels.
        IsMarkedBy (IsSpelled map_shape C.code) (map_says net.now) net.now labels) }
{
    let map = write_map::<C>(alloc, net)?;
    let mut label = BitBuf::new(alloc);
    let bits = (map.len() as u64).saturating_add(64);
    let all = bits.saturating_mul(net.len() as u64);
    let mut labels = LabelStore::blank_for(alloc, net.len(), all)?;
    for i in 0..net.len() {
        put_label::<C>(&mut label, net.node(i).0, map.bits())?;
        labels.replace(i, &label)?;
    }
    Ok(labels)
}

// Replaces the bits by the label.
fn put_label<C: NumCode>(bits: &mut BitBuf, id: u32, map: Bits<'_>) -> Result<(), NoMemory>
    ensures { OnOk result ((rows : List MapRow) → IsSpelled rows_shape C.code map.entry rows
        → IsSpelled map_shape C.code bits.new (map_label_with id rows)) }
{
    bits.clear();
    C::write(bits, u64::from(id))?;
    bits.append(map)?;
    Ok(())
}
