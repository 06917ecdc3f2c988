//! How labels of the universal scheme are read and written.

use crate::map::{MapLabel, RowList};
use crate::reading::read_rows;
use crate::writing::append_rows;
use pls_bits::{BitBuf, Bits, NumCode};
use pls_numbers::{Format, Numbers, append_numbers};
use pls_streams::NoMemory;
use std::alloc::Global;

/// The format: the node's identity, and then the map.
#[derive(Clone, Copy, Debug, PartialEq, Eq)]
pub struct MapFormat;

impl Format for MapFormat {
    ghost use Rattle.pls_universal.specs.Reading.{map_shape};
    ghost use Rattle.pls_universal.specs.laws.MapLaws.{map_numbers};

    type Label = MapLabel;

    ghost shape = { λ _. map_shape };

    fn read<C: NumCode>(
        &self,
        alloc: Global,
        bits: &Bits<'_>,
    ) -> Result<Option<MapLabel>, NoMemory> {
        let mut numbers = Numbers::<C>::of(bits);
        let Some(own) = numbers.next() else {
            return Ok(None);
        };
        let Some(count) = numbers.next() else {
            return Ok(None);
        };
        let Some(rows) = read_rows(alloc, &mut numbers, count)? else {
            return Ok(None);
        };
        if numbers.is_end() {
            Ok(Some(MapLabel {
                own,
                rows: RowList::from_vec(rows),
            }))
        } else {
            Ok(None)
        }
    }

    fn append<C: NumCode>(&self, bits: &mut BitBuf, label: &MapLabel) -> Result<(), NoMemory> {
        let rows = label.rows.as_slice();
        append_numbers::<C>(bits, &[label.own, rows.len() as u64])?;
        append_rows::<C>(bits, rows)
    }

    ghost numbers_law = { λ _. map_numbers };
}
