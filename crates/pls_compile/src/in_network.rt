//! A node as its network shows it.

ghost use Rattle.std.specs.Prelude.{◌≡◌, ◌<◌, ◌^◌, All, length};
ghost use Rattle.pls_labels.specs.Seen.{IsProper};

use crate::field_table::{FieldTable, number_of};
use crate::in_view::fits_64_bits;
use crate::sees::Sees;
use pls_configuration::{Port, State};

// A node as its network shows it, where what all labels say stands in a table. Beside each port
// stands the place of the neighbour.
#[derive(Drop)]
pub(crate) struct NodeInNetwork<'a> {
    pub(crate) id: u32,
    pub(crate) state: State,
    pub(crate) own: &'a [u64],
    pub(crate) ports: &'a [Port],
    pub(crate) places: &'a [u32],
    pub(crate) table: &'a FieldTable,
    ghost proper: { IsProper state.up (length ports.now) },
    ghost beside: { length places.now ≡ length ports.now },
    ghost within: { All (λ place. place < length table.now) places.now },
}

impl<'a> Sees for NodeInNetwork<'a> {
    ghost use Rattle.pls_compile.specs.FieldTable.{sight_in};

    ghost sight = { λ node. sight_in node.table.now node.id node.state node.own.now node.ports.now
        node.places.now };

    #[inline(always)]
    fn id(&self) -> u32 {
        self.id
    }

    #[inline(always)]
    fn state(&self) -> State {
        self.state
    }

    #[inline(always)]
    fn degree(&self) -> u32 {
        self.ports.len() as u32
    }

    #[inline(always)]
    fn own(&self, field: u8) -> u64 {
        number_of(self.own, field)
    }

    #[inline(always)]
    fn beside(&self, port: u32, field: u8) -> u64 {
        let table: &FieldTable = self.table;
        let place = self.places[port as usize];
        match table.label(place as usize) {
            Some(label) => number_of(label, field),
            None => 0,
        }
    }

    #[inline(always)]
    fn weight(&self, port: u32) -> u32 {
        self.ports[port as usize].weight
    }
}

#[inline(always)]
pub(crate) fn node_fits(id: u32, state: &State, ports: &[Port])
    ensures id { id < 2 ^ 64 }
    ensures mark { state.now.mark < 2 ^ 64 }
    ensures num { state.now.num < 2 ^ 64 }
    ensures weights { All (λ port. port.weight < 2 ^ 64) ports.now }
{
    fits_64_bits(id);
    let _mark = state.mark;
    let _num = state.num;
    weights_fit(ports);
}

#[inline(always)]
fn weights_fit(ports: &[Port])
    ensures { All (λ port. port.weight < 2 ^ 64) ports.now }
{
    for p in 0..ports.len() {
        fits_64_bits(ports[p].weight);
    }
}
