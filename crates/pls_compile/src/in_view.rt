//! A node as its view shows it.

ghost use Rattle.std.specs.Prelude.{◌≤◌, ◌<◌, ◌^◌, All, length};
ghost use Rattle.pls_configuration.specs.declared.limits.TheConstants.{MAX_DEGREE};

use crate::fields::field_in;
use crate::sees::Sees;
use pls_configuration::State;
use pls_labels::{PortView, View};
use pls_numbers::FieldKind;

// A node as its view shows it. A label is read where an instruction asks for a field of it.
#[derive(Drop)]
pub(crate) struct NodeInView<'a, 'b> {
    pub(crate) kinds: &'a [FieldKind],
    pub(crate) view: &'a View<'b>,
    ghost few: { length kinds.now ≤ 8 },
}

impl<'a, 'b> Sees for NodeInView<'a, 'b> {
    ghost use Rattle.pls_compile.specs.ReadLabels.{sight_of};

    ghost sight = { λ node. sight_of node.kinds.now node.view.now };

    #[inline(always)]
    fn id(&self) -> u32 {
        let view: &View<'b> = self.view;
        view.id
    }

    #[inline(always)]
    fn state(&self) -> State {
        let view: &View<'b> = self.view;
        view.degree();
        view.state
    }

    #[inline(always)]
    fn degree(&self) -> u32 {
        self.view.degree() as u32
    }

    #[inline(always)]
    fn own(&self, field: u8) -> u64 {
        let view: &View<'b> = self.view;
        field_in(self.kinds, &view.own, field)
    }

    #[inline(always)]
    fn beside(&self, port: u32, field: u8) -> u64 {
        let view: &View<'b> = self.view;
        let ports = view.ports.as_slice();
        field_in(self.kinds, &ports[port as usize].label, field)
    }

    #[inline(always)]
    fn weight(&self, port: u32) -> u32 {
        let view: &View<'b> = self.view;
        let ports = view.ports.as_slice();
        ports[port as usize].weight
    }
}

#[inline(always)]
pub(crate) fn view_fits(view: &View<'_>)
    ensures id { view.now.id < 2 ^ 64 }
    ensures mark { view.now.state.mark < 2 ^ 64 }
    ensures num { view.now.state.num < 2 ^ 64 }
    ensures few { length view.now.ports ≤ MAX_DEGREE }
    ensures weights { All (λ port. port.weight < 2 ^ 64) view.now.ports }
{
    let _id = view.id;
    let _mark = view.state.mark;
    let _num = view.state.num;
    view.degree();
    weights_fit(view.ports.as_slice());
}

#[inline(always)]
fn weights_fit(ports: &[PortView<'_>])
    ensures { All (λ port. port.weight < 2 ^ 64) ports.now }
{
    for p in 0..ports.len() {
        fits_64_bits(ports[p].weight);
    }
}

// A number of 32 bits is one of 64.
#[inline(always)]
pub(crate) fn fits_64_bits(number: u32)
    ensures { number < 2 ^ 64 }
{
    let _number = number;
}
