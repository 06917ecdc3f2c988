//! The view that shows a part of each label.

ghost use Rattle.std.specs.Prelude.{◌≡◌, ◌≤◌, All, length, map, IsOk, IfOk};
ghost use Rattle.pls_labels.specs.Seen.{EachFits, narrow_by, shown};

use crate::narrow::Narrow;
use crate::view::{PortView, View};
use pls_streams::NoMemory;
use smallvec::SmallVec;
use std::alloc::Global;

impl<'a> View<'a> {
    /// The same view with each label replaced by its part, lent from the same store. It takes no
    /// memory where there are at most 8 ports.
    pub fn part<N: Narrow>(&self, alloc: Global, narrow: &N) -> Result<View<'a>, NoMemory>
        requires { EachFits N.fits self.now }
        ensures part { IfOk result (λ view. view ≡ narrow_by N.narrowed self.now) }
        ensures small { length self.now.ports ≤ 8 → IsOk result }
    {
        let ports = narrowed_ports(alloc, narrow, &self.ports)?;
        Ok(View {
            id: self.id,
            state: self.state,
            own: narrow.narrow(self.own.again()),
            ports,
        })
    }
}

fn narrowed_ports<'a, N: Narrow>(
    alloc: Global,
    narrow: &N,
    ports: &[PortView<'a>],
) -> Result<SmallVec<PortView<'a>, 8>, NoMemory>
    requires { All (λ port. N.fits port.label) ports.now }
    ensures shows { IfOk result
        (λ found. map (λ port. shown port.weight port.label) found.items
        ≡ map (λ port. shown port.weight (N.narrowed port.label)) ports.now) }
    ensures count { IfOk result (λ found. length found.items ≡ length ports.now) }
    ensures small { length ports.now ≤ 8 → IsOk result }
{
    let mut narrowed = SmallVec::new(alloc);
    for port in ports {
        let label = narrow.narrow(port.label.again());
        narrowed.push(PortView {
            weight: port.weight,
            label,
        })?;
    }
    Ok(narrowed)
}
