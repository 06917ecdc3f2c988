//! A label that stands elsewhere.

ghost use Rattle.std.specs.Prelude.{◌≡◌, IfOk};

use pls_bits::BitBuf;
use pls_streams::NoMemory;
use std::alloc::Global;
use std::marker::Model;

/// A label in a place of its own, so that a line of a watch is small, of which most give no label.
/// Seen as its bits.
#[derive(Drop)]
pub struct BoxedLabel {
    label: Box<BitBuf>,
}

impl Model for BoxedLabel {
    ghost use Rattle.std.specs.Prelude.{Bool, List};

    ghost Value = { List Bool };

    ghost view = { λ boxed. boxed.label.value };
}

impl BoxedLabel {
    /// These bits. The one error is want of memory.
    pub fn new(alloc: Global, bits: BitBuf) -> Result<BoxedLabel, NoMemory>
        ensures { IfOk result (λ boxed. boxed ≡ bits) }
    {
        let label = Box::new(alloc, bits)?;
        Ok(BoxedLabel { label })
    }

    /// The bits.
    pub fn bits(&self) -> &BitBuf
        ensures { result.now ≡ self.now }
    {
        &*self.label
    }
}
