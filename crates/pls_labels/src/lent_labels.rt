//! Labels that are lent.

ghost use Rattle.std.specs.Prelude.{◌≡◌, ◌++◌, ◌∷◌, [], IfOk, OnErr, OnOk};

use crate::labels::Labels;
use pls_bits::Bits;
use pls_streams::NoMemory;
use std::alloc::Global;
use std::marker::Model;

/// One label for each node, in the order of the nodes, each lent from where it lies, seen as the
/// list of them. So the parts of labels are labels themselves, and none is copied.
#[derive(Drop)]
pub struct LentLabels<'a> {
    labels: Vec<Bits<'a>>,
}

impl<'a> Model for LentLabels<'a> {
    ghost use Rattle.std.specs.Prelude.{Bool, List};

    ghost Value = { List (List Bool) };

    ghost view = { λ lent. lent.labels.items };
}

impl<'a> LentLabels<'a> {
    /// No label, with room for so many. The one error is want of memory.
    pub fn with_capacity(alloc: Global, nodes: usize) -> Result<Self, NoMemory>
        ensures { IfOk result (λ lent. lent ≡ []) }
    {
        Ok(LentLabels {
            labels: Vec::with_capacity(alloc, nodes)?,
        })
    }

    /// Puts a label behind the others. The one error is want of memory; the labels are then as they
    /// were.
    pub fn push(&mut self, label: Bits<'a>) -> Result<(), NoMemory>
        ensures pushed { OnOk result (self.new ≡ self.old ++ label.entry ∷ []) }
        ensures unchanged { OnErr result (self.new ≡ self.old) }
    {
        self.labels.push(label)?;
        Ok(())
    }
}

impl<'a> Labels for LentLabels<'a> {
    ghost listed = { λ labels. labels };

    #[inline(always)]
    fn len(&self) -> usize {
        self.labels.len()
    }

    #[inline(always)]
    fn bits(&self, i: usize) -> Bits<'_> {
        self.labels[i].again()
    }
}
