//! Edits of a network and its labels with a checker that remembers what they say.

ghost use Rattle.std.specs.Prelude.{◌≡◌, ◌≤◌, Bool, List, None, Some, IfErr, OnErr, OnOk};
ghost use Rattle.pls_configuration.specs.declared.limits.TheConstants.{MAX_NUM};
ghost use Rattle.pls_configuration.specs.declared.row.NodeRow.{NodeRow};
ghost use Rattle.pls_graph_edits.specs.Edits.{SaysEdit, join_refusal, leave_refusal};
ghost use Rattle.pls_edits.specs.Edited.{FitsNum, RefusesWith, edit_refusal, label_refusal, relabelled};
ghost use Rattle.pls_edits.specs.declared.edit.Edit.TheVariants.{Join, Label, Leave};
ghost use Rattle.pls_recheck.specs.Rechecked.{edited_with};

use crate::joining::insert_reserved;
use crate::monitor::Monitor;
use pls_bits::{BitBuf, Bits};
use pls_edits::{Edit, EditError};
use pls_scheme::Remembers;
use std::alloc::Global;

impl<K: Remembers> Monitor<K> {
    /// Makes an edit, and touches the nodes whose view it may change, as
    /// [`EditedNetwork::apply`](crate::EditedNetwork::apply) does. A label of an edit is read once.
    pub fn apply(&mut self, alloc: Global, edit: &Edit) -> Result<(), EditError>
        requires { FitsNum edit.now }
        ensures ok { OnOk result (self.new ≡ edited_with edit.now self.old) }
        ensures allowed { OnOk result
            (edit_refusal edit.now self.old.network self.old.labels ≡ None) }
        ensures refused { IfErr result (λ error. RefusesWith edit.now
            (edit_refusal edit.now self.old.network self.old.labels) error) }
        ensures unchanged { OnErr result (self.new ≡ self.old) }
    {
        match edit {
            Edit::State { .. } => self.apply_alike(edit),
            Edit::Weight { .. } => self.apply_alike(edit),
            Edit::Link { .. } => self.apply_alike(edit),
            Edit::Unlink { .. } => self.apply_alike(edit),
            Edit::Join { id, mark, num } => self.join(alloc, *id, *mark, *num),
            Edit::Leave { id } => self.leave(*id),
            Edit::Label { id, bits } => self.set_label(alloc, *id, bits),
        }
    }

    // Only for edits that leave the labels as they are.
    fn apply_alike(&mut self, edit: &Edit) -> Result<(), EditError>
        requires fits { FitsNum edit.now }
        requires alike { (rows : List NodeRow) (labels : List (List Bool))
            → relabelled edit.now rows labels ≡ labels }
        ensures ok { OnOk result (self.new ≡ edited_with edit.now self.old) }
        ensures allowed { OnOk result
            (edit_refusal edit.now self.old.network self.old.labels ≡ None) }
        ensures refused { IfErr result (λ error. RefusesWith edit.now
            (edit_refusal edit.now self.old.network self.old.labels) error) }
        ensures unchanged { OnErr result (self.new ≡ self.old) }
    {
        self.core.apply(edit)?;
        Ok(())
    }

    fn join(&mut self, alloc: Global, id: u32, mark: u32, num: u64) -> Result<(), EditError>
        requires { num ≤ MAX_NUM }
        ensures ok { OnOk result (self.new ≡ edited_with (Join id mark num) self.old) }
        ensures allowed { OnOk result (join_refusal self.old.network id ≡ None) }
        ensures refused { IfErr result
            (λ error. SaysEdit (join_refusal self.old.network id) error) }
        ensures unchanged { OnErr result (self.new ≡ self.old) }
    {
        let Ok(memory) = self.checker.remember(alloc, &Bits::default()) else {
            return Err(EditError::NoMemory);
        };
        self.memories.reserve(1)?;
        let i = self.core.join(id, mark, num)?;
        insert_reserved(&mut self.memories, i, memory);
        Ok(())
    }

    // Removes a node, and forgets its label.
    fn leave(&mut self, id: u32) -> Result<(), EditError>
        ensures ok { OnOk result (self.new ≡ edited_with (Leave id) self.old) }
        ensures allowed { OnOk result (leave_refusal self.old.network id ≡ None) }
        ensures refused { IfErr result
            (λ error. leave_refusal self.old.network id ≡ Some error) }
        ensures unchanged { OnErr result (self.new ≡ self.old) }
    {
        let i = self.core.leave(id)?;
        self.memories.remove(i);
        Ok(())
    }

    // Sets the label of a node, and remembers it.
    fn set_label(&mut self, alloc: Global, id: u32, bits: &BitBuf) -> Result<(), EditError>
        ensures ok { OnOk result (self.new ≡ edited_with (Label id bits.now) self.old) }
        ensures allowed { OnOk result
            (label_refusal self.old.network self.old.labels id bits.now ≡ None) }
        ensures refused { IfErr result
            (λ error. SaysEdit (label_refusal self.old.network self.old.labels id bits.now) error) }
        ensures unchanged { OnErr result (self.new ≡ self.old) }
    {
        let Ok(memory) = self.checker.remember(alloc, &bits.bits()) else {
            return Err(EditError::NoMemory);
        };
        let i = self.core.set_label(id, bits)?;
        self.memories[i] = memory;
        Ok(())
    }
}
