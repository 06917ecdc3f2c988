//! Edits of an edited network: of states, weights and edges.

ghost use Rattle.std.specs.Prelude.{◌≡◌, ◌≤◌, ◌==◌, ◌||◌, length, None, OnErr, OnOk, IfErr, Some};
ghost use Rattle.pls_configuration.specs.declared.limits.TheConstants.{MAX_NUM};
ghost use Rattle.pls_configuration.specs.declared.verdict.Verdict.{Verdict};
ghost use Rattle.pls_configuration.specs.Configuration.{IsNetwork};
ghost use Rattle.pls_graph_edits.specs.Edits.{SaysEdit, link_refusal, state_refusal, edge_refusal};
ghost use Rattle.pls_labels.specs.Seen.{Seen};
ghost use Rattle.pls_edits.specs.Edited.{FitsNum, RefusesWith, edit_refusal};
ghost use Rattle.pls_edits.specs.declared.edit.Edit.{Edit};
ghost use Rattle.pls_edits.specs.declared.edit.Edit.TheVariants.{State as StateEdit, Weight, Link, Unlink};
ghost use Rattle.pls_recheck.specs.After.{snapshot_after};
ghost use Rattle.pls_recheck.specs.Snapshot.{IsCurrent};
ghost use Rattle.pls_recheck.specs.inner.Flags.{ClearsSome, MarksMore};

use crate::edited_network::EditedNetwork;
use pls_configuration::State;
use pls_edits::{Edit, EditError};
use pls_graph::Network;
use pls_graph_edits::{link, set_state, set_weight, unlink};

impl EditedNetwork {
    /// Makes an edit, and touches the nodes whose view it may change. An edit that is refused
    /// changes and touches nothing; its error is the network's. Only a link, a join and a label may
    /// find no memory. It costs what the network's edit costs; a label goes over its node's
    /// neighbours only where they need not all be touched already.
    pub fn apply(&mut self, edit: &Edit) -> Result<(), EditError>
        requires { FitsNum edit.now }
        ensures ok { OnOk result (self.new ≡ snapshot_after edit.now self.old) }
        ensures allowed { OnOk result
            (edit_refusal edit.now self.old.network self.old.labels ≡ None) }
        ensures refused { IfErr result (λ error. RefusesWith edit.now
            (edit_refusal edit.now self.old.network self.old.labels) error) }
        ensures unchanged { OnErr result (self.new ≡ self.old) }
        ensures current { OnOk result ((judge : Seen → Verdict)
            → IsCurrent judge self.old → IsCurrent judge self.new) }
    {
        match edit {
            Edit::State { id, state } => self.set_state(*id, *state),
            Edit::Weight { a, b, weight } => self.set_weight(*a, *b, *weight),
            Edit::Link { a, b, weight } => self.link(*a, *b, *weight),
            Edit::Unlink { a, b } => self.unlink(*a, *b),
            Edit::Join { id, mark, num } => {
                self.join(*id, *mark, *num)?;
                Ok(())
            }
            Edit::Leave { id } => {
                self.leave(*id)?;
                Ok(())
            }
            Edit::Label { id, bits } => {
                self.set_label(*id, bits)?;
                Ok(())
            }
        }
    }

    fn set_state(&mut self, id: u32, state: State) -> Result<(), EditError>
        requires { state.num ≤ MAX_NUM }
        ensures ok { OnOk result (self.new ≡ snapshot_after (StateEdit id state) self.old) }
        ensures allowed { OnOk result (state_refusal self.old.network id state ≡ None) }
        ensures refused { IfErr result
            (λ error. state_refusal self.old.network id state ≡ Some error) }
        ensures unchanged { OnErr result (self.new ≡ self.old) }
        ensures current { OnOk result ((judge : Seen → Verdict)
            → IsCurrent judge self.old → IsCurrent judge self.new) }
    {
        set_state(&mut self.net, id, state)?;
        touch(&self.net, id, &mut self.flags);
        Ok(())
    }

    fn set_weight(&mut self, a: u32, b: u32, weight: u32) -> Result<(), EditError>
        ensures ok { OnOk result (self.new ≡ snapshot_after (Weight a b weight) self.old) }
        ensures allowed { OnOk result (edge_refusal self.old.network a b ≡ None) }
        ensures refused { IfErr result
            (λ error. edge_refusal self.old.network a b ≡ Some error) }
        ensures unchanged { OnErr result (self.new ≡ self.old) }
        ensures current { OnOk result ((judge : Seen → Verdict)
            → IsCurrent judge self.old → IsCurrent judge self.new) }
    {
        set_weight(&mut self.net, a, b, weight)?;
        touch_ends(&self.net, a, b, &mut self.flags);
        Ok(())
    }

    fn link(&mut self, a: u32, b: u32, weight: u32) -> Result<(), EditError>
        ensures ok { OnOk result (self.new ≡ snapshot_after (Link a b weight) self.old) }
        ensures allowed { OnOk result (link_refusal self.old.network a b ≡ None) }
        ensures refused { IfErr result
            (λ error. SaysEdit (link_refusal self.old.network a b) error) }
        ensures unchanged { OnErr result (self.new ≡ self.old) }
        ensures current { OnOk result ((judge : Seen → Verdict)
            → IsCurrent judge self.old → IsCurrent judge self.new) }
    {
        link(&mut self.net, a, b, weight)?;
        unsettle_ends(&self.net, a, b, &mut self.flags, &mut self.around);
        Ok(())
    }

    fn unlink(&mut self, a: u32, b: u32) -> Result<(), EditError>
        ensures ok { OnOk result (self.new ≡ snapshot_after (Unlink a b) self.old) }
        ensures allowed { OnOk result (edge_refusal self.old.network a b ≡ None) }
        ensures refused { IfErr result
            (λ error. edge_refusal self.old.network a b ≡ Some error) }
        ensures unchanged { OnErr result (self.new ≡ self.old) }
        ensures current { OnOk result ((judge : Seen → Verdict)
            → IsCurrent judge self.old → IsCurrent judge self.new) }
    {
        unlink(&mut self.net, a, b)?;
        unsettle_ends(&self.net, a, b, &mut self.flags, &mut self.around);
        Ok(())
    }
}

fn touch_ends(net: &Network, a: u32, b: u32, flags: &mut Vec<bool>)
    requires { length flags.old.items ≡ length net.now }
    ensures valid { IsNetwork net.now }
    ensures touched { MarksMore (λ node. (a == node) || (b == node)) net.now flags.old.items
        flags.new.items }
{
    touch(net, a, flags);
    touch(net, b, flags);
}

fn touch(net: &Network, id: u32, flags: &mut Vec<bool>)
    requires { length flags.old.items ≡ length net.now }
    ensures valid { IsNetwork net.now }
    ensures touched { MarksMore (λ node. id == node) net.now flags.old.items flags.new.items }
{
    if let Some(i) = net.place_of(id) {
        flags[i] = true;
    }
}

// As `unsettle`, for both ends of an edge put in or taken away.
fn unsettle_ends(net: &Network, a: u32, b: u32, flags: &mut Vec<bool>, around: &mut Vec<bool>)
    requires a_flag { length flags.old.items ≡ length net.now }
    requires a_note { length around.old.items ≡ length net.now }
    ensures valid { IsNetwork net.now }
    ensures touched { MarksMore (λ node. (a == node) || (b == node)) net.now flags.old.items
        flags.new.items }
    ensures cleared { ClearsSome (λ node. (a == node) || (b == node)) net.now around.old.items
        around.new.items }
{
    unsettle(net, a, flags, around);
    unsettle(net, b, flags, around);
}

// Also clears the note in `around`, as the neighbours changed.
fn unsettle(net: &Network, id: u32, flags: &mut Vec<bool>, around: &mut Vec<bool>)
    requires a_flag { length flags.old.items ≡ length net.now }
    requires a_note { length around.old.items ≡ length net.now }
    ensures valid { IsNetwork net.now }
    ensures touched { MarksMore (λ node. id == node) net.now flags.old.items flags.new.items }
    ensures cleared { ClearsSome (λ node. id == node) net.now around.old.items around.new.items }
{
    if let Some(i) = net.place_of(id) {
        flags[i] = true;
        around[i] = false;
    }
}
