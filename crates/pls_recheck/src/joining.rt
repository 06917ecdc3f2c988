//! Nodes that join an edited network, and nodes that leave it.

ghost use Rattle.std.specs.Prelude.{◌≡◌, ◌<◌, ◌≤◌, [], insert, length, vec_capacity, None, Some, IfOk, IfErr, OnErr, OnOk};
ghost use Rattle.pls_configuration.specs.declared.limits.TheConstants.{MAX_NUM};
ghost use Rattle.pls_configuration.specs.declared.verdict.Verdict.{Verdict};
ghost use Rattle.pls_graph_edits.specs.Edits.{SaysEdit, joined, join_refusal, leave_refusal, without_node};
ghost use Rattle.pls_configuration.specs.Configuration.{IsNetwork};
ghost use Rattle.pls_graph.specs.Places.{place_in};
ghost use Rattle.pls_labels.specs.Seen.{Seen};
ghost use Rattle.pls_edits.specs.Edited.{place_for};
ghost use Rattle.pls_edits.specs.declared.edit.Edit.TheVariants.{Join, Leave};
ghost use Rattle.pls_recheck.specs.After.{snapshot_after};
ghost use Rattle.pls_recheck.specs.Snapshot.{IsCurrent};

use crate::edited_network::EditedNetwork;
use pls_configuration::Verdict;
use pls_edits::EditError;
use pls_graph::Network;
use pls_graph_edits::{join, leave};
use pls_labels::LabelStore;

impl EditedNetwork {
    // The node has no ports, no pointer and an empty label; gives its place.
    pub(crate) fn join(&mut self, id: u32, mark: u32, num: u64) -> Result<usize, EditError>
        requires { num ≤ MAX_NUM }
        ensures ok { OnOk result (self.new ≡ snapshot_after (Join id mark num) self.old) }
        ensures place { IfOk result (λ place. place ≡ place_for self.old.network id) }
        ensures within { IfOk result (λ place. place ≤ length self.old.labels) }
        ensures allowed { OnOk result (join_refusal self.old.network id ≡ None) }
        ensures refused { IfErr result
            (λ error. SaysEdit (join_refusal self.old.network id) error) }
        ensures unchanged { OnErr result (self.new ≡ self.old) }
        ensures current { OnOk result ((judge : Seen → Verdict)
            → IsCurrent judge self.old → IsCurrent judge self.new) }
    {
        self.flags.reserve(1)?;
        self.around.reserve(1)?;
        self.kept.reserve(1)?;
        let i = join_with_label(&mut self.net, &mut self.labels, id, mark, num)?;
        insert_reserved(&mut self.flags, i, true);
        insert_reserved(&mut self.around, i, false);
        // A placeholder, as the node is not judged yet.
        insert_reserved(&mut self.kept, i, (0, Verdict::Accept));
        Ok(i)
    }

    // Refused where the node has ports; gives the place where it stood.
    pub(crate) fn leave(&mut self, id: u32) -> Result<usize, EditError>
        ensures ok { OnOk result (self.new ≡ snapshot_after (Leave id) self.old) }
        ensures place { IfOk result (λ place. place ≡ place_in self.old.network id) }
        ensures within { IfOk result (λ place. place < length self.old.labels) }
        ensures allowed { OnOk result (leave_refusal self.old.network id ≡ None) }
        ensures refused { IfErr result
            (λ error. leave_refusal self.old.network id ≡ Some error) }
        ensures unchanged { OnErr result (self.new ≡ self.old) }
        ensures current { OnOk result ((judge : Seen → Verdict)
            → IsCurrent judge self.old → IsCurrent judge self.new) }
    {
        let Some(i) = self.net.place_of(id) else {
            return Err(EditError::Absent);
        };
        leave(&mut self.net, id)?;
        self.labels.remove(i);
        self.flags.remove(i);
        self.around.remove(i);
        self.kept.remove(i);
        Ok(i)
    }
}

// Puts in both the node and its empty label, or neither; gives its place.
fn join_with_label(
    net: &mut Network,
    labels: &mut LabelStore,
    id: u32,
    mark: u32,
    num: u64,
) -> Result<usize, EditError>
    requires num { num ≤ MAX_NUM }
    requires a_label { length labels.old ≡ length net.old }
    ensures network { OnOk result (net.new ≡ joined net.old id mark num) }
    ensures labels { IfOk result (λ place. labels.new ≡ insert labels.old place []) }
    ensures place { IfOk result (λ place. place ≡ place_for net.old id) }
    ensures was_valid { IsNetwork net.old }
    ensures valid { IsNetwork net.new }
    ensures allowed { OnOk result (join_refusal net.old id ≡ None) }
    ensures refused { IfErr result (λ error. SaysEdit (join_refusal net.old id) error) }
    ensures unchanged { OnErr result (net.new ≡ net.old) }
    ensures as_labelled { OnErr result (labels.new ≡ labels.old) }
{
    join(net, id, mark, num)?;
    let i = net.place_of(id).unwrap();
    if labels.insert(i).is_err() {
        take_back(net, id);
        return Err(EditError::NoMemory);
    }
    Ok(i)
}

// Undoes a join just made, which cannot fail.
fn take_back(net: &mut Network, id: u32)
    requires { leave_refusal net.old id ≡ None }
    ensures { net.new ≡ without_node net.old id }
{
    let gone = leave(net, id);
    prove!(gone.is_ok());
}

pub(crate) fn insert_reserved<T: Drop>(items: &mut Vec<T>, i: usize, item: T)
    requires within { i ≤ length items.old.items }
    requires room { length items.old.items < vec_capacity items.old }
    ensures { items.new.items ≡ insert items.old.items i item }
{
    let put = items.insert(i, item);
    prove!(put.is_ok());
}
