//! What has become of the nodes.

ghost use Rattle.std.specs.Prelude.{◌≡◌, ◌≢◌, ◌<◌, ◌+◌, [], length, slice_get, IfOk, IfSome, OnErr, OnOk, Some};
ghost use Rattle.pls_configuration.specs.declared.row.NodeRow.{NodeRow};
ghost use Rattle.pls_configuration.specs.declared.row.Port.{Port};
ghost use Rattle.pls_labels.specs.Seen.{seen};
ghost use Rattle.pls_scheme.specs.Judging.{RoseByAtMost};
ghost use Rattle.pls_configuration.specs.Rising.{IsRising};
ghost use Rattle.pls_sim.specs.Schedule.{unheard};
ghost use Rattle.pls_watch.specs.Labelled.{turns_of};
ghost use Rattle.pls_watch.specs.Versions.{known, newest, plain_of};
ghost use Rattle.pls_watch.specs.Watching.{look_of, outcome_in, stale_in, version_of_label};
ghost use Rattle.pls_watch.specs.inner.Known.{AreKnown, IsKnown, IsPortState, IsTable};
ghost use Rattle.pls_watch.specs.inner.Current.{look_row};

use crate::known_labels::KnownLabels;
use crate::port_state::PortState;
use crate::versions::noughts;
use crate::watch::Watch;
use pls_configuration::Verdict;
use pls_labels::View;
use pls_report::LookRow;
use pls_scheme::Checker;
use pls_sim::{Outcome, PortBuffer, PortNumbers};
use pls_streams::{NoMemory, Steps};
use std::alloc::Global;

impl<'n> Watch<'n> {
    /// What has become of the node at place `i`: it waits where it has not heard at some port since
    /// its last restart, and else it has decided as the checker judges its view, with its own
    /// newest label and the versions that it holds of its neighbours' labels.
    ///
    /// It takes a table of as many numbers as there are nodes: for all nodes ask
    /// [`Watch::outcomes`]. The one error is want of memory.
    pub fn outcome<K: Checker>(
        &self,
        alloc: Global,
        i: usize,
        checker: &K,
        steps: &mut Steps,
    ) -> Result<Outcome, NoMemory>
        requires { i < length self.now.network }
        ensures outcome { IfOk result (λ outcome. (row : NodeRow)
            → slice_get self.now.network i ≡ Some row
            → outcome ≡ outcome_in (K.judge checker.now) self.now row) }
        ensures few_steps { RoseByAtMost 1 steps.old steps.new }
    {
        let mut table = noughts(alloc, self.net.len())?;
        let row = self.look_at(alloc, i, &mut table, checker, steps)?;
        Ok(row.into_outcome())
    }

    /// The rows of a look: what has become of each node, with its identity, and the numbers of its
    /// stale ports, in the order of the nodes. It is linear in the ports and in the bits that the
    /// checker reads: for several looks take a [`crate::Lookout`]. The one error is want of memory.
    pub fn outcomes<K: Checker>(
        &self,
        alloc: Global,
        checker: &K,
        steps: &mut Steps,
    ) -> Result<Vec<LookRow>, NoMemory>
        ensures look { IfOk result
            (λ rows. rows.items ≡ look_of (K.judge checker.now) self.now) }
        ensures few_steps { RoseByAtMost (length self.now.network) steps.old steps.new }
    {
        let mut table = noughts(alloc, self.net.len())?;
        let mut rows = Vec::with_capacity(alloc, self.net.len())?;
        for i in 0..self.net.len() {
            rows.push(self.look_at(alloc, i, &mut table, checker, steps)?)?;
        }
        Ok(rows)
    }

    /// The numbers of the ports of the node at place `i` whose held version is not the neighbour's
    /// newest. The one error is want of memory, which does not come where there is no such port.
    pub fn stale(&self, alloc: Global, i: usize) -> Result<PortNumbers, NoMemory>
        requires { i < length self.now.network }
        ensures ports { IfOk result (λ numbers. (row : NodeRow)
            → slice_get self.now.network i ≡ Some row → numbers ≡ stale_in self.now row) }
        ensures no_memory { OnErr result ((row : NodeRow)
            → slice_get self.now.network i ≡ Some row → stale_in self.now row ≢ []) }
    {
        let numbers = self.versions.stale(alloc, i)?;
        Ok(PortNumbers::from_vec(numbers))
    }

    /// Writes these numbers into a list, in the place of what it has. The one error is want of
    /// memory.
    pub(crate) fn list_stale(&self, i: usize, numbers: &mut Vec<u32>) -> Result<(), NoMemory>
        requires { i < length self.now.network }
        ensures ports { OnOk result ((row : NodeRow) → slice_get self.now.network i ≡ Some row
            → numbers.new.items ≡ stale_in self.now row) }
        ensures rising { OnOk result (IsRising numbers.new.items) }
    {
        self.versions.list_stale(i, numbers)?;
        Ok(())
    }

    /// What is shown of the node at place `i`. What the node knows is written into a table.
    pub(crate) fn look_at<K: Checker>(
        &self,
        alloc: Global,
        i: usize,
        table: &mut Vec<u32>,
        checker: &K,
        steps: &mut Steps,
    ) -> Result<LookRow, NoMemory>
        requires place { i < length self.now.network }
        requires table { IsTable self.now table.old.items }
        ensures table { IsTable self.now table.new.items }
        ensures shows { IfOk result (λ shown. (row : NodeRow)
            → slice_get self.now.network i ≡ Some row
            → shown ≡ look_row (K.judge checker.now) self.now row) }
        ensures few_steps { RoseByAtMost 1 steps.old steps.new }
    {
        let (unheard, stale) = self.know(alloc, i, table)?;
        let outcome = self.outcome_by(alloc, i, unheard, table.as_slice(), checker, steps)?;
        Ok(LookRow::new(self.net.node(i).0, outcome, stale))
    }

    // The node has not heard at the ports `silent`.
    fn outcome_by<K: Checker>(
        &self,
        alloc: Global,
        i: usize,
        silent: PortNumbers,
        table: &[u32],
        checker: &K,
        steps: &mut Steps,
    ) -> Result<Outcome, NoMemory>
        requires place { i < length self.now.network }
        requires silent { (row : NodeRow) → slice_get self.now.network i ≡ Some row
            → silent ≡ unheard self.now.network (plain_of (turns_of self.now.events)) row }
        requires table { IsTable self.now table.now }
        requires known { (row : NodeRow) → slice_get self.now.network i ≡ Some row
            → IsKnown self.now i row table.now }
        ensures outcome { IfOk result (λ outcome. (row : NodeRow)
            → slice_get self.now.network i ≡ Some row
            → outcome ≡ outcome_in (K.judge checker.now) self.now row) }
        ensures few_steps { RoseByAtMost 1 steps.old steps.new }
    {
        if !silent.as_slice().is_empty() {
            return Ok(Outcome::Waiting(silent));
        }
        let verdict = self.verdict(alloc, i, table, checker, steps)?;
        Ok(Outcome::Decided(verdict))
    }

    // Writes the numbers of the node's newest label and of those it holds into `table`, at their
    // nodes' places. Returns the unheard and the stale ports.
    fn know(
        &self,
        alloc: Global,
        i: usize,
        table: &mut Vec<u32>,
    ) -> Result<(PortNumbers, PortNumbers), NoMemory>
        requires place { i < length self.now.network }
        requires table { IsTable self.now table.old.items }
        ensures table { IsTable self.now table.new.items }
        ensures known { OnOk result ((row : NodeRow) → slice_get self.now.network i ≡ Some row
            → IsKnown self.now i row table.new.items) }
        ensures unheard { IfOk result (λ ports. (row : NodeRow)
            → slice_get self.now.network i ≡ Some row
            → ports.0 ≡ unheard self.now.network (plain_of (turns_of self.now.events)) row) }
        ensures stale { IfOk result (λ ports. (row : NodeRow)
            → slice_get self.now.network i ≡ Some row → ports.1 ≡ stale_in self.now row) }
    {
        let mut unheard = PortBuffer::new(alloc);
        let mut stale = PortBuffer::new(alloc);
        for port in 0..self.net.ports(i).len() {
            match self.know_port(i, port, table) {
                PortState::Unheard => unheard.push(port as u32)?,
                PortState::Stale => stale.push(port as u32)?,
                PortState::Fresh => {}
            }
        }
        table[i] = self.versions.newest(i).label;
        Ok((
            PortNumbers::from_buffer(unheard),
            PortNumbers::from_buffer(stale),
        ))
    }

    // Writes the label number, if one is held at the port, into `table` at the neighbour's place.
    fn know_port(&self, i: usize, port: usize, table: &mut Vec<u32>) -> PortState
        requires place { i < length self.now.network }
        requires port { IfSome (slice_get self.now.network i) (λ row. port < length row.ports) }
        requires table { IsTable self.now table.old.items }
        requires known { (row : NodeRow) → slice_get self.now.network i ≡ Some row
            → AreKnown self.now.network (turns_of self.now.events) i row port table.old.items }
        ensures table { IsTable self.now table.new.items }
        ensures known { (row : NodeRow) → slice_get self.now.network i ≡ Some row
            → AreKnown self.now.network (turns_of self.now.events) i row (port + 1)
            table.new.items }
        ensures state { (row : NodeRow) (at : Port) → slice_get self.now.network i ≡ Some row
            → slice_get row.ports port ≡ Some at
            → IsPortState self.now.network (turns_of self.now.events) row.id at.nbr result }
    {
        let Some(held) = self.versions.held_version(i, port) else {
            return PortState::Unheard;
        };
        table[self.net.places(i)[port] as usize] = held.label;
        PortState::of(held.version, self.versions.newest_beside(i, port))
    }

    // Only for a node that has heard at all ports.
    fn verdict<K: Checker>(
        &self,
        alloc: Global,
        i: usize,
        table: &[u32],
        checker: &K,
        steps: &mut Steps,
    ) -> Result<Verdict, NoMemory>
        requires place { i < length self.now.network }
        requires table { IsTable self.now table.now }
        requires known { (row : NodeRow) → slice_get self.now.network i ≡ Some row
            → IsKnown self.now i row table.now }
        ensures verdict { IfOk result (λ verdict. (row : NodeRow)
            → slice_get self.now.network i ≡ Some row
            → unheard self.now.network (plain_of (turns_of self.now.events)) row ≡ []
            → verdict ≡ K.judge checker.now (seen (λ other. version_of_label self.now other
            (known self.now.network (turns_of self.now.events) row.id other)) row)) }
        ensures few_steps { RoseByAtMost 1 steps.old steps.new }
    {
        let labels = KnownLabels::of(&self.labels, table);
        let view = View::of(alloc, self.net, &labels, i)?;
        checker.verify(alloc, &view, steps)
    }

    /// Where no port of the node at place `i` is unheard or stale, its outcome is the judgement
    /// with the newest labels of all nodes.
    pub fn fresh_is_round<K: Checker>(&self, i: usize, checker: &K)
        requires { i < length self.now.network }
        ensures { (row : NodeRow) → slice_get self.now.network i ≡ Some row
            → unheard self.now.network (plain_of (turns_of self.now.events)) row ≡ []
            → stale_in self.now row ≡ []
            → outcome_in (K.judge checker.now) self.now row
            ≡ Outcome.Decided (K.judge checker.now (seen (λ other. version_of_label self.now other
            (newest (turns_of self.now.events) other)) row)) }
    {}
}
