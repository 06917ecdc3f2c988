//! The versions that nodes have and hold of labels.

ghost use Rattle.std.specs.Prelude.{◌≡◌, ◌≢◌, ◌<◌, ◌≤◌, ℕ, [], cond, false, true, length, max, option_map, replicate, slice_get, IfErr, IfOk, IfSome, OnErr, OnOk, None, Some};
ghost use Rattle.std.specs.List.{AllByRecursion};
ghost use Rattle.pls_configuration.specs.declared.limits.TheConstants.{MAX_LINES};
ghost use Rattle.pls_configuration.specs.declared.row.NodeRow.{NodeRow};
ghost use Rattle.pls_configuration.specs.declared.row.Port.{Port};
ghost use Rattle.pls_sim.specs.Schedule.{emits_of};
ghost use Rattle.pls_sim.specs.inner.Kept.{NamesEmit};
ghost use Rattle.pls_watch.specs.Versions.{held, is_fresh, newest, plain_of, relabels, stale};
ghost use Rattle.pls_watch.specs.Turning.{turn_refusal, turning};
ghost use Rattle.pls_watch.specs.inner.Current.{holds_previous};
ghost use Rattle.pls_watch.specs.inner.Held.{HoldAsBefore};
ghost use Rattle.pls_watch.specs.inner.Numbers.{IsLabel, IsOneOf};

use crate::giving::Giving;
use crate::label_version::LabelVersion;
use crate::turn::Turn;
use crate::version_list::VersionList;
use pls_graph::Network;
use pls_schedule::Event;
use pls_sim::{EventError, Sim};
use pls_streams::NoMemory;
use std::alloc::Global;
use std::marker::Model;

/// The versions that nodes have and hold, seen as the network, how many turns are taken in all, and
/// the list of those that were taken.
#[derive(Drop)]
pub(crate) struct Versions<'n> {
    pub(crate) net: &'n Network,
    pub(crate) sim: Sim<'n>,
    most: usize,
    // For each node its newest version.
    newest: VersionList,
    // For each emit the version that it carries.
    pub(crate) carried: VersionList,
    // For each port, numbered through, the version that is held, where something was heard.
    pub(crate) held: VersionList,
    // The labels that were given: with the events of the round they tell the turns.
    givings: Vec<Giving>,
}

impl<'n> Model for Versions<'n> {
    ghost use Rattle.std.specs.Prelude.{map};
    ghost use Rattle.std.specs.Vec.{vec_capacity};
    ghost use Rattle.pls_watch.specs.Turning.{Turned};
    ghost use Rattle.pls_watch.specs.inner.Held.{AreKept, IsRound, Rooms};
    ghost use Rattle.pls_watch.specs.inner.Numbers.{AreNumbered, NumberRooms};
    ghost use Rattle.pls_watch.specs.inner.Woven.{AreWoven, woven};

    ghost Value = { Turned };

    ghost view = { λ watch. record {
      network = watch.net.now;
      most = watch.most;
      turns = woven watch.sim.events watch.givings.items;
    } };

    ghost invariant = { λ watch. IsRound watch.net.now watch.most
        (woven watch.sim.events watch.givings.items) watch.sim
        × AreKept watch.net.now (woven watch.sim.events watch.givings.items) watch.newest.versions
        watch.carried.versions watch.held.versions
        × Rooms watch.most (woven watch.sim.events watch.givings.items)
        (vec_capacity watch.givings) watch.carried.room
        × AreNumbered watch.net.now (woven watch.sim.events watch.givings.items)
        watch.newest.labels watch.carried.labels watch.held.labels
        (map (λ giving. giving.earlier) watch.givings.items)
        × NumberRooms watch.most (vec_capacity watch.givings)
        × AreWoven watch.sim.events watch.givings.items };
}

impl<'n> Versions<'n> {
    /// No turn was taken, and nothing has been heard. The one error is want of memory.
    pub(crate) fn start(
        alloc: Global,
        net: &'n Network,
        most: usize,
    ) -> Result<Versions<'n>, NoMemory>
        requires few { most ≤ MAX_LINES }
        ensures network { IfOk result (λ watch. watch.network ≡ net.now) }
        ensures most { IfOk result (λ watch. watch.most ≡ most) }
        ensures none { IfOk result (λ watch. watch.turns ≡ []) }
    {
        let sim = Sim::start(alloc, net, most)?;
        let held = VersionList::noughts(alloc, sim.ports())?;
        Ok(Versions {
            net,
            sim,
            most,
            newest: VersionList::first(alloc, net.len())?,
            carried: VersionList::with_room(alloc, most)?,
            held,
            givings: Vec::with_capacity(alloc, most)?,
        })
    }

    /// Takes one more turn, in constant time but for the search of an identity, and without memory.
    /// Gives the place of the node that knows something else then, if one does: it holds another
    /// version of a neighbour's label, or has a newer one itself. A turn that does not apply
    /// changes nothing.
    #[inline(always)]
    pub(crate) fn step(&mut self, turn: Turn) -> Result<Option<usize>, EventError>
        ensures taken { OnOk result (self.new ≡ turning turn self.old) }
        ensures holds { IfOk result (HoldAsBefore self.old turn) }
        ensures stays { IfOk result (λ place. (i : ℕ) (row : NodeRow)
            → slice_get self.old.network i ≡ Some row → place ≢ Some i
            → relabels row.id turn ≡ false) }
        ensures within { IfOk result
            (λ place. IfSome place (λ at. at < length self.old.network)) }
        ensures applies { OnOk result (turn_refusal self.old turn ≡ None) }
        ensures refused { IfErr result (λ error. turn_refusal self.old turn ≡ Some error) }
        ensures unchanged { OnErr result (self.new ≡ self.old) }
    {
        if self.sim.len() + self.givings.len() >= self.most {
            return Err(EventError::Full);
        }
        match turn {
            Turn::Plain(Event::Emit { node, port }) => self.emit(node, port),
            Turn::Plain(Event::Arrive(number)) => self.arrive(number),
            Turn::Plain(Event::Restart(node)) => self.restart(node),
            Turn::Relabel(node) => self.relabel(node),
        }
    }

    #[inline(always)]
    fn emit(&mut self, node: u32, port: u32) -> Result<Option<usize>, EventError>
        requires { length self.old.turns < self.old.most }
        ensures taken { OnOk result
            (self.new ≡ turning (Turn.Plain (Event.Emit node port)) self.old) }
        ensures holds { IfOk result (HoldAsBefore self.old (Turn.Plain (Event.Emit node port))) }
        ensures within { IfOk result
            (λ place. IfSome place (λ at. at < length self.old.network)) }
        ensures applies { OnOk result
            (turn_refusal self.old (Turn.Plain (Event.Emit node port)) ≡ None) }
        ensures refused { IfErr result (λ error.
            turn_refusal self.old (Turn.Plain (Event.Emit node port)) ≡ Some error) }
        ensures unchanged { OnErr result (self.new ≡ self.old) }
    {
        let Some(from) = self.sim.place_of(node) else {
            return Err(EventError::NoNode);
        };
        self.sim.emit_at(from, node, port)?;
        self.carried.push_reserved(self.newest.get(from));
        Ok(None)
    }

    // What arrives changes nothing where it is no newer than what is held.
    #[inline(always)]
    fn arrive(&mut self, number: u32) -> Result<Option<usize>, EventError>
        requires { length self.old.turns < self.old.most }
        ensures taken { OnOk result
            (self.new ≡ turning (Turn.Plain (Event.Arrive number)) self.old) }
        ensures holds { IfOk result (HoldAsBefore self.old (Turn.Plain (Event.Arrive number))) }
        ensures within { IfOk result
            (λ place. IfSome place (λ at. at < length self.old.network)) }
        ensures applies { OnOk result
            (turn_refusal self.old (Turn.Plain (Event.Arrive number)) ≡ None) }
        ensures refused { IfErr result (λ error.
            turn_refusal self.old (Turn.Plain (Event.Arrive number)) ≡ Some error) }
        ensures unchanged { OnErr result (self.new ≡ self.old) }
    {
        if number == 0 || number as usize > self.carried.len() {
            return Err(EventError::NoEmit);
        }
        let place = number as usize - 1;
        let target = self.sim.arrives_at(number);
        let (at, to) = (target.port as usize, target.place as usize);
        let heard = self.sim.heard_at(to, at);
        self.sim.step(Event::Arrive(number))?;
        let old = self.held.get(at);
        let came = self.carried.get(place);
        let changed = if heard && came.version <= old.version {
            None
        } else {
            Some(to)
        };
        self.held.set(at, later(heard, old, came));
        Ok(changed)
    }

    // What is held no longer counts, since nothing was heard; no port is walked.
    fn restart(&mut self, node: u32) -> Result<Option<usize>, EventError>
        requires { length self.old.turns < self.old.most }
        ensures taken { OnOk result
            (self.new ≡ turning (Turn.Plain (Event.Restart node)) self.old) }
        ensures holds { IfOk result (HoldAsBefore self.old (Turn.Plain (Event.Restart node))) }
        ensures within { IfOk result
            (λ place. IfSome place (λ at. at < length self.old.network)) }
        ensures applies { OnOk result
            (turn_refusal self.old (Turn.Plain (Event.Restart node)) ≡ None) }
        ensures refused { IfErr result (λ error.
            turn_refusal self.old (Turn.Plain (Event.Restart node)) ≡ Some error) }
        ensures unchanged { OnErr result (self.new ≡ self.old) }
    {
        self.sim.step(Event::Restart(node))?;
        Ok(self.sim.place_of(node))
    }

    fn relabel(&mut self, node: u32) -> Result<Option<usize>, EventError>
        requires { length self.old.turns < self.old.most }
        ensures taken { OnOk result (self.new ≡ turning (Turn.Relabel node) self.old) }
        ensures holds { IfOk result (HoldAsBefore self.old (Turn.Relabel node)) }
        ensures stays { IfOk result (λ place. (i : ℕ) (row : NodeRow)
            → slice_get self.old.network i ≡ Some row → place ≢ Some i
            → relabels row.id (Turn.Relabel node) ≡ false) }
        ensures within { IfOk result
            (λ place. IfSome place (λ at. at < length self.old.network)) }
        ensures applies { OnOk result (turn_refusal self.old (Turn.Relabel node) ≡ None) }
        ensures refused { IfErr result
            (λ error. turn_refusal self.old (Turn.Relabel node) ≡ Some error) }
        ensures unchanged { OnErr result (self.new ≡ self.old) }
    {
        let Some(place) = self.sim.place_of(node) else {
            return Err(EventError::NoNode);
        };
        let number = self.net.len() + self.givings.len();
        let newest = self.newest.get(place);
        let behind = self.sim.len() as u32;
        self.givings.push_reserved(Giving {
            node,
            behind,
            earlier: newest.label,
        });
        self.newest.set(
            place,
            LabelVersion {
                version: newest.version + 1,
                label: number as u32,
            },
        );
        Ok(Some(place))
    }

    /// The newest version of the label of the node at place `i`.
    pub(crate) fn newest(&self, i: usize) -> LabelVersion
        requires { i < length self.now.network }
        ensures version { (row : NodeRow) → slice_get self.now.network i ≡ Some row
            → result.version ≡ newest self.now.turns row.id }
        ensures label { (row : NodeRow) → slice_get self.now.network i ≡ Some row
            → IsLabel self.now.network self.now.turns row.id result.version result.label }
    {
        self.newest.get(i)
    }

    /// The numbers of emits that arrived are those of emits.
    pub(crate) fn names_emits(&self)
        ensures { AllByRecursion (NamesEmit (length (emits_of (plain_of self.now.turns))))
            (plain_of self.now.turns) }
    {
        let _ = self.givings.len();
    }

    /// The version of the neighbour's label that the node at place `i` holds at its port of this
    /// number; `None` where it has not heard there.
    #[inline(always)]
    pub(crate) fn held_version(&self, i: usize, port: usize) -> Option<LabelVersion>
        requires place { i < length self.now.network }
        requires port { IfSome (slice_get self.now.network i) (λ row. port < length row.ports) }
        ensures version { (row : NodeRow) (at : Port) → slice_get self.now.network i ≡ Some row
            → slice_get row.ports port ≡ Some at
            → option_map (λ label. label.version) result
            ≡ held self.now.network self.now.turns row.id at.nbr }
        ensures label { IfSome result (λ label. (row : NodeRow) (at : Port)
            → slice_get self.now.network i ≡ Some row → slice_get row.ports port ≡ Some at
            → IsLabel self.now.network self.now.turns at.nbr label.version label.label) }
    {
        if !self.sim.heard(i, port) {
            return None;
        }
        let number = self.sim.number_of(i, port);
        Some(self.held.get(number))
    }

    /// Whether what the node at place `i` holds at its port of this number is the newest, if it
    /// holds something.
    #[inline(always)]
    pub(crate) fn is_fresh(&self, i: usize, port: usize) -> bool
        requires place { i < length self.now.network }
        requires port { IfSome (slice_get self.now.network i) (λ row. port < length row.ports) }
        ensures { (row : NodeRow) (at : Port) → slice_get self.now.network i ≡ Some row
            → slice_get row.ports port ≡ Some at
            → result ≡ is_fresh self.now.network self.now.turns row.id at.nbr }
    {
        let newest = self.newest_beside(i, port);
        match self.held_version(i, port) {
            Some(held) => held.version == newest,
            None => true,
        }
    }

    /// Whether the neighbour at a port holds the version of this node's label before its newest.
    #[inline(always)]
    pub(crate) fn neighbour_holds_previous(&self, i: usize, port: usize) -> bool
        requires place { i < length self.now.network }
        requires port { IfSome (slice_get self.now.network i) (λ row. port < length row.ports) }
        ensures { (row : NodeRow) (at : Port) → slice_get self.now.network i ≡ Some row
            → slice_get row.ports port ≡ Some at
            → result ≡ holds_previous self.now.network self.now.turns at.nbr row.id }
    {
        match self.held_back(i, port) {
            Some(version) => version + 1 == self.newest.get(i).version,
            None => false,
        }
    }

    // The version of its label that the neighbour at a port of the node at place `i` holds.
    #[inline(always)]
    fn held_back(&self, i: usize, port: usize) -> Option<u32>
        requires place { i < length self.now.network }
        requires port { IfSome (slice_get self.now.network i) (λ row. port < length row.ports) }
        ensures { (row : NodeRow) (at : Port) → slice_get self.now.network i ≡ Some row
            → slice_get row.ports port ≡ Some at
            → result ≡ held self.now.network self.now.turns at.nbr row.id }
    {
        let there = self.net.places(i)[port] as usize;
        let back = self.sim.back(self.sim.number_of(i, port));
        if !self.sim.heard_at(there, back) {
            return None;
        }
        Some(self.held.get(back).version)
    }

    /// The newest version of the label of the neighbour at a port.
    #[inline(always)]
    pub(crate) fn newest_beside(&self, i: usize, port: usize) -> u32
        requires place { i < length self.now.network }
        requires port { IfSome (slice_get self.now.network i) (λ row. port < length row.ports) }
        ensures { (row : NodeRow) (at : Port) → slice_get self.now.network i ≡ Some row
            → slice_get row.ports port ≡ Some at → result ≡ newest self.now.turns at.nbr }
    {
        self.newest.get(self.net.places(i)[port] as usize).version
    }

    /// The numbers of the stale ports of the node at place `i`, in rising order. The one error is
    /// want of memory, which does not come where there is no such port.
    pub(crate) fn stale(&self, alloc: Global, i: usize) -> Result<Vec<u32>, NoMemory>
        requires { i < length self.now.network }
        ensures ports { IfOk result (λ numbers. (row : NodeRow)
            → slice_get self.now.network i ≡ Some row
            → numbers.items ≡ stale self.now.network self.now.turns row) }
        ensures no_memory { OnErr result ((row : NodeRow) → slice_get self.now.network i ≡ Some row
            → stale self.now.network self.now.turns row ≢ []) }
    {
        let mut numbers = Vec::new(alloc);
        self.list_stale(i, &mut numbers)?;
        Ok(numbers)
    }

    /// Writes these numbers into a list, in the place of what it has. The errors are the same.
    pub(crate) fn list_stale(&self, i: usize, numbers: &mut Vec<u32>) -> Result<(), NoMemory>
        requires { i < length self.now.network }
        ensures ports { OnOk result ((row : NodeRow) → slice_get self.now.network i ≡ Some row
            → numbers.new.items ≡ stale self.now.network self.now.turns row) }
        ensures no_memory { OnErr result ((row : NodeRow) → slice_get self.now.network i ≡ Some row
            → stale self.now.network self.now.turns row ≢ []) }
    {
        numbers.clear();
        for port in 0..self.net.ports(i).len() {
            if self.is_fresh(i, port) {
                continue;
            }
            numbers.push(port as u32)?;
        }
        Ok(())
    }

    /// The number of a version of the label of the node at place `i`, in as many steps as there are
    /// later ones.
    pub(crate) fn number_of(&self, i: usize, version: u64) -> u32
        requires place { i < length self.now.network }
        requires version { (row : NodeRow) → slice_get self.now.network i ≡ Some row
            → version ≤ newest self.now.turns row.id }
        ensures { (row : NodeRow) → slice_get self.now.network i ≡ Some row
            → IsLabel self.now.network self.now.turns row.id version result }
    {
        let LabelVersion {
            version: mut at,
            label: mut number,
        } = self.newest(i);
        while at as u64 > version {
            number = self.givings[number as usize - self.net.len()].earlier;
            at -= 1;
        }
        number
    }
}

// `came` wins a tie and where nothing was heard.
fn later(heard: bool, old: LabelVersion, came: LabelVersion) -> LabelVersion
    ensures version { result.version ≡ cond heard (max old.version came.version) came.version }
    ensures label { IsOneOf heard old.version old.label came.version came.label
        result.version result.label }
{
    if heard && old.version > came.version {
        old
    } else {
        came
    }
}

pub(crate) fn noughts(alloc: Global, count: usize) -> Result<Vec<u32>, NoMemory>
    ensures { IfOk result (λ list. list.items ≡ replicate count 0) }
{
    Ok(vec![in alloc; 0; count]?)
}
