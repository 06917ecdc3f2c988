//! A network whose labels change while messages are under way.

ghost use Rattle.std.specs.Prelude.{◌≡◌, ◌≢◌, ◌<◌, ◌≤◌, ℕ, Bool, List, [], false, length, slice_get, IfErr, IfOk, IfSome, None, OnErr, OnOk, Some};
ghost use Rattle.pls_configuration.specs.declared.limits.TheConstants.{MAX_BITS, MAX_LINES};
ghost use Rattle.pls_configuration.specs.declared.row.NodeRow.{NodeRow};
ghost use Rattle.pls_configuration.specs.declared.row.Port.{Port};
ghost use Rattle.pls_configuration.specs.Configuration.{IsNetwork};
ghost use Rattle.pls_watch_part.specs.WatchText.{watch_event};
ghost use Rattle.pls_watch.specs.Labelled.{turn_of, turns_of};
ghost use Rattle.pls_watch.specs.Turning.{IsNotBack, restarts_in};
ghost use Rattle.pls_watch.specs.Versions.{held, newest};
ghost use Rattle.pls_watch.specs.inner.Current.{KnowsSame, holds_previous};
ghost use Rattle.pls_watch.specs.Watching.{lacks_room, version_of_label, watch_refusal, watching};

use crate::stock::stock_of;
use crate::turn::Turn;
use crate::versions::Versions;
use pls_bits::{BitBuf, Bits};
use pls_facts::is_valid;
use pls_graph::Network;
use pls_labels::{LabelRoom, LabelStore};
use pls_schedule::Event;
use pls_sim::EventError;
use pls_streams::NoMemory;
use pls_watch_part::WatchEvent;
use std::alloc::Global;
use std::marker::Model;

/// A round of messages on a network in which labels change, seen as the network, the labels at the
/// start, how many events, how many relabels and how many bits of theirs it takes in all, and the
/// list of the events that it has taken.
#[derive(Drop)]
pub struct Watch<'n> {
    pub(crate) net: &'n Network,
    pub(crate) versions: Versions<'n>,
    // The first labels of all nodes, in their order, then each label that was given, and then empty
    // ones in the place of those to come.
    pub(crate) labels: LabelRoom,
    most_relabels: usize,
    most_bits: u64,
    // How many labels were given, and their bits.
    relabels: usize,
    relabel_bits: u64,
}

impl<'n> Model for Watch<'n> {
    ghost use Rattle.pls_watch.specs.Watching.{Watched};
    ghost use Rattle.pls_watch.specs.inner.Stock.{IsStocked, watched_by};

    ghost Value = { Watched };

    ghost view = { λ watch. watched_by watch.versions watch.labels
        watch.most_relabels watch.most_bits };

    ghost invariant = { λ watch. IsStocked watch.net.now watch.versions watch.labels
        watch.most_relabels watch.most_bits watch.relabels watch.relabel_bits };
}

impl<'n> Watch<'n> {
    /// A round before its first event, in which each node has one version of its label, and nothing
    /// has been heard. It takes up to `events` events, of them up to `relabels` relabels with up to
    /// `bits` bits together, and the memory for all of them. The one error is want of memory.
    pub fn start(
        alloc: Global,
        net: &'n Network,
        labels: &LabelStore,
        events: usize,
        relabels: usize,
        bits: u64,
    ) -> Result<Watch<'n>, NoMemory>
        requires lengths { length labels.now ≡ length net.now }
        requires events { events ≤ MAX_LINES }
        requires relabels { relabels ≤ MAX_LINES }
        requires bits { bits ≤ MAX_BITS }
        ensures network { IfOk result (λ watch. watch.network ≡ net.now) }
        ensures labels { IfOk result (λ watch. watch.start ≡ labels.now) }
        ensures most { IfOk result (λ watch. watch.most ≡ events) }
        ensures relabels { IfOk result (λ watch. watch.most_relabels ≡ relabels) }
        ensures bits { IfOk result (λ watch. watch.most_bits ≡ bits) }
        ensures none { IfOk result (λ watch. watch.events ≡ []) }
    {
        let versions = Versions::start(alloc, net, events)?;
        is_valid(net);
        let labels = stock_of(alloc, labels, relabels, bits)?;
        Ok(Watch {
            net,
            versions,
            labels,
            most_relabels: relabels,
            most_bits: bits,
            relabels: 0,
            relabel_bits: 0,
        })
    }

    /// The network on which messages are sent.
    pub(crate) fn network(&self) -> &'n Network
        ensures network { result.now ≡ self.now.network }
        ensures valid { IsNetwork self.now.network }
    {
        self.net
    }

    /// Takes one more event, in constant time but for the search of an identity and the bits of a
    /// label, and without memory. An event that does not apply changes nothing.
    ///
    /// `Full` where all events that it takes in all were taken, or all relabels, or where there
    /// would be more bits than it takes in all; else the first of the other causes of
    /// [`EventError`] that occurs.
    pub fn step(&mut self, event: &WatchEvent) -> Result<(), EventError>
        ensures taken { OnOk result (self.new ≡ watching event.now self.old) }
        ensures applies { OnOk result (watch_refusal self.old event.now ≡ None) }
        ensures refused { IfErr result (λ error. watch_refusal self.old event.now ≡ Some error) }
        ensures unchanged { OnErr result (self.new ≡ self.old) }
    {
        self.step_at(event)?;
        Ok(())
    }

    /// Takes one more event as [`Watch::step`] does, and gives the place of the node that knows
    /// something else then, if one does: it holds another version of a neighbour's label, or it has
    /// got one itself.
    #[inline(always)]
    pub(crate) fn step_at(&mut self, event: &WatchEvent) -> Result<Option<usize>, EventError>
        ensures taken { OnOk result (self.new ≡ watching event.now self.old) }
        ensures applies { OnOk result (watch_refusal self.old event.now ≡ None) }
        ensures others { IfOk result (λ place. (i : ℕ) (row : NodeRow)
            → slice_get self.old.network i ≡ Some row → place ≢ Some i
            → KnowsSame self.old event.now row.id) }
        ensures within { IfOk result
            (λ place. IfSome place (λ at. at < length self.old.network)) }
        ensures valid { IsNetwork self.old.network }
        ensures refused { IfErr result (λ error. watch_refusal self.old event.now ≡ Some error) }
        ensures unchanged { OnErr result (self.new ≡ self.old) }
    {
        match event {
            WatchEvent::Emit { node, port } => self.play(Event::Emit {
                node: *node,
                port: *port,
            }),
            WatchEvent::Arrive(number) => self.play(Event::Arrive(*number)),
            WatchEvent::Restart(node) => self.play(Event::Restart(*node)),
            WatchEvent::Relabel { node, bits } => self.relabel(*node, bits.bits()),
        }
    }

    #[inline(always)]
    fn play(&mut self, event: Event) -> Result<Option<usize>, EventError>
        ensures taken { OnOk result (self.new ≡ watching (watch_event event) self.old) }
        ensures applies { OnOk result (watch_refusal self.old (watch_event event) ≡ None) }
        ensures others { IfOk result (λ place. (i : ℕ) (row : NodeRow)
            → slice_get self.old.network i ≡ Some row → place ≢ Some i
            → KnowsSame self.old (watch_event event) row.id) }
        ensures within { IfOk result
            (λ place. IfSome place (λ at. at < length self.old.network)) }
        ensures valid { IsNetwork self.old.network }
        ensures refused { IfErr result
            (λ error. watch_refusal self.old (watch_event event) ≡ Some error) }
        ensures unchanged { OnErr result (self.new ≡ self.old) }
    {
        Ok(self.versions.step(Turn::Plain(event))?)
    }

    // A refused relabel writes no bits.
    fn relabel(&mut self, node: u32, label: &BitBuf) -> Result<Option<usize>, EventError>
        ensures taken { OnOk result
            (self.new ≡ watching (WatchEvent.Relabel node label.now) self.old) }
        ensures applies { OnOk result
            (watch_refusal self.old (WatchEvent.Relabel node label.now) ≡ None) }
        ensures others { IfOk result (λ place. (i : ℕ) (row : NodeRow)
            → slice_get self.old.network i ≡ Some row → place ≢ Some i
            → KnowsSame self.old (WatchEvent.Relabel node label.now) row.id) }
        ensures within { IfOk result
            (λ place. IfSome place (λ at. at < length self.old.network)) }
        ensures valid { IsNetwork self.old.network }
        ensures refused { IfErr result (λ error.
            watch_refusal self.old (WatchEvent.Relabel node label.now) ≡ Some error) }
        ensures unchanged { OnErr result (self.new ≡ self.old) }
    {
        let len = label.len() as u64;
        if self.lacks_room(len) {
            return Err(EventError::Full);
        }
        let place = self.versions.step(Turn::Relabel(node))?;
        let number = self.net.len() + self.relabels;
        self.labels.replace_spare(number, label.bits());
        self.relabels += 1;
        self.relabel_bits += len;
        Ok(place)
    }

    fn lacks_room(&self, len: u64) -> bool
        ensures { (node : ℕ) (label : List Bool) → length label ≡ len
            → result ≡ lacks_room self.now (WatchEvent.Relabel node label) }
    {
        if self.relabels >= self.most_relabels {
            return true;
        }
        len > self.most_bits - self.relabel_bits
    }

    /// The newest version of the label of the node at place `i`; versions are numbered from 0.
    pub fn newest(&self, i: usize) -> u64
        requires { i < length self.now.network }
        ensures { (row : NodeRow) → slice_get self.now.network i ≡ Some row
            → result ≡ newest (turns_of self.now.events) row.id }
    {
        self.versions.newest(i).version as u64
    }

    /// The bits of a version of the label of the node at place `i`, lent. It takes about as many
    /// steps as there are later versions of this label.
    pub fn label_of(&self, i: usize, version: u64) -> Bits<'_>
        requires place { i < length self.now.network }
        requires version { (row : NodeRow) → slice_get self.now.network i ≡ Some row
            → version ≤ newest (turns_of self.now.events) row.id }
        ensures { (row : NodeRow) → slice_get self.now.network i ≡ Some row
            → result ≡ version_of_label self.now row.id version }
    {
        let number = self.versions.number_of(i, version);
        self.labels.bits(number as usize)
    }

    /// The version of the neighbour's label that the node at place `i` holds at its port of this
    /// number: the greatest that arrived there since the node's last restart. `None` where nothing
    /// did.
    pub fn held_version(&self, i: usize, port: usize) -> Option<u64>
        requires place { i < length self.now.network }
        requires port { IfSome (slice_get self.now.network i) (λ row. port < length row.ports) }
        ensures { (row : NodeRow) (at : Port) → slice_get self.now.network i ≡ Some row
            → slice_get row.ports port ≡ Some at
            → result ≡ held self.now.network (turns_of self.now.events) row.id at.nbr }
    {
        match self.versions.held_version(i, port) {
            Some(held) => Some(held.version as u64),
            None => None,
        }
    }

    /// Whether the neighbour at a port holds the version of this node's label before its newest.
    #[inline(always)]
    pub(crate) fn neighbour_holds_previous(&self, i: usize, port: usize) -> bool
        requires place { i < length self.now.network }
        requires port { IfSome (slice_get self.now.network i) (λ row. port < length row.ports) }
        ensures { (row : NodeRow) (at : Port) → slice_get self.now.network i ≡ Some row
            → slice_get row.ports port ≡ Some at → result
            ≡ holds_previous self.now.network (turns_of self.now.events) at.nbr row.id }
    {
        self.versions.neighbour_holds_previous(i, port)
    }

    /// What is held at a port of the node at place `i` never goes back by an event that is no
    /// restart of that node: what was heard is still heard, in no lower version.
    pub fn never_back(&self, event: &WatchEvent, i: usize, port: usize)
        requires place { i < length self.now.network }
        requires port { IfSome (slice_get self.now.network i) (λ row. port < length row.ports) }
        requires applies { watch_refusal self.now event.now ≡ None }
        requires stays { IfSome (slice_get self.now.network i)
            (λ row. restarts_in row.id (turn_of event.now) ≡ false) }
        ensures { (row : NodeRow) (at : Port) → slice_get self.now.network i ≡ Some row
            → slice_get row.ports port ≡ Some at
            → IsNotBack (held self.now.network (turns_of self.now.events) row.id at.nbr)
            (held self.now.network (turns_of (watching event.now self.now).events) row.id at.nbr) }
    {
        self.versions.names_emits();
    }
}
