//! What a node sees.

ghost use Rattle.std.specs.Prelude.{◌≡◌, ◌≤◌, ◌<◌, ◌==◌, [], position, length, map, option_map, slice_get, IsOk, IfOk, IfSome, OnOk, Some};
ghost use Rattle.pls_labels.specs.Seen.{label_of, seen_port, shown};

use crate::labels::Labels;
use pls_bits::Bits;
use pls_graph::{Network, Port, State};
use pls_streams::NoMemory;
use smallvec::SmallVec;
use std::alloc::Global;
use std::marker::Model;

/// What a node sees at one of its ports.
#[derive(Default, Drop)]
pub struct PortView<'a> {
    /// The weight of the edge.
    pub weight: u32,
    /// The label of the neighbour, lent.
    pub label: Bits<'a>,
}

/// What a node sees, and all that its verdict may depend on (the local view of Korman, Kutten and
/// Peleg 2010): no neighbour's identity or state. The pointer of the state is the number of a port,
/// and each port has another node, so that there are fewer ports than a network may have nodes.
#[derive(Drop)]
pub struct View<'a> {
    /// The node's identity.
    pub id: u32,
    /// The node's state.
    pub state: State,
    /// The node's own label, lent.
    pub own: Bits<'a>,
    /// Its ports, in their order.
    pub ports: SmallVec<PortView<'a>, 8>,
}

impl<'a> Model for View<'a> {
    ghost use Rattle.std.specs.Prelude.{length, map};
    ghost use Rattle.pls_labels.specs.Seen.{Seen, IsProper};

    ghost Value = { Seen };

    ghost view = { λ view. record {
      id = view.id;
      state = view.state;
      own = view.own;
      ports = map (λ port. record { weight = port.weight; label = port.label }) view.ports.items;
    } };

    ghost invariant = { λ view. IsProper view.state.up (length view.ports.items) };
}

impl<'a> View<'a> {
    ghost use Rattle.pls_configuration.specs.declared.limits.TheConstants.{MAX_DEGREE};
    ghost use Rattle.pls_labels.specs.Seen.{views};

    /// The view of the node at place `i`, under these labels. A neighbour's label is taken by its
    /// place. It takes no memory where the node has at most 8 ports.
    #[inline(always)]
    pub fn of<L: Labels>(
        alloc: Global,
        net: &Network,
        labels: &'a L,
        i: usize,
    ) -> Result<View<'a>, NoMemory>
        requires lengths { length (L.listed labels.now) ≡ length net.now }
        requires within { i < length net.now }
        ensures shows { IfOk result
            (λ view. slice_get (views net.now (L.listed labels.now)) i ≡ Some view) }
        ensures small { IfSome (slice_get net.now i) (λ row. length row.ports ≤ 8 → IsOk result) }
    {
        let (id, state) = net.node(i);
        let mut ports = SmallVec::new(alloc);
        put_ports(&mut ports, net, labels, i, net.ports(i))?;
        Ok(View {
            id,
            state,
            own: labels.bits(i),
            ports,
        })
    }

    /// A view without ports and with an empty label, to be turned to one node after the other. It
    /// takes no memory.
    pub fn blank(alloc: Global) -> Self
        ensures label { result.own ≡ [] }
        ensures ports { result.ports ≡ [] }
    {
        View {
            id: 0,
            state: State {
                up: None,
                mark: 0,
                num: 0,
            },
            own: Bits::default(),
            ports: SmallVec::new(alloc),
        }
    }

    /// Becomes the view of the node at place `i`, under these labels, without a value of its own
    /// for each node. For want of memory nothing is said of what it shows.
    #[inline(always)]
    pub fn turn_to<L: Labels>(
        &mut self,
        net: &Network,
        labels: &'a L,
        i: usize,
    ) -> Result<(), NoMemory>
        requires lengths { length (L.listed labels.now) ≡ length net.now }
        requires within { i < length net.now }
        ensures shows { OnOk result
            (slice_get (views net.now (L.listed labels.now)) i ≡ Some self.new) }
    {
        let (id, state) = net.node(i);
        self.state.up = None;
        self.ports.clear();
        let Ok(()) = put_ports(&mut self.ports, net, labels, i, net.ports(i)) else {
            self.ports.clear();
            return Err(NoMemory);
        };
        self.id = id;
        self.state = state;
        self.own = labels.bits(i);
        Ok(())
    }

    /// The number of ports, at most [`MAX_DEGREE`](pls_configuration::MAX_DEGREE). `pointer` says
    /// that the state points at none but these.
    #[inline(always)]
    pub fn degree(&self) -> usize
        ensures count { result ≡ length self.now.ports }
        ensures few { result ≤ MAX_DEGREE }
        ensures pointer { IfSome self.now.state.up (λ port. port < length self.now.ports) }
    {
        self.ports.len()
    }
}

// `ports` is empty before; `named` are the ports of the node at place `i`.
#[inline(always)]
fn put_ports<'a, L: Labels>(
    ports: &mut SmallVec<PortView<'a>, 8>,
    net: &Network,
    labels: &'a L,
    i: usize,
    named: &[Port],
) -> Result<(), NoMemory>
    requires lengths { length (L.listed labels.now) ≡ length net.now }
    requires within { i < length net.now }
    requires none { ports.old.items ≡ [] }
    requires named { option_map (λ row. row.ports) (slice_get net.now i) ≡ Some named.now }
    ensures shown { OnOk result (map (λ port. shown port.weight port.label) ports.new.items
        ≡ map (seen_port (label_of net.now (L.listed labels.now))) named.now) }
    ensures small { 8 ≤ ports.old.capacity → length named.now ≤ 8 → IsOk result }
{
    let places = net.places(i);
    let mut p = 0;
    for port in named {
        ports.push(port_view(net, labels, port, places[p] as usize))?;
        p += 1;
    }
    Ok(())
}

// `place` is that of the neighbour.
#[inline(always)]
fn port_view<'a, L: Labels>(net: &Network, labels: &'a L, port: &Port, place: usize) -> PortView<'a>
    requires lengths { length (L.listed labels.now) ≡ length net.now }
    requires at { position (λ row. port.now.nbr == row.id) net.now ≡ Some place }
    requires within { place < length net.now }
    ensures weight { result.weight ≡ port.now.weight }
    ensures label { result.label ≡ label_of net.now (L.listed labels.now) port.now.nbr }
{
    PortView {
        weight: port.weight,
        label: labels.bits(place),
    }
}
