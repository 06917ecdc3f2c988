//! Nodes with their ports: all ports stand in one vector, the places of their neighbours beside
//! them in another, and each node has one range of both.

ghost use Rattle.std.specs.Prelude.{◌≡◌, ◌≢◌, ◌<◌, ◌≤◌, ◌==◌, [], ◌∷◌, ◌++◌, List, ℕ, length, position, slice_get, slice_set, option_map, None, Some, IfOk, OnOk, OnErr};
ghost use Rattle.pls_configuration.specs.declared.row.NodeRow.{NodeRow};
ghost use Rattle.pls_configuration.specs.Configuration.{out_of_order};
ghost use Rattle.pls_configuration.specs.declared.limits.TheConstants.{MAX_NODES};
ghost use Rattle.pls_configuration.specs.declared.refusal.BuildError.TheVariants.{Order};
ghost use Rattle.pls_graph.specs.declared.table.Node.{Node};
ghost use Rattle.pls_graph.specs.Places.{places_in};
ghost use Rattle.pls_graph.specs.Rows.{gaining};

use crate::ranges::{push_both, range_at_end};
use crate::seeking::{fill_places, order, place_hinted};
use pls_configuration::{BuildError, NodePorts, NodeRow, Port, State};
use std::alloc::{AllocError, Global};
use std::marker::Model;

/// A node, and the range of the vectors in which its ports stand: the first `count` of the `room`
/// items from `start` on.
#[derive(Clone, Copy)]
pub struct Node {
    pub id: u32,
    pub state: State,
    pub start: usize,
    pub count: usize,
    pub room: usize,
}

/// Nodes with their ports, seen as the rows of both and, beside each row, as many places.
#[derive(Drop)]
pub struct Table {
    pub nodes: Vec<Node>,
    pub ports: Vec<Port>,
    pub places: Vec<u32>,
}

impl Model for Table {
    ghost use Rattle.pls_graph.specs.inner.Placed.{Placed};

    ghost Value = { Placed };

    ghost use Rattle.std.specs.Prelude.{◌≡◌, length};
    ghost use Rattle.pls_graph.specs.inner.Ranges.{AreRanges, places_at, rows_at};

    ghost view = { λ table. record {
      rows = rows_at table.ports.items table.nodes.items;
      places = places_at table.places.items table.nodes.items;
    } };

    ghost invariant = { λ table. AreRanges table.nodes.items (length table.ports.items)
        × (length table.places.items ≡ length table.ports.items) };
}

impl Table {
    /// No node.
    pub(crate) fn new(alloc: Global) -> Table
        ensures rows { result.rows ≡ [] }
        ensures places { result.places ≡ [] }
    {
        Table {
            nodes: Vec::new(alloc),
            ports: Vec::new(alloc),
            places: Vec::new(alloc),
        }
    }

    /// No node, with room for so many nodes and ports.
    pub fn with_capacity(alloc: Global, nodes: usize, ports: usize) -> Result<Table, AllocError>
        ensures rows { IfOk result (λ table. table.rows ≡ []) }
        ensures places { IfOk result (λ table. table.places ≡ []) }
    {
        Ok(Table {
            nodes: Vec::with_capacity(alloc, nodes)?,
            ports: Vec::with_capacity(alloc, ports)?,
            places: Vec::with_capacity(alloc, ports)?,
        })
    }

    /// The number of nodes.
    #[inline(always)]
    pub fn len(&self) -> usize
        ensures rows { result ≡ length self.now.rows }
        ensures places { result ≡ length self.now.places }
    {
        self.nodes.len()
    }

    /// The identity and the state of the node at place i.
    #[inline(always)]
    pub fn node(&self, i: usize) -> (u32, State)
        requires { i < length self.now.rows }
        ensures id { option_map (λ row. row.id) (slice_get self.now.rows i) ≡ Some result.0 }
        ensures state { option_map (λ row. row.state) (slice_get self.now.rows i)
            ≡ Some result.1 }
    {
        let node = self.nodes[i];
        (node.id, node.state)
    }

    /// The ports of the node at place i.
    #[inline(always)]
    pub fn ports(&self, i: usize) -> &[Port]
        requires { i < length self.now.rows }
        ensures { option_map (λ row. row.ports) (slice_get self.now.rows i) ≡ Some result.now }
    {
        let node = self.nodes[i];
        &self.ports[node.start..node.start + node.count]
    }

    /// The places beside the row at place i, as many as it has ports.
    #[inline(always)]
    pub fn places(&self, i: usize) -> &[u32]
        requires { i < length self.now.rows }
        ensures places { slice_get self.now.places i ≡ Some result.now }
        ensures each { option_map (λ row. length row.ports) (slice_get self.now.rows i)
            ≡ Some (length result.now) }
    {
        let node = self.nodes[i];
        &self.places[node.start..node.start + node.count]
    }

    /// The number of items of the vector in which all ports stand.
    pub(crate) fn slots(&self) -> usize {
        self.ports.len()
    }

    /// Where in that vector the ports of the node at place i start.
    pub(crate) fn start(&self, i: usize) -> usize
        requires { i < length self.now.rows }
    {
        self.nodes[i].start
    }

    /// The first node whose identity is not above that of the node before it, as a refusal.
    pub(crate) fn order(&self) -> Option<BuildError>
        requires { 1 ≤ length self.now.rows }
        ensures { result ≡ option_map (λ row. Order row.id) (out_of_order self.now.rows) }
    {
        order(self.nodes.as_slice())
    }

    /// The place of an identity, which is looked for first at a hint, or `None` where no node has
    /// it.
    pub(crate) fn place_of(&self, hint: usize, id: u32) -> Option<usize>
        requires { out_of_order self.now.rows ≡ None }
        ensures { result ≡ position (λ row. id == row.id) self.now.rows }
    {
        place_hinted(self.nodes.as_slice(), hint, id)
    }

    /// Puts beside each row the places of the nodes that its ports name.
    pub(crate) fn find_places(&mut self, alloc: Global)
        requires order { out_of_order self.old.rows ≡ None }
        requires few { length self.old.rows ≤ MAX_NODES }
        ensures rows { self.new.rows ≡ self.old.rows }
        ensures places { self.new.places ≡ places_in self.old.rows }
    {
        fill_places(
            alloc,
            self.nodes.as_slice(),
            self.ports.as_slice(),
            &mut self.places,
        );
    }

    /// The rows, each with its ports in a vector.
    pub(crate) fn rows(&self, alloc: Global) -> Result<Vec<NodeRow>, AllocError>
        ensures { IfOk result (λ rows. rows.items ≡ self.now.rows) }
    {
        let mut rows = Vec::with_capacity(alloc, self.len())?;
        for i in 0..self.len() {
            let (id, state) = self.node(i);
            let ports = NodePorts::from_vec(Vec::from_slice(alloc, self.ports(i))?);
            rows.push(NodeRow { id, state, ports })?;
        }
        Ok(rows)
    }

    /// Puts a node without ports behind the others.
    pub fn add_node(&mut self, id: u32, state: State) -> Result<(), AllocError>
        ensures rows { OnOk result (self.new.rows
            ≡ self.old.rows ++ (record { id = id; state = state; ports = [] }) ∷ []) }
        ensures places { OnOk result (self.new.places ≡ self.old.places ++ [] ∷ []) }
        ensures unchanged { OnErr result (self.new ≡ self.old) }
    {
        let start = self.ports.len();
        self.nodes.push(Node {
            id,
            state,
            start,
            count: 0,
            room: 0,
        })?;
        Ok(())
    }

    /// Puts a port, with the place of its neighbour, behind the others of the node at place i.
    #[inline(always)]
    pub fn add_port(&mut self, i: usize, port: Port, place: u32) -> Result<(), AllocError>
        requires { i < length self.old.rows }
        ensures rows { OnOk result ((row : NodeRow) → slice_get self.old.rows i ≡ Some row
            → self.new.rows
            ≡ slice_set self.old.rows i (gaining port row)) }
        ensures places { OnOk result ((places : List ℕ) → slice_get self.old.places i ≡ Some places
            → self.new.places ≡ slice_set self.old.places i (places ++ place ∷ [])) }
        ensures unchanged { OnErr result (self.new ≡ self.old) }
    {
        let node = self.nodes[i];
        if node.count < node.room {
            let end = node.start + node.count;
            self.ports[end] = port;
            self.places[end] = place;
            set_range(&mut self.nodes, i, node.start, node.count + 1, node.room);
            return Ok(());
        }
        let start = range_at_end(&mut self.ports, &mut self.places, node.start, node.count)?;
        push_both(&mut self.ports, &mut self.places, port, place)?;
        let count = node.count + 1;
        set_range(&mut self.nodes, i, start, count, count);
        Ok(())
    }

    /// Puts a port, with the place of its neighbour, behind the others of the last node.
    #[inline(always)]
    pub(crate) fn add_last_port(&mut self, port: Port, place: u32) -> Result<(), AllocError>
        requires { self.old.rows ≢ [] }
        ensures rows { OnOk result ((before : List NodeRow) (row : NodeRow)
            → self.old.rows ≡ before ++ row ∷ []
            → self.new.rows ≡ before ++ gaining port row ∷ []) }
        ensures places { OnOk result ((before : List (List ℕ)) (places : List ℕ)
            → self.old.places ≡ before ++ places ∷ []
            → self.new.places ≡ before ++ (places ++ place ∷ []) ∷ []) }
        ensures unchanged { OnErr result (self.new ≡ self.old) }
    {
        let last = self.len() - 1;
        self.add_port(last, port, place)
    }

    /// Puts a node with these ports, and the places of their neighbours, behind the others.
    pub fn add_row(
        &mut self,
        id: u32,
        state: State,
        ports: &[Port],
        places: &[u32],
    ) -> Result<(), AllocError>
        requires { length places.now ≡ length ports.now }
        ensures rows { OnOk result (self.new.rows ≡ self.old.rows
            ++ (record { id = id; state = state; ports = ports.now }) ∷ []) }
        ensures places { OnOk result (self.new.places ≡ self.old.places ++ places.now ∷ []) }
    {
        self.add_node(id, state)?;
        for (p, port) in ports.iter().enumerate() {
            self.add_last_port(*port, places[p])?;
        }
        Ok(())
    }
}

#[inline(always)]
fn set_range(nodes: &mut Vec<Node>, i: usize, start: usize, count: usize, room: usize)
    requires { i < length nodes.old.items }
    ensures { (node : Node) → slice_get nodes.old.items i ≡ Some node → nodes.new.items
        ≡ slice_set nodes.old.items i (record node { start = start; count = count; room = room }) }
{
    let node = &mut nodes[i];
    node.start = start;
    node.count = count;
    node.room = room;
}
