//! Networks that are edited: all edits of all small networks are compared with the plain program.

ghost use Rattle.std.specs.Prelude.{◌<◌, length};

use super::network;
use super::plain::{Edit, Plain, WEIGHT, small};
use pls_graph::{Network, State};
use pls_graph_edits::{EditError, join, leave, link, set_state, set_weight, unlink};
use std::alloc::Global;
use std::test::Fail;

fn make(net: &mut Network, edit: Edit) -> Option<EditError> {
    let answer = match edit {
        Edit::State(id, up) => set_state(
            net,
            id,
            State {
                up,
                mark: 0,
                num: 0,
            },
        ),
        Edit::Weight(a, b) => set_weight(net, a, b, WEIGHT),
        Edit::Link(a, b) => link(net, a, b, WEIGHT),
        Edit::Unlink(a, b) => unlink(net, a, b),
        Edit::Join(id) => join(net, id, 0, 0),
        Edit::Leave(id) => leave(net, id),
    };
    answer.err()
}

// Each network is tried once: the pointers of absent nodes must be none.
fn is_one_name(nodes: u32, pointers: u32) -> bool {
    match nodes {
        1 => pointers & 60 == 60,
        2 => pointers & 48 == 48,
        _ => true,
    }
}

// How many edits are tried first.
const EDITS: u32 = 78;

// The edit `number`, from 0; some edits name absent nodes.
fn first_edit(number: u32) -> Edit {
    let (i, j) = (number.wrapping_shr(2) & 3, number.wrapping_shr(4) & 3);
    if number >= 71 {
        return Edit::Leave(number - 71);
    }
    if number >= 64 {
        return Edit::Join(number - 64);
    }
    match number & 3 {
        0 => Edit::Weight(end(i), end(j)),
        1 => Edit::Link(end(i), end(j)),
        2 => Edit::Unlink(end(i), end(j)),
        _ => Edit::State(end(i), j.checked_sub(1)),
    }
}

// The identity of an edge's end; no network starts with a node 2.
fn end(number: u32) -> u32 {
    match number {
        0 => 1,
        1 => 2,
        2 => 3,
        _ => 5,
    }
}

// The edits that are tried behind each: where it left a range with room, or at another place, these
// use it.
const MORE: &[Edit] = &[
    Edit::Link(1, 5),
    Edit::Join(4),
    Edit::Unlink(3, 1),
    Edit::Link(4, 3),
    Edit::Weight(5, 1),
    Edit::Leave(4),
    Edit::Unlink(1, 5),
    Edit::Link(3, 1),
    Edit::Leave(5),
    Edit::State(3, Some(0)),
];

// Whether `first`, and then each edit of `MORE`, ends as in the plain program.
fn ends_alike(alloc: Global, plain: &Plain, text: &str, first: Edit) -> Result<bool, Fail> {
    let mut net = network(alloc, text)?;
    let mut plain = plain.again(alloc)?;
    end_alike(&mut net, &mut plain, first)
}

fn end_alike(net: &mut Network, plain: &mut Plain, first: Edit) -> Result<bool, Fail> {
    let mut alike = agree(net, plain, first)?;
    for next in MORE {
        alike &= agree(net, plain, *next)?;
    }
    Ok(alike)
}

// How many first edits, each followed by `MORE`, end otherwise than in the plain program.
fn differences(alloc: Global, plain: &Plain) -> Result<u32, Fail> {
    let text = plain.text(alloc)?;
    let mut wrong = 0_u32;
    for number in 0..EDITS {
        let alike = ends_alike(alloc, plain, text.as_str(), first_edit(number))?;
        wrong = wrong.saturating_add(u32::from(!alike));
    }
    Ok(wrong)
}

fn agree(net: &mut Network, plain: &mut Plain, edit: Edit) -> Result<bool, Fail> {
    let refusal = plain.refusal(edit);
    if refusal.is_none() {
        plain.make(edit)?;
    }
    Ok(make(net, edit) == refusal && is_same(net, plain))
}

fn is_same(net: &Network, plain: &Plain) -> bool {
    if net.len() != plain.nodes.len() {
        return false;
    }
    for i in 0..net.len() {
        let node = plain.nodes[i];
        let (id, state) = net.node(i);
        if id != node.id || state.up != node.up || !are_same(net, i, plain, id) {
            return false;
        }
    }
    true
}

// Whether the ports at place `i` are those of `id` and lead to its neighbours' places.
fn are_same(net: &Network, i: usize, plain: &Plain, id: u32) -> bool
    requires { i < length net.now }
{
    let places = net.places(i);
    let mut ports = net.ports(i).iter().zip(places.iter());
    for port in &plain.ports {
        if port.owner == id {
            match ports.next() {
                Some((found, place))
                    if found.nbr == port.nbr
                        && found.weight == port.weight
                        && net.place_of(found.nbr) == Some(*place as usize) => {}
                _ => return false,
            }
        }
    }
    ports.next().is_none()
}

// How many choices of pointers pass, on the networks with these `edges`, one bit a pair.
fn count_of_tried(alloc: Global, nodes: u32, edges: u32) -> Result<u32, Fail> {
    let mut tried = 0_u32;
    for pointers in 0..64 {
        if is_one_name(nodes, pointers)
            && let Some(plain) = small(alloc, nodes, edges, pointers)?
            && differences(alloc, &plain)? == 0
        {
            tried = tried.saturating_add(1);
        }
    }
    Ok(tried)
}

// Of each number of nodes the sets of edges, one bit a pair, and how many choices of pointers there
// are: of each node none, or one of its ports.
const NETWORKS: &[(u32, u32, u32)] = &[
    (1, 0, 1),
    (2, 0, 1),
    (2, 1, 4),
    (3, 0, 1),
    (3, 1, 4),
    (3, 2, 4),
    (3, 3, 12),
    (3, 4, 4),
    (3, 5, 12),
    (3, 6, 12),
    (3, 7, 27),
];

#[test]
fn all_edits_of_all_small_networks(rt: HostRuntime) -> Result<(), Fail> {
    for (nodes, edges, networks) in NETWORKS {
        let tried = count_of_tried(rt.alloc(), *nodes, *edges)?;
        assert!(rt; tried == *networks, "{nodes} nodes, edges {edges}: {tried}");
    }
    Ok(())
}
