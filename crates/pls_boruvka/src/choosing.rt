//! The first edge that leaves each fragment: one pass over all ports.

ghost use Rattle.std.specs.Prelude.{◌≡◌, ◌<◌, ◌+◌, All, length, IfOk};
ghost use Rattle.pls_boruvka.specs.inner.Choices.{AreChoices, ChildOf, IsFirstOf, LeavesTop, choice_at, top_at};
ghost use Rattle.pls_boruvka.specs.inner.Tops.{AreParents};

use crate::choice::{Choice, earlier, is_lighter};
use pls_configuration::Port;
use pls_graph::Network;
use pls_streams::NoMemory;
use std::alloc::Global;

// Puts at each fragment's top the first edge that leaves it, if any; `choices` is written anew.
pub(crate) fn choices_of(
    net: &Network,
    parents: &[Option<u32>],
    tops: &[u32],
    choices: &mut [Option<Choice>],
)
    requires parents { AreParents net.now parents.now }
    requires each { length tops.now ≡ length net.now }
    requires within { All (λ top. top < length net.now) tops.now }
    requires room { length choices.old ≡ length net.now }
    ensures { AreChoices net.now tops.now (length net.now) choices.new }
{
    choices.fill(None);
    for place in 0..net.len() {
        let top = tops[place] as usize;
        choices[top] = first_with(net, parents, tops, place, choices[top]);
    }
}

pub(crate) fn no_choices(alloc: Global, count: usize) -> Result<Vec<Option<Choice>>, NoMemory>
    ensures { IfOk result (λ choices. length choices.items ≡ count) }
{
    Ok(vec![in alloc; None; count]?)
}

// The first edge that leaves the fragment at `place` or, by `before`, at an earlier place.
fn first_with(
    net: &Network,
    parents: &[Option<u32>],
    tops: &[u32],
    place: usize,
    before: Option<Choice>,
) -> Option<Choice>
    requires parents { AreParents net.now parents.now }
    requires each { length tops.now ≡ length net.now }
    requires within { place < length net.now }
    requires before { IsFirstOf (LeavesTop net.now tops.now place (top_at tops.now place)) before }
    ensures { IsFirstOf (LeavesTop net.now tops.now (place + 1) (top_at tops.now place)) result }
{
    let (id, _) = net.node(place);
    let places = net.places(place);
    let mut first = before;
    for (p, port) in net.ports(place).iter().enumerate() {
        let other = places[p];
        if tops[other as usize] != tops[place] {
            if !is_lighter(first, port.weight) {
                let child = child_of(parents, place as u32, other);
                first = earlier(first, Some(choice_at(id, *port, child)));
            }
        }
    }
    first
}

// Whichever of the two places points at the other, if one does.
fn child_of(parents: &[Option<u32>], place: u32, other: u32) -> Option<u32>
    requires within { place < length parents.now }
    requires inside { other < length parents.now }
    ensures { ChildOf parents.now place other result }
{
    if parents[place as usize] == Some(other) {
        Some(place)
    } else if parents[other as usize] == Some(place) {
        Some(other)
    } else {
        None
    }
}

fn choice_at(id: u32, port: Port, child: Option<u32>) -> Choice
    ensures { result ≡ choice_at id port child }
{
    Choice {
        weight: port.weight,
        child,
        a: id.min(port.nbr),
        b: id.max(port.nbr),
    }
}
