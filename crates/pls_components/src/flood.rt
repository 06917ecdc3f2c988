//! For each node the number of its component, by flood fill from each place that has no number yet:
//! each place is entered once, and nothing is looked up by its identity. Components are numbered in
//! the order of their first places, which is that of their smallest identities.

ghost use Rattle.std.specs.Prelude.{◌≡◌, ◌+◌, ◌<◌, ℕ, All, IfOk, OnOk, None, Some, [], ◌∷◌, length, map, replicate};
ghost use Rattle.pls_components.specs.inner.Numbers.{AreClosed, AreNumbered, EntersAll, Fills, HasNumber, number_of_place};

use pls_facts::is_valid;
use pls_graph::Network;
use pls_streams::NoMemory;
use std::alloc::Global;

// A flood fill under way: the numbers given so far, and the places whose neighbours are still to be
// looked at.
#[derive(Drop)]
pub(crate) struct Flood {
    numbers: Vec<Option<u32>>,
    waiting: Vec<u32>,
}

impl Flood {
    // No place in the component of `root` may have a number yet.
    fn fill(&mut self, net: &Network, root: u32, number: u32) -> Result<(), NoMemory>
        requires sized { length self.old.numbers.items ≡ length net.now }
        requires within { root < length net.now }
        requires none { self.old.waiting.items ≡ [] }
        requires closed { AreClosed net.now self.old.numbers.items }
        requires blank { number_of_place self.old.numbers.items root ≡ None }
        ensures filled { OnOk result
            (Fills net.now self.old.numbers.items self.new.numbers.items root number) }
        ensures none { OnOk result (self.new.waiting.items ≡ []) }
    {
        is_valid(net);
        self.enter(root, number)?;
        while let Some(place) = self.waiting.pop() {
            self.enter_all(net.places(place as usize), number)?;
        }
        Ok(())
    }

    // Numbers the component of `root` with `count` unless it has a number; returns the new count.
    fn fill_if_none(&mut self, net: &Network, root: usize, count: u32) -> Result<u32, NoMemory>
        requires within { root < length net.now }
        requires none { self.old.waiting.items ≡ [] }
        requires numbered { AreNumbered net.now self.old.numbers.items root count }
        ensures numbered { IfOk result
            (λ count. AreNumbered net.now self.new.numbers.items (root + 1) count) }
        ensures none { OnOk result (self.new.waiting.items ≡ []) }
    {
        is_valid(net);
        if self.numbers[root].is_some() {
            return Ok(count);
        }
        self.fill(net, root as u32, count)?;
        Ok(count + 1)
    }

    #[inline(always)]
    fn enter_all(&mut self, places: &[u32], number: u32) -> Result<(), NoMemory>
        requires { All (λ place. place < length self.old.numbers.items) places.now }
        ensures { OnOk result (EntersAll self.old self.new number places.now) }
    {
        for place in places {
            self.enter(*place, number)?;
        }
        Ok(())
    }

    // Numbered before its neighbours are visited, so that a place waits only once.
    #[inline(always)]
    fn enter(&mut self, place: u32, number: u32) -> Result<(), NoMemory>
        requires { place < length self.old.numbers.items }
        ensures { OnOk result (EntersAll self.old self.new number (place ∷ [])) }
    {
        if self.numbers[place as usize].is_none() {
            self.waiting.push(place)?;
            self.numbers[place as usize] = Some(number);
        }
        Ok(())
    }
}

// The component number of each node, and the number of components.
pub(crate) fn number_all(alloc: Global, net: &Network) -> Result<(Vec<Option<u32>>, u32), NoMemory>
    ensures { IfOk result
        (λ found. AreNumbered net.now found.0.items (length net.now) found.1) }
{
    let numbers = no_numbers(alloc, net.len())?;
    let waiting = Vec::new(alloc);
    let mut flood = Flood { numbers, waiting };
    let mut count = 0;
    for root in 0..net.len() {
        count = flood.fill_if_none(net, root, count)?;
    }
    let Flood {
        numbers,
        waiting: _,
    } = flood;
    Ok((numbers, count))
}

fn no_numbers(alloc: Global, count: usize) -> Result<Vec<Option<u32>>, NoMemory>
    ensures { IfOk result (λ numbers. numbers.items ≡ replicate count None) }
{
    Ok(vec![in alloc; None; count]?)
}

// Unwraps the numbers, none of which may be `None`.
pub(crate) fn all_numbers(alloc: Global, found: &[Option<u32>]) -> Result<Vec<u32>, NoMemory>
    requires { (place : ℕ) → place < length found.now
        → (known : ℕ) × HasNumber found.now place known }
    ensures { IfOk result (λ numbers. map Some numbers.items ≡ found.now) }
{
    let mut numbers = Vec::with_capacity(alloc, found.len())?;
    for number in found {
        match number {
            Some(number) => numbers.push(*number)?,
            None => unreachable!(),
        }
    }
    Ok(numbers)
}
