//! What a level says of all nodes.

ghost use Rattle.std.specs.Prelude.{◌≡◌, ◌<◌, ◌≤◌, All, None, length, slice_index_or, IfOk, IfSome, IfNone};
ghost use Rattle.pls_configuration.specs.declared.limits.TheConstants.{MAX_NODES};
ghost use Rattle.pls_boruvka.specs.inner.Chosen.{AreChildrenWithin, AreChosen, IsUnpointed, JoinChildren, SomeUnpointed, no_chosen};
ghost use Rattle.pls_boruvka.specs.inner.Round.{AreNotedNumbers, IsFragmentNumber, IsOldOrNext};

use crate::choice::Choice;
use crate::joining::{ChosenEnd, chosen_at, join};
use crate::level::Level;
use pls_graph::Network;
use pls_streams::NoMemory;
use std::alloc::Global;
use std::marker::Model;

// What a level says of each node, in their order, kept once for each fragment; seen as the list of
// what it says.
#[derive(Drop)]
pub(crate) struct Round {
    // The number of each node's fragment.
    numbers: Vec<u32>,
    // What is said of each fragment, by its number.
    chosen: Vec<ChosenEnd>,
}

impl Model for Round {
    ghost use Rattle.std.specs.Prelude.{List, length};
    ghost use Rattle.pls_boruvka.specs.declared.joining.ChosenEnd.{ChosenEnd};
    ghost use Rattle.pls_boruvka.specs.inner.Round.{AreFragmentNumbers, said_by_number};

    ghost Value = { List ChosenEnd };

    ghost view = { λ round. said_by_number round.numbers.items round.chosen.items };

    ghost invariant = { λ round. AreFragmentNumbers round.numbers.items (length round.chosen.items) };
}

impl Round {
    // `None` where some chosen edge is not a pointed one. The memory of `noted` is written anew.
    pub(crate) fn of(
        alloc: Global,
        net: &Network,
        tops: &[u32],
        choices: &[Option<Choice>],
        noted: &mut [Option<u32>],
    ) -> Result<Option<Round>, NoMemory>
        requires each { length tops.now ≡ length net.now }
        requires few { length net.now ≤ MAX_NODES }
        requires choices { length choices.now ≡ length net.now }
        requires within { All (λ top. top < length net.now) tops.now }
        requires room { length noted.old ≡ length net.now }
        ensures chosen { IfOk result (λ found. IfSome found (λ round.
            AreChosen net.now tops.now choices.now round)) }
        ensures unpointed { IfOk result (λ found. IfNone found
            (SomeUnpointed tops.now choices.now)) }
        ensures room { length noted.new ≡ length noted.old }
    {
        noted.fill(None);
        let mut numbers = Vec::with_capacity(alloc, tops.len())?;
        let mut chosen = Vec::with_capacity(alloc, fragment_count(tops))?;
        for top in tops {
            let number = number_of(net, *top as usize, choices, &mut chosen, noted)?;
            let Some(number) = number else {
                return Ok(None);
            };
            numbers.push(number)?;
        }
        Ok(Some(Round { numbers, chosen }))
    }

    // All zeros where nothing is said of the place.
    #[inline(always)]
    pub(crate) fn level_at(&self, place: usize) -> Level
        ensures { result ≡ (slice_index_or self.now place no_chosen).level }
    {
        match self.numbers.get(place) {
            Some(number) => self.chosen[*number as usize].level.whole(),
            None => Level {
                fragment: 0,
                weight: 0,
                a: 0,
                b: 0,
            },
        }
    }

    // Joins the pointers on which the chosen edges lie.
    pub(crate) fn join(&self, joined: &mut [bool])
        requires within { AreChildrenWithin (length joined.old) self.now }
        ensures { JoinChildren self.now (length self.now) joined.old joined.new }
    {
        join(joined, self.chosen.as_slice());
    }
}

// Of each fragment one place is its own top.
fn fragment_count(tops: &[u32]) -> usize {
    let mut count = 0;
    for (place, top) in tops.iter().enumerate() {
        if *top as usize == place {
            count += 1;
        }
    }
    count
}

// The number that is noted at a top. Where none is, the next number is noted, and what is said of
// the fragment goes behind the others; `None` where its edge is not a pointed one.
fn number_of(
    net: &Network,
    top: usize,
    choices: &[Option<Choice>],
    chosen: &mut Vec<ChosenEnd>,
    noted: &mut [Option<u32>],
) -> Result<Option<u32>, NoMemory>
    requires within { top < length net.now }
    requires few { length chosen.old.items < MAX_NODES }
    requires choices { length choices.now ≡ length net.now }
    requires noted { AreNotedNumbers net.now choices.now chosen.old.items noted.old }
    ensures number { IfOk result (λ found. IfSome found (λ number.
        IsFragmentNumber net.now choices.now chosen.new.items top number)) }
    ensures next { IfOk result (λ found. IfSome found (λ number.
        IsOldOrNext chosen.old.items chosen.new.items number)) }
    ensures noted { IfOk result (λ found. IfSome found (λ number.
        AreNotedNumbers net.now choices.now chosen.new.items noted.new)) }
    ensures unpointed { IfOk result (λ found. IfNone found
        (IsUnpointed (slice_index_or choices.now top None))) }
    ensures room { length noted.new ≡ length noted.old }
{
    if let Some(number) = noted[top] {
        return Ok(Some(number));
    }
    let Some(end) = chosen_at(net, top, choices[top]) else {
        return Ok(None);
    };
    let number = chosen.len() as u32;
    chosen.push(end)?;
    noted[top] = Some(number);
    Ok(Some(number))
}
