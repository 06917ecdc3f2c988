//! What of each node changed since the last look.

ghost use Rattle.std.specs.Prelude.{◌≡◌, ◌≢◌, ◌<◌, ◌⊎◌, ℕ, IfOk, IfSome, length, replicate, slice_get, slice_index_or, slice_set, Some};
ghost use Rattle.pls_watch.specs.inner.Current.{ArePreviousNoted, IsMoreNoted, IsNoted, is_relabel, with_beside, with_held};

use crate::watch::Watch;
use pls_streams::NoMemory;
use pls_watch_part::WatchEvent;
use std::alloc::Global;

/// What of a node changed since the last look.
#[derive(Clone, Copy, Debug, PartialEq, Eq)]
pub(crate) enum Change {
    /// Nothing.
    Nothing,
    /// A neighbour got a label, and another port is stale.
    Beside,
    /// What it holds of its neighbours' labels.
    Held,
    /// Its own label.
    Label,
}

/// `count` nodes, of none of which something changed. The one error is want of memory.
pub(crate) fn no_changes(alloc: Global, count: usize) -> Result<Vec<Change>, NoMemory>
    ensures { IfOk result (λ changes. changes.items ≡ replicate count Change.Nothing) }
{
    Ok(vec![in alloc; Change::Nothing; count]?)
}

/// Notes that the node at a place, if there is one, knows something else after an event. Where it
/// got its first label since the last look, each neighbour that holds the label before it is noted
/// besides: another port of that neighbour is stale now.
pub(crate) fn note(
    watch: &Watch<'_>,
    changes: &mut Vec<Change>,
    place: Option<usize>,
    event: &WatchEvent,
)
    requires each { length changes.old.items ≡ length watch.now.network }
    requires within { IfSome place (λ place. place < length watch.now.network) }
    ensures { IsNoted watch.now event.now place changes.old.items changes.new.items }
{
    let Some(place) = place else {
        return;
    };
    if is_relabel(event) {
        note_label(watch, changes, place);
    } else {
        note_held(changes, place);
    }
}

fn is_relabel(event: &WatchEvent) -> bool
    ensures { result ≡ is_relabel event.now }
{
    matches!(event, WatchEvent::Relabel { .. })
}

// Where a label was noted before, the neighbours were noted then.
fn note_label(watch: &Watch<'_>, changes: &mut Vec<Change>, place: usize)
    requires each { length changes.old.items ≡ length watch.now.network }
    requires within { place < length watch.now.network }
    ensures more { IsMoreNoted changes.old.items changes.new.items }
    ensures labels { (i : ℕ) → slice_get changes.new.items i ≡ Some Change.Label → i ≢ place
        → slice_get changes.old.items i ≡ Some Change.Label }
    ensures here { slice_get changes.new.items place ≡ Some Change.Label }
    ensures around { (slice_get changes.old.items place ≡ Some Change.Label)
        ⊎ ArePreviousNoted watch.now changes.new.items place }
{
    match changes[place] {
        Change::Label => {}
        _ => {
            note_beside(watch, changes, place);
            changes[place] = Change::Label;
        }
    }
}

// Notes the neighbours of a node that hold the version of its label before its newest.
fn note_beside(watch: &Watch<'_>, changes: &mut Vec<Change>, i: usize)
    requires each { length changes.old.items ≡ length watch.now.network }
    requires within { i < length watch.now.network }
    ensures more { IsMoreNoted changes.old.items changes.new.items }
    ensures labels { (i : ℕ) → slice_get changes.new.items i ≡ Some Change.Label
        → slice_get changes.old.items i ≡ Some Change.Label }
    ensures all { ArePreviousNoted watch.now changes.new.items i }
{
    for (port, beside) in watch.network().places(i).iter().enumerate() {
        if watch.neighbour_holds_previous(i, port) {
            let place = *beside as usize;
            changes[place] = with_beside(changes[place]);
        }
    }
}

// Any other change counts more than a label beside.
fn with_beside(before: Change) -> Change
    ensures { result ≡ with_beside before }
{
    match before {
        Change::Nothing => Change::Beside,
        _ => before,
    }
}

// Notes that the node holds another label of a neighbour.
fn note_held(changes: &mut Vec<Change>, place: usize)
    requires { place < length changes.old.items }
    ensures { changes.new.items ≡ slice_set changes.old.items place
        (with_held (slice_index_or changes.old.items place Change.Nothing)) }
{
    changes[place] = with_held(changes[place]);
}

// A new label of its own counts more.
fn with_held(before: Change) -> Change
    ensures { result ≡ with_held before }
{
    match before {
        Change::Label => Change::Label,
        _ => Change::Held,
    }
}

/// Forgets all changes.
pub(crate) fn forget(changes: &mut Vec<Change>)
    ensures { changes.new.items ≡ replicate (length changes.old.items) Change.Nothing }
{
    changes.fill(Change::Nothing);
}
