//! The pieces of a level, and their centroids.

ghost use Rattle.std.specs.Prelude.{◌≡◌, ◌<◌, ◌≤◌, ◌*◌, ◌&&◌, nat_le, All, ℕ, List, Some, length, slice_get, IfOk};
ghost use Rattle.pls_configuration.specs.declared.row.NodeRow.{NodeRow};
ghost use Rattle.pls_configuration.specs.Walk.{Edge};
ghost use Rattle.pls_facts.specs.Parents.{NoParentsReturn};
ghost use Rattle.pls_search.specs.SubtreeSizes.{AreParentsWithin, HasParentAt};
ghost use Rattle.pls_centroid.specs.inner.Rooted.{AreBehindParents, AreCentroidsOf, AreGreatestBelow, AreLeft, AreTopsOf, IsStage, first_of, left_of, top_by};

use pls_search::subtree_sizes;
use pls_streams::NoMemory;
use std::alloc::Global;

// `None` for a taken place, and where its parent is taken.
pub(crate) fn parents_left(
    alloc: Global,
    parents: &[Option<usize>],
    taken: &[bool],
) -> Result<Vec<Option<usize>>, NoMemory>
    requires each { length taken.now ≡ length parents.now }
    requires inside { AreParentsWithin parents.now }
    requires never_returns { NoParentsReturn (HasParentAt parents.now) }
    ensures left { IfOk result (λ left. AreLeft parents.now taken.now left.items) }
    ensures inside { IfOk result (λ left. AreParentsWithin left.items) }
    ensures never_returns { IfOk result (λ left. NoParentsReturn (HasParentAt left.items)) }
    ensures order { IfOk result (λ left. (order : List ℕ) → AreBehindParents parents.now order
        → AreBehindParents left.items order) }
{
    let mut left = Vec::with_capacity(alloc, parents.len())?;
    for place in 0..parents.len() {
        left.push(parent_left(parents, taken, place))?;
    }
    Ok(left)
}

fn parent_left(parents: &[Option<usize>], taken: &[bool], place: usize) -> Option<usize>
    requires within { place < length parents.now }
    requires each { length taken.now ≡ length parents.now }
    requires inside { AreParentsWithin parents.now }
    ensures { result ≡ left_of parents.now taken.now place }
{
    match parents[place] {
        Some(parent) => {
            if taken[place] || taken[parent] {
                None
            } else {
                Some(parent)
            }
        }
        None => None,
    }
}

// The top of a piece is where its chains of parents end.
pub(crate) fn tops_of(
    alloc: Global,
    order: &[usize],
    left: &[Option<usize>],
) -> Result<Vec<usize>, NoMemory>
    requires order { AreBehindParents left.now order.now }
    requires inside { AreParentsWithin left.now }
    ensures tops { IfOk result (λ tops. AreTopsOf left.now tops.items) }
    ensures inside { IfOk result (λ tops. All (λ top. top < length left.now) tops.items) }
{
    let mut tops = vec![in alloc; 0; left.len()]?;
    for place in order {
        let top = top_by(left, tops.as_slice(), *place);
        tops[*place] = top;
    }
    Ok(tops)
}

fn top_by(left: &[Option<usize>], tops: &[usize], place: usize) -> usize
    requires within { place < length left.now }
    requires each { length tops.now ≡ length left.now }
    requires inside { AreParentsWithin left.now }
    ensures { result ≡ top_by left.now tops.now place }
{
    match left[place] {
        Some(parent) => tops[parent],
        None => place,
    }
}

// The greatest size among the children of each place.
fn greatest_below(
    alloc: Global,
    left: &[Option<usize>],
    sizes: &[u32],
) -> Result<Vec<u32>, NoMemory>
    requires each { length sizes.now ≡ length left.now }
    requires inside { AreParentsWithin left.now }
    ensures { IfOk result (λ greatest.
        AreGreatestBelow left.now sizes.now (length left.now) greatest.items) }
{
    let mut greatest = vec![in alloc; 0; left.len()]?;
    for place in 0..left.len() {
        match left[place] {
            Some(parent) => greatest[parent] = sizes[place].max(greatest[parent]),
            None => {}
        }
    }
    Ok(greatest)
}

// For each top, the first place whose removal leaves no part over half of the piece.
pub(crate) fn centroids_of(
    alloc: Global,
    left: &[Option<usize>],
    tops: &[usize],
) -> Result<Vec<Option<usize>>, NoMemory>
    requires few { length left.now ≤ 32768 }
    requires each { length tops.now ≡ length left.now }
    requires inside { AreParentsWithin left.now }
    requires never_returns { NoParentsReturn (HasParentAt left.now) }
    requires tops { All (λ top. top < length left.now) tops.now }
    ensures centroids { IfOk result (λ centroids. (rows : List NodeRow) (edges : List Edge)
        → IsStage rows edges left.now tops.now
        → AreCentroidsOf rows edges tops.now centroids.items) }
    ensures each { IfOk result (λ centroids. length centroids.items ≡ length left.now) }
    ensures inside { IfOk result (λ centroids. (place c : ℕ)
        → slice_get centroids.items place ≡ Some (Some c) → c < length left.now) }
{
    let sizes = subtree_sizes(alloc, left)?;
    let sizes = sizes.as_slice();
    let below = greatest_below(alloc, left, sizes)?;
    let below = below.as_slice();
    let mut centroids = vec![in alloc; None; left.len()]?;
    for place in 0..left.len() {
        let top = tops[place];
        let central = is_central(sizes[top], sizes[place], below[place]);
        centroids[top] = first_of(centroids[top], central, place);
    }
    Ok(centroids)
}

// `all` nodes in the piece, `own` from the place down, at most `below` under one child.
fn is_central(all: u32, own: u32, below: u32) -> bool
    ensures { result ≡ (nat_le all (2 * own) && nat_le (2 * below) all) }
{
    u64::from(all) <= 2 * u64::from(own) && 2 * u64::from(below) <= u64::from(all)
}

fn first_of(found: Option<usize>, central: bool, place: usize) -> Option<usize>
    ensures { result ≡ first_of found central place }
{
    match found {
        Some(c) => Some(c),
        None => { if central { Some(place) } else { None } }
    }
}
