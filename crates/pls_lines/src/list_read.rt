//! What the items of a list say, kept while its part is passed, or read behind it.

ghost use Rattle.std.specs.Prelude.{◌≡◌, List, map, IfNone, IfOk, IfSome, OnSome};
ghost use Rattle.pls_lines.specs.LineKind.{Says};
ghost use Rattle.pls_lines.specs.ListPart.{AreKept, IsListPart, PassesList, Remains, TellsItems};
ghost use Rattle.pls_lines.specs.Part.{PassesFormat};
ghost use Rattle.pls_lines.specs.inner.ListScan.{KeepsItems};

use crate::line_kind::{LineKind, next_of};
use crate::lines::Lines;
use crate::list_tally::{Keep, ListTally};
use crate::list_text::{ListText, next_item};
use pls_configuration::MAX_LINES;
use pls_streams::NoMemory;
use std::alloc::Global;

/// Passes the part with a list that stands next, and keeps a line of each item, so that its text is
/// read once.
///
/// `None` where no such part stands next, where it has more items than [`MAX_LINES`], and for want
/// of memory; then the reader stays.
pub fn keep_list<'a, T: Keep<'a>>(
    alloc: Global,
    lines: &mut Lines<'a>,
) -> Option<(ListText<'a, T>, Vec<T::Line>)>
    ensures passed { IfSome result (λ kept. PassesList T.Heading.Fits T.Heading.written
        T.Item.written T.Are T.tally lines.old lines.new kept.0.heading kept.0.lines kept.0.kept) }
    ensures format { OnSome result (PassesFormat
        (IsListPart (Says T.Heading.Fits T.Heading.written) T.Item.written T.Are)
        lines.old lines.new) }
    ensures lines { IfSome result (λ kept. AreKept T.Heading.Fits T.Heading.written
        T.Item.written T.Are T.line kept.0.lines.rest kept.0.heading kept.1.items) }
    ensures unchanged { IfNone result (lines.new ≡ lines.old) }
{
    let mut ahead = lines.again();
    let kept = keep_ahead::<T>(alloc, &mut ahead)?;
    *lines = ahead;
    Some(kept)
}

// As `keep_list`, but the reader may move on `None`.
fn keep_ahead<'a, T: Keep<'a>>(
    alloc: Global,
    lines: &mut Lines<'a>,
) -> Option<(ListText<'a, T>, Vec<T::Line>)>
    ensures passed { IfSome result (λ kept. PassesList T.Heading.Fits T.Heading.written
        T.Item.written T.Are T.tally lines.old lines.new kept.0.heading kept.0.lines kept.0.kept) }
    ensures format { OnSome result (PassesFormat
        (IsListPart (Says T.Heading.Fits T.Heading.written) T.Item.written T.Are)
        lines.old lines.new) }
    ensures lines { IfSome result (λ kept. AreKept T.Heading.Fits T.Heading.written
        T.Item.written T.Are T.line kept.0.lines.rest kept.0.heading kept.1.items) }
{
    T::laws();
    T::Heading::laws();
    T::Item::laws();
    let start = lines.again();
    let heading = next_of::<T::Heading>(lines)?;
    let (kept, list) = keep_items::<T>(alloc, lines)?;
    if !kept.is_whole() || !lines.pass(b"end") {
        return None;
    }
    let text = ListText {
        heading,
        lines: lines.between(&start),
        kept,
    };
    Some((text, list))
}

// `None` where an item may not follow, where there are too many, or for want of memory. Unused room
// costs no memory.
fn keep_items<'a, T: Keep<'a>>(alloc: Global, lines: &mut Lines<'a>) -> Option<(T, Vec<T::Line>)>
    ensures { IfSome result (λ kept. KeepsItems T.Item.written T.Are T.tally T.line
        lines.old lines.new kept.0 kept.1.items) }
{
    T::laws();
    let room = (lines.rest().len() / 8).min(MAX_LINES);
    let Ok(mut list) = Vec::with_capacity(alloc, room) else {
        return None;
    };
    let mut kept = T::none();
    while let Some(item) = next_of::<T::Item>(lines) {
        if list.len() == MAX_LINES || !kept.take(&item) {
            return None;
        }
        let Ok(line) = T::line_of(alloc, item) else {
            return None;
        };
        let Ok(()) = list.push(line) else {
            return None;
        };
    }
    Some((kept, list))
}

impl<'a, T: Keep<'a>> ListText<'a, T> {
    /// What the items say, in the order of their lines. The one refusal is want of memory.
    pub fn list(&self, alloc: Global) -> Result<Vec<T::Line>, NoMemory>
        ensures { (items : List T.Item)
            → TellsItems T.Heading.Fits T.Heading.written T.Item.written T.Are
            self.now.lines.rest self.now.heading items
            → IfOk result (λ list. list.items ≡ map T.line items) }
    {
        lines_of::<T>(alloc, self.behind_heading())
    }
}

// The items before the next `end`; the one error is want of memory.
fn lines_of<'a, T: Keep<'a>>(alloc: Global, mut lines: Lines<'a>) -> Result<Vec<T::Line>, NoMemory>
    ensures { (items : List T.Item) → Remains T.Item.Fits T.Item.written lines.entry.rest items
        → IfOk result (λ list. list.items ≡ map T.line items) }
{
    let mut list = Vec::new(alloc);
    while let Some(item) = next_item::<T::Item>(&mut lines) {
        list.push(T::line_of(alloc, item)?)?;
    }
    Ok(list)
}
