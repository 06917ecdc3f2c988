//! The text of a part with a list of items: scanned without memory, and read again as the items.

ghost use Rattle.std.specs.Prelude.{◌≡◌, ◌+◌, ◌<◌, ◌^◌, List, [], length, IfErr, IfNone, IfOk, IfSome, OnOk};
ghost use Rattle.std.specs.Bool.{OnFalse, OnTrue};
ghost use Rattle.pls_lines.specs.Fault.{NamesFirstFault};
ghost use Rattle.pls_lines.specs.LineKind.{Says};
ghost use Rattle.pls_lines.specs.Lines.{IsFormFault, Stands};
ghost use Rattle.pls_lines.specs.ListPart.{Begun, IsListPart, IsWholeList, NextItem, PassesList, Remains, TellsItems};
ghost use Rattle.pls_lines.specs.inner.ListScan.{MayFollow, PassesItem, PassesItems};
ghost use Rattle.pls_lines.specs.Part.{PassesFormat};
ghost use Rattle.pls_lines.specs.laws.ListLaws.{list_is_some_part};

use crate::line_kind::{LineKind, next_of};
use crate::lines::Lines;
use crate::list_tally::ListTally;
use crate::part::Part;
use pls_streams::TextError;

/// The text of a part with a list of items, which it lends from its heading line to its `end`, and
/// what is counted of the items.
#[derive(Drop)]
pub struct ListText<'a, T: ListTally<'a>> {
    /// What the heading says.
    pub heading: T::Heading,
    /// A reader of the part's lines, its heading among them.
    pub lines: Lines<'a>,
    /// What is counted of the items.
    pub kept: T,
}

impl<'a, T: ListTally<'a>> Part<'a> for ListText<'a, T> {
    ghost Format = { IsListPart (Says T.Heading.Fits T.Heading.written) T.Item.written T.Are };

    ghost Passed = { λ old new part. PassesList T.Heading.Fits T.Heading.written T.Item.written
        T.Are T.tally old new part.heading part.lines part.kept };

    ghost part_law = { list_is_some_part T.Heading.Fits T.Heading.written T.Item.Fits
        T.Item.written T.Are T.Heading.kind_law T.Item.kind_law T.list_law };

    fn pass(lines: &mut Lines<'a>) -> Result<Self, TextError> {
        pass_list::<T>(lines)
    }
}

// On an error, the reader stops inside the part, and the error names the first faulty line.
fn pass_list<'a, T: ListTally<'a>>(lines: &mut Lines<'a>) -> Result<ListText<'a, T>, TextError>
    ensures ok { IfOk result (λ part. PassesList T.Heading.Fits T.Heading.written T.Item.written
        T.Are T.tally lines.old lines.new part.heading part.lines part.kept) }
    ensures format { OnOk result (PassesFormat
        (IsListPart (Says T.Heading.Fits T.Heading.written) T.Item.written T.Are)
        lines.old lines.new) }
    ensures form { IfErr result (λ error. IsFormFault
        (IsListPart (Says T.Heading.Fits T.Heading.written) T.Item.written T.Are)
        lines.old error) }
{
    T::laws();
    T::Heading::laws();
    T::Item::laws();
    let start = lines.again();
    let Some(heading) = next_of::<T::Heading>(lines) else {
        return Err(lines.form_error());
    };
    let kept = pass_items::<T>(lines);
    if !kept.is_whole() {
        return Err(lines.form_error());
    }
    lines.expect(b"end")?;
    let lines = lines.between(&start);
    Ok(ListText {
        heading,
        lines,
        kept,
    })
}

/// The part with a list of items that a text is, and nothing more. It takes no memory.
///
/// The one refusal is `Form`, with the number of the first line that is not of the form, as is a
/// line behind the part.
pub fn read_list<'a, T: ListTally<'a>>(text: &'a [u8]) -> Result<ListText<'a, T>, TextError>
    ensures whole { IfOk result (λ part. IsWholeList T.Heading.Fits T.Heading.written T.Item.written
        T.Are T.tally text.now part.heading part.lines part.kept) }
    ensures form { IfErr result (λ error. NamesFirstFault
        (IsListPart (Says T.Heading.Fits T.Heading.written) T.Item.written T.Are)
        text.now error) }
{
    T::laws();
    T::Heading::laws();
    T::Item::laws();
    let mut lines = Lines::new(text);
    let part = pass_list::<T>(&mut lines)?;
    if !lines.at_end() {
        return Err(lines.form_error());
    }
    Ok(part)
}

// Stops before the first line that is no item or may not follow.
fn pass_items<'a, T: ListTally<'a>>(lines: &mut Lines<'a>) -> T
    ensures passed { PassesItems T.Item.written T.Are T.tally lines.old lines.new result }
    ensures none { (items : List T.Item) → Begun T.Are items → result ≡ T.tally items
        → Stands (MayFollow T.Item.Fits T.Item.written T.Are items) lines.new.rest → ⊥ }
{
    T::laws();
    let mut kept = T::none();
    while pass_item::<T>(lines, &mut kept) {}
    kept
}

// False, with both unchanged, where no item stands next or it may not follow.
fn pass_item<'a, T: ListTally<'a>>(lines: &mut Lines<'a>, kept: &mut T) -> bool
    ensures passed { OnTrue result (PassesItem T.Item.Fits T.Item.written T.Are T.tally
        lines.old lines.new kept.old kept.new) }
    ensures fewer { OnTrue result (length lines.new.rest < length lines.old.rest) }
    ensures none { OnFalse result ((items : List T.Item) → Begun T.Are items
        → kept.old ≡ T.tally items
        → Stands (MayFollow T.Item.Fits T.Item.written T.Are items) lines.old.rest → ⊥) }
    ensures unchanged { OnFalse result (lines.new ≡ lines.old) }
    ensures same { OnFalse result (kept.new ≡ kept.old) }
{
    T::Item::laws();
    let mut ahead = lines.again();
    let Some(item) = next_of::<T::Item>(&mut ahead) else {
        return false;
    };
    if !kept.take(&item) {
        return false;
    }
    *lines = ahead;
    true
}

impl<'a, T: ListTally<'a>> ListText<'a, T> {
    /// A reader of the lines behind the heading.
    pub fn behind_heading(&self) -> Lines<'a>
        ensures { (items : List T.Item)
            → TellsItems T.Heading.Fits T.Heading.written T.Item.written T.Are
            self.now.lines.rest self.now.heading items
            → Remains T.Item.Fits T.Item.written result.rest items }
    {
        T::laws();
        T::Heading::laws();
        T::Item::laws();
        let mut lines = self.lines.again();
        let _ = next_of::<T::Heading>(&mut lines);
        lines
    }
}

impl<'a, T: ListTally<'a>> ListText<'a, T> {
    /// The number of the line of the item at a place, or of `end` behind the last one.
    pub fn number_of(&self, place: usize) -> u64
        requires { place + 1 < 2 ^ 63 }
        ensures { result ≡ self.now.lines.number + 1 + place }
    {
        self.lines.number() + 1 + place as u64
    }
}

/// The item whose line stands next, which the reader passes; `None` at the `end` of a part with
/// such items.
pub fn next_item<'a, K: LineKind<'a>>(lines: &mut Lines<'a>) -> Option<K>
    ensures next { IfSome result (λ value. (items : List K)
        → Remains K.Fits K.written lines.old.rest items
        → NextItem K.Fits K.written items value lines.new.rest) }
    ensures none { IfNone result ((items : List K)
        → Remains K.Fits K.written lines.old.rest items → items ≡ []) }
    ensures unchanged { IfNone result (lines.new ≡ lines.old) }
    ensures fewer { IfSome result (λ _. length lines.new.rest < length lines.old.rest) }
{
    K::laws();
    next_of(lines)
}
