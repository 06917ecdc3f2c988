//! Lists of items, one a line, and what is counted of them while they are passed.

ghost use Rattle.std.specs.Prelude.{◌≡◌, List, [], ◌∷◌, ◌++◌, IfOk};
ghost use Rattle.std.specs.Bool.{OnFalse, OnTrue};
ghost use Rattle.pls_lines.specs.ListPart.{Begun, IsListKind};

use crate::line_kind::LineKind;
use pls_streams::NoMemory;
use std::alloc::Global;

/// The lists that one part of an input can be, as what is counted of their items.
pub trait ListTally<'a>: Sized + Drop {
    /// What the first line of the part says; where it is one word alone, it says nothing.
    type Heading: LineKind<'a>;

    /// What each line between heading and `end` says.
    type Item: LineKind<'a>;

    /// The items are those of a part: each fits, and they stand in an order that the part allows.
    ghost Are: { List Self.Item → Type 0 };

    /// What is counted of items.
    ghost tally: { List Self.Item → Self };

    /// What is counted of no item.
    fn none() -> Self
        ensures { result ≡ tally [] };

    /// Counts one item more, if it may follow those that were counted; else nothing changes.
    fn take(&mut self, item: &Self::Item) -> bool
        requires { Self.Item.Fits item.now }
        ensures begun { OnTrue result ((front : List Self.Item) → Begun Are front
            → self.old ≡ tally front → Begun Are (front ++ item.now ∷ [])) }
        ensures counted { OnTrue result ((front : List Self.Item) → Begun Are front
            → self.old ≡ tally front → self.new ≡ tally (front ++ item.now ∷ [])) }
        ensures other { OnFalse result ((front : List Self.Item) → Begun Are front
            → self.old ≡ tally front → Begun Are (front ++ item.now ∷ []) → ⊥) }
        ensures unchanged { OnFalse result (self.new ≡ self.old) };

    /// Whether the items that were counted may be all.
    fn is_whole(&self) -> bool
        ensures whole { OnTrue result ((items : List Self.Item) → Begun Are items
            → self.now ≡ tally items → Are items) }
        ensures other { OnFalse result ((items : List Self.Item) → Begun Are items
            → self.now ≡ tally items → Are items → ⊥) };

    /// The items of a part fit, and there is a part and a heading.
    ghost list_law: { IsListKind Self.Heading.Fits Self.Item.Fits Are };

    /// The law, for generic code.
    final fn laws()
        ensures { IsListKind Self.Heading.Fits Self.Item.Fits Are }
    {}
}

/// Lists of which a line is kept for each item, that lends nothing of the text.
pub trait Keep<'a>: ListTally<'a> {
    /// The form in which items are kept.
    type Line: Drop;

    /// What an item is kept as.
    ghost line: { Self.Item → Self.Line };

    /// Turns an item into what is kept of it. The one refusal is want of memory.
    fn line_of(alloc: Global, item: Self::Item) -> Result<Self::Line, NoMemory>
        ensures { IfOk result (λ kept. kept ≡ line item) };
}
