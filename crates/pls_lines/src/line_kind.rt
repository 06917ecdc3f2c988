//! Kinds of line, and how the next line is read as one.

ghost use Rattle.std.specs.Prelude.{◌≡◌, ℕ, ◌<◌, ◌≤◌, ◌^◌, List, [], ◌∷◌, ◌++◌, length, IfNone, IfSome};
ghost use Rattle.pls_lines.specs.Lines.{Passes, Stands};
ghost use Rattle.pls_lines.specs.LineKind.{IsLineKind, PassesAll, Says};

use crate::lines::Lines;

/// A kind of line. A value is what one line of the kind says; it may lend parts of the line.
pub trait LineKind<'a>: Sized + Drop {
    /// The line that says the value.
    ghost written: { Self → List ℕ };

    /// The value's parts are in their ranges.
    ghost Fits: { Self → Type 0 };

    /// The value whose line stands at the front of a text, and what follows its line feed; `None`
    /// where no such line stands there, finished by its line feed.
    fn read(text: &'a [u8]) -> Option<(Self, &'a [u8])>
        ensures fits { IfSome result (λ read. Fits read.0) }
        ensures stands { IfSome result (λ read. text.now ≡ written read.0 ++ 10 ∷ read.1.now) }
        ensures none { IfNone result (Stands (Says Fits written) text.now → ⊥) };

    /// No line has a line feed or is `end`, and each says one value.
    ghost kind_law: { IsLineKind Fits written };

    /// The law, for generic code.
    final fn laws()
        ensures { IsLineKind Fits written }
    {}
}

/// What the next line says, which the reader passes; `None` where no line of the kind stands next,
/// finished by its line feed, and then the reader stays.
pub fn next_of<'a, K: LineKind<'a>>(lines: &mut Lines<'a>) -> Option<K>
    ensures fits { IfSome result (λ value. K.Fits value) }
    ensures passed { IfSome result (λ value. Passes lines.old lines.new (K.written value ∷ [])) }
    ensures none { IfNone result (Stands (Says K.Fits K.written) lines.old.rest → ⊥) }
    ensures unchanged { IfNone result (lines.new ≡ lines.old) }
    ensures fewer { IfSome result (λ _. length lines.new.rest < length lines.old.rest) }
    ensures small { lines.new.number ≤ 2 ^ 63 }
{
    let (value, rest) = K::read(lines.rest())?;
    lines.pass_to(rest);
    Some(value)
}

/// Passes the lines of a kind that stand next, as many as there are, and answers how many.
pub fn count_of<'a, K: LineKind<'a>>(lines: &mut Lines<'a>) -> u64
    ensures passed { PassesAll K.Fits K.written lines.old lines.new result }
    ensures none { Stands (Says K.Fits K.written) lines.new.rest → ⊥ }
    ensures no_more { length lines.new.rest ≤ length lines.old.rest }
    ensures small { lines.new.number ≤ 2 ^ 63 }
{
    let mut count = 0;
    while let Some(_) = next_of::<K>(lines) {
        count += 1;
    }
    count
}
