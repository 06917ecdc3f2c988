//! Kinds of line of which some close what stands before them.

ghost use Rattle.std.specs.Prelude.{◌≡◌, ℕ, Bool, IfOk};
ghost use Rattle.pls_closing.specs.Closing.{HasClosing};

use pls_lines::LineKind;
use pls_streams::NoMemory;
use std::alloc::Global;

/// A kind of line of which some close what stands before them.
pub trait ClosingLine<'a>: LineKind<'a> {
    /// The line closes.
    ghost closes: { Self → Bool };

    /// How many bits the label has that the line gives; none where it gives none.
    ghost bits: { Self → ℕ };

    /// A part may have no line.
    ghost may_lack: { Bool };

    /// Whether the line closes what stands before it.
    fn closes(&self) -> bool
        ensures { result ≡ closes self.now };

    /// How many bits the label has that the line gives, 0 where it gives none.
    fn bits(&self) -> u64
        ensures { result ≡ bits self.now };

    /// Whether a part may have no line.
    fn may_lack() -> bool
        ensures { result ≡ may_lack };

    /// Some line closes.
    ghost closing_law: { HasClosing Self.Fits Self.closes };

    /// The law, for generic code.
    final fn closing_laws()
        ensures { HasClosing Self.Fits Self.closes }
    {}
}

/// A kind of line of which is kept what it says, and nothing of the text.
pub trait OwnLine<'a>: ClosingLine<'a> {
    /// What is kept of a line.
    type Line: Drop;

    /// What is kept of a line.
    ghost line: { Self → Self.Line };

    /// What is kept of the line. The one refusal is want of memory.
    fn into_line(self, alloc: Global) -> Result<Self::Line, NoMemory>
        ensures { IfOk result (λ kept. kept ≡ line self) };
}
