//! The lines of a watch, one after another.

ghost use Rattle.std.specs.Prelude.{◌≡◌, ◌∷◌, [], IfNone, IfSome};

use crate::watch_event::WatchLine;
use std::marker::Model;

// Memory is given back once for this many lines: to ask at each line would take longer than the
// line.
const PIECE: usize = 16_384;

/// The lines of a watch, taken one by one from the first on. The memory of lines that were taken is
/// given back now and then. Seen as the lines that are left.
#[derive(Drop)]
pub struct LineQueue {
    // The first of them stands last, so that what is free once it is taken can be given back.
    left: Vec<WatchLine>,
}

impl Model for LineQueue {
    ghost use Rattle.std.specs.Prelude.{List, reverse};
    ghost use Rattle.pls_watch_part.specs.declared.watch_event.WatchLine.{WatchLine};

    ghost Value = { List WatchLine };

    ghost view = { λ queue. reverse queue.left.items };
}

impl LineQueue {
    /// All lines are left. It takes no memory.
    pub fn of(lines: Vec<WatchLine>) -> LineQueue
        ensures { result ≡ lines.items }
    {
        let mut left = lines;
        left.reverse();
        LineQueue { left }
    }

    /// Takes the first line that is left; `None` where none is.
    pub fn take(&mut self) -> Option<WatchLine>
        ensures line { IfSome result (λ line. self.old ≡ line ∷ self.new) }
        ensures none { IfNone result (self.old ≡ []) }
        ensures unchanged { IfNone result (self.new ≡ []) }
    {
        let line = self.left.pop();
        if self.left.len() % PIECE == 0 {
            self.left.shrink_to_fit();
        }
        line
    }
}
