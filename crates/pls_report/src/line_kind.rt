//! What the node of a line counts as at a look, and how many there are of each kind.

ghost use Rattle.std.specs.Prelude.{◌≡◌, ◌^◌, ◌<◌, length};
ghost use Rattle.pls_report.specs.inner.Lines.{HasLine, HasRoomForOne, counts_of, kind_of, with_line};

use crate::counting::{rejects, waits};
use crate::look_row::{LookRow, told_ports};

/// Whether the node of a line rejects, whether it waits, and whether the line tells of stale ports.
#[derive(Clone, Copy, Debug)]
pub(crate) struct LineKind {
    rejects: bool,
    waits: bool,
    tells_stale: bool,
}

impl LineKind {
    /// What a node counts as.
    pub(crate) fn of(row: &LookRow) -> LineKind
        ensures { result ≡ kind_of row.now }
    {
        LineKind {
            rejects: rejects(row.outcome()),
            waits: waits(row.outcome()),
            tells_stale: !told_ports(row.outcome(), row.stale()).is_empty(),
        }
    }
}

/// How many nodes reject, how many wait, and how many have a line with stale ports.
#[derive(Clone, Copy, Debug)]
pub(crate) struct LookCounts {
    pub(crate) rejecting: usize,
    pub(crate) waiting: usize,
    pub(crate) stale: usize,
}

impl LookCounts {
    /// What these rows count as.
    pub(crate) fn of(rows: &[LookRow]) -> LookCounts
        requires few { length rows.now < 2 ^ 63 }
        ensures { result ≡ counts_of rows.now }
    {
        let mut counts = LookCounts {
            rejecting: 0,
            waiting: 0,
            stale: 0,
        };
        for row in rows {
            counts.add(LineKind::of(row));
        }
        counts
    }

    /// Counts one node more.
    pub(crate) fn add(&mut self, kind: LineKind)
        requires { HasRoomForOne self.old }
        ensures { self.new ≡ with_line kind self.old }
    {
        self.rejecting += kind.rejects as usize;
        self.waiting += kind.waits as usize;
        self.stale += kind.tells_stale as usize;
    }

    /// Counts a node no more.
    pub(crate) fn take_away(&mut self, kind: LineKind)
        requires { HasLine kind self.old }
        ensures { self.old ≡ with_line kind self.new }
    {
        self.rejecting -= kind.rejects as usize;
        self.waiting -= kind.waits as usize;
        self.stale -= kind.tells_stale as usize;
    }
}
