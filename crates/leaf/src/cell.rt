// A cell of a tier: a stretch of outages, and the codes that any of them may leave.
ghost use Rattle.leaf.specs.Cells.{admits, cell_between};
ghost use Rattle.std.specs.Prelude.{◌≡◌};

use crate::breakpoint::Breakpoint;
use interval::top::Top;

#[derive(Clone, Copy)]
pub struct Cell {
    pub from: u64,
    pub to: Top,
    pub lowest: u16,
    pub highest: u16,
}

impl Cell {
    // The cell from a breakpoint to the next.
    pub(crate) fn between(start: Breakpoint, end: Breakpoint) -> Cell
        ensures { result ≡ cell_between start end }
    {
        Cell {
            from: start.time,
            to: Top::Closed(end.time),
            lowest: end.lowest,
            highest: start.highest,
        }
    }

    pub(crate) fn admits(&self, code: u16) -> bool
        ensures { result ≡ admits code self.now }
    {
        self.lowest <= code && code <= self.highest
    }
}
