// The curve of a tier: breakpoints whose times rise and whose codes never do, the cells between them, and the search
// among these for those that admit a code.
ghost use Rattle.leaf.specs.Breakpoints.{in_rule, most_breakpoints};
ghost use Rattle.std.specs.Prelude.{◌≡◌, ◌≤◌, true, vec_capacity};

use crate::breakpoint::{Breakpoint, TOP_CODE};
use crate::cell::Cell;
use gauge::fault::NoMemory;
use interval::fault::RuleFault;
use interval::interval::Interval;
use interval::top::Top;
use std::alloc::Global;

// The most breakpoints of a curve.
const MOST_BREAKPOINTS: usize = 16;

#[derive(Drop)]
pub struct Curve {
    breakpoints: Vec<Breakpoint>,
    ghost ruled: { in_rule breakpoints.items ≡ true },
    ghost room: { most_breakpoints ≤ vec_capacity breakpoints },
}

impl Curve {
    ghost use Rattle.interval.specs.Spans.{span};
    ghost use Rattle.leaf.specs.Breakpoints.{add_answer, added};
    ghost use Rattle.leaf.specs.Cells.{cells, last_highest, last_time, tail};
    ghost use Rattle.leaf.specs.Searches.{FirstAdmitting, LastAdmitting};
    ghost use Rattle.leaf.specs.Tiers.{by_code, closed_width, tier_reach, tier_width};
    ghost use Rattle.std.specs.Option.{option_map};
    ghost use Rattle.std.specs.Prelude.{◌<◌, [], ◌∷◌, ◌++◌, IfOk, length, slice_index_or};

    // A curve with no breakpoints yet.
    pub(crate) fn new(heap: Global) -> Result<Curve, NoMemory>
        ensures { IfOk result (λ curve. curve.breakpoints.items ≡ []) }
    {
        let breakpoints = Vec::with_capacity(heap, MOST_BREAKPOINTS)?;
        Ok(Curve { breakpoints })
    }

    // One breakpoint more. One that breaks the rules is refused, with the number that it would have had.
    pub(crate) fn add(&mut self, breakpoint: Breakpoint) -> Result<(), RuleFault>
        ensures answers { result ≡ add_answer self.old.breakpoints.items breakpoint }
        ensures becomes { self.new.breakpoints.items ≡ added self.old.breakpoints.items breakpoint }
    {
        if !self.may_add(&breakpoint) {
            return Err(RuleFault {
                place: self.breakpoints.len() as u64,
            });
        }
        self.breakpoints.push_reserved(breakpoint);
        Ok(())
    }

    // Whether the breakpoints keep the rules with this one after them.
    #[tactic(auto, using(crate::specs::BreakpointsLemmas::next_in_rule))]
    fn may_add(&self, breakpoint: &Breakpoint) -> bool
        ensures { result ≡ in_rule (self.now.breakpoints.items ++ breakpoint.now ∷ []) }
    {
        if self.breakpoints.len() >= MOST_BREAKPOINTS {
            return false;
        }
        match self.breakpoints.last() {
            Some(last) => breakpoint.follows(last),
            None => breakpoint.starts(),
        }
    }

    // The time of the last breakpoint, or 0.
    pub(crate) fn last_time(&self) -> u64
        ensures { result ≡ last_time self.now.breakpoints.items }
    {
        self.breakpoints.last().map_or(0, |last| last.time)
    }

    // The highest code of the last breakpoint, or the highest of all codes.
    fn last_highest(&self) -> u16
        ensures { result ≡ last_highest self.now.breakpoints.items }
    {
        self.breakpoints
            .last()
            .map_or(TOP_CODE, |last| last.highest)
    }

    fn tail(&self) -> Cell
        ensures { result ≡ tail self.now.breakpoints.items }
    {
        Cell {
            from: self.last_time(),
            to: Top::Open,
            lowest: 0,
            highest: self.last_highest(),
        }
    }

    // How many cells there are, the tail counted.
    #[tactic(auto, using(crate::proofs::Cells::cells_length))]
    fn cell_count(&self) -> usize
        ensures { result ≡ length (cells self.now.breakpoints.items) }
    {
        self.breakpoints.len().max(1)
    }

    // Cell number `i`; the tail is the last, and stands for all past it.
    #[tactic(auto, using(crate::proofs::Cells::cell_at, crate::proofs::Cells::tail_from))]
    fn cell(&self, i: usize) -> Cell
        ensures { result ≡ slice_index_or (cells self.now.breakpoints.items) i (tail self.now.breakpoints.items) }
    {
        let points = self.breakpoints.as_slice();
        if i < points.len().saturating_sub(1) {
            Cell::between(points[i], points[i + 1])
        } else {
            self.tail()
        }
    }

    // The first cell that admits the code, found by a `loop` that breaks with its number: the project fixes this form
    // (docs/DECISIONS.md). Cells are tried one by one: their codes overlap, so they are in no order to look a code up by. The
    // tail is tried apart, for speed: `cell` would ask again of each whether it is the tail. So also in `last_admitting`.
    #[tactic(auto, using(crate::proofs::Cells::cell_at))]
    fn first_admitting(&self, code: u16) -> Option<usize>
        ensures { FirstAdmitting code (cells self.now.breakpoints.items) result }
    {
        let points = self.breakpoints.as_slice();
        let closed = self.cell_count() - 1;
        let mut at = 0;
        let first = loop {
            if at >= closed {
                if self.tail().admits(code) {
                    break at;
                }
                return None;
            }
            if Cell::between(points[at], points[at + 1]).admits(code) {
                break at;
            }
            at += 1;
        };
        Some(first)
    }

    // The last cell from `first` on that admits the code, or `first` itself.
    fn last_admitting(&self, code: u16, first: usize) -> usize
        requires { first < length (cells self.now.breakpoints.items) }
        ensures { LastAdmitting code (cells self.now.breakpoints.items) first result }
    {
        let closed = self.cell_count() - 1;
        if self.tail().admits(code) {
            return closed;
        }
        let points = self.breakpoints.as_slice();
        (first..closed)
            .filter(|&i| Cell::between(points[i], points[i + 1]).admits(code))
            .fold(first, |_, i| i)
    }

    // From the start of the first cell that admits the code to the end of the last, or none where none does.
    pub(crate) fn by_code(&self, code: u16) -> Option<Interval>
        ensures { option_map span result ≡ by_code self.now.breakpoints.items code }
    {
        let first = self.first_admitting(code)?;
        let last = self.last_admitting(code, first);
        let start = self.cell(first);
        let end = self.cell(last);
        Some(match end.to {
            Top::Closed(top) => Interval::between(start.from, top),
            Top::Open => Interval::at_least(start.from),
        })
    }

    // The time of the last breakpoint whose lowest code is above every code that may come from the tail, or 0.
    pub(crate) fn last_time_above_tail(&self) -> u64
        ensures { result ≡ tier_reach self.now.breakpoints.items }
    {
        let tail_highest = self.last_highest();
        self.breakpoints.iter().fold(0, |time, breakpoint| {
            if tail_highest < breakpoint.lowest {
                breakpoint.time
            } else {
                time
            }
        })
    }

    // The greatest width of a closed answer, over all codes. Only codes above those of the tail get a closed top. Of
    // these, the lowest that a cell admits has the widest answer of all that begin with this cell, so it is tried alone.
    pub(crate) fn greatest_width(&self) -> u64
        ensures { result ≡ tier_width self.now.breakpoints.items }
    {
        let closing = self.last_highest() + 1;
        self.breakpoints
            .iter()
            .map(|breakpoint| self.closed_width(breakpoint.lowest.max(closing)))
            .fold(0, |greatest, width| greatest.max(width))
    }

    // How far the top of the answer to the code is above the lower end; 0 where it is open or there is none.
    fn closed_width(&self, code: u16) -> u64
        ensures { result ≡ closed_width (by_code self.now.breakpoints.items code) }
    {
        let Some(interval) = self.by_code(code) else {
            return 0;
        };
        match interval.top() {
            Top::Closed(top) => top - interval.lower(),
            Top::Open => 0,
        }
    }
}
