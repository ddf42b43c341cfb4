// The meeting of intervals at a quorum, found by trying the ends of the intervals themselves.
ghost use Rattle.std.specs.Prelude.{◌≡◌, ◌<◌, min};
ghost use Rattle.std.specs.Option.{unwrap_or};
ghost use Rattle.interval.specs.Ends.{LeastPoint, GreatestPoint, Found};
ghost use Rattle.interval.specs.Meetings.{spans, holders, quorate, open_tops, in_rule, MeetingAnswer, MeetingLaws};

use crate::fault::MeetingFault;
use crate::interval::Interval;
use crate::top::Top;

// The most intervals that a meeting is asked for.
pub const MOST_INTERVALS: usize = 8;

// The smallest interval that holds every time lying in at least `quorum` of the intervals.
#[tactic(auto, using(crate::proofs::Meetings::meeting_laws))]
pub fn meeting(intervals: &[Interval], quorum: u32) -> Result<Interval, MeetingFault>
    ensures answers { MeetingAnswer intervals.now quorum result }
    ensures laws { MeetingLaws }
{
    let enough = quorum as usize;
    if !in_rule(intervals.len(), enough) {
        return Err(MeetingFault::OutOfRule { quorum });
    }
    let ballot = Ballot {
        intervals,
        quorum: enough,
    };
    ballot.found().ok_or(MeetingFault::Empty)
}

// Whether a meeting may be asked for of so many intervals at this quorum.
fn in_rule(count: usize, quorum: usize) -> bool
    ensures { result ≡ in_rule count quorum }
{
    1 <= quorum && quorum <= count && count <= MOST_INTERVALS
}

// Intervals that are to meet, and how many of them must hold a time.
#[derive(Clone, Copy)]
struct Ballot<'a> {
    intervals: &'a [Interval],
    quorum: usize,
    ghost positive: { 0 < quorum },
}

impl<'a> Ballot<'a> {
    // The meeting, or none where no time lies in enough of the intervals.
    fn found(&self) -> Option<Interval>
        ensures finds { Found (spans self.now.intervals.now) self.now.quorum result }
        ensures laws { MeetingLaws }
    {
        let lower = self.least_end()?;
        let top = if self.open_tops() >= self.quorum {
            Top::Open
        } else {
            Top::Closed(self.greatest_end(lower))
        };
        Some(Interval::ordered(lower, top))
    }

    // How many of the intervals hold `x`, counted by a `for`: the project fixes this form (docs/DECISIONS.md).
    #[tactic(auto, using(crate::proofs::Counts::count_mapped))]
    fn holders(&self, x: u64) -> usize
        ensures { result ≡ holders (spans self.now.intervals.now) x }
    {
        let mut count = 0;
        for interval in self.intervals {
            if interval.holds(x) {
                count += 1;
            }
        }
        count
    }

    // Whether enough of the intervals hold `x`.
    fn quorate(&self, x: u64) -> bool
        ensures { result ≡ quorate (spans self.now.intervals.now) self.now.quorum x }
    {
        self.holders(x) >= self.quorum
    }

    // How many of the intervals have an open top.
    #[tactic(auto, using(crate::proofs::Counts::count_mapped))]
    fn open_tops(&self) -> usize
        ensures { result ≡ open_tops (spans self.now.intervals.now) }
    {
        self.intervals
            .iter()
            .filter(|interval| interval.top().is_open())
            .count()
    }

    // The least lower end that enough of the intervals hold.
    fn least_end(&self) -> Option<u64>
        ensures { LeastPoint (spans self.now.intervals.now) self.now.quorum result }
    {
        self.intervals
            .iter()
            .map(|interval| interval.lower())
            .filter(|&end| self.quorate(end))
            .fold(None, |least, end| Some(lesser(least, end)))
    }

    // The greatest of `floor` and the closed tops that enough of the intervals hold.
    fn greatest_end(&self, floor: u64) -> u64
        ensures { GreatestPoint (spans self.now.intervals.now) self.now.quorum floor result }
    {
        self.intervals
            .iter()
            .filter_map(|interval| interval.top().closed_time())
            .filter(|&end| self.quorate(end))
            .fold(floor, |greatest, end| greatest.max(end))
    }
}

// The lesser of the least end so far, if there is one, and another end. Apart from the chain that calls it, so that it has a
// clause of its own.
fn lesser(least: Option<u64>, end: u64) -> u64
    ensures { result ≡ min (unwrap_or least end) end }
{
    least.unwrap_or(end).min(end)
}
