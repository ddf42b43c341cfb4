// Worked examples: what the definitions give for them, and that the functions answer just that.
ghost use Rattle.std.specs.Prelude.{◌≡◌, Ok};
ghost use Rattle.interval.specs.Spans.{answered, ends};
ghost use Rattle.interval.specs.Examples.{WorkedAllowance, WorkedMeeting};
ghost use Rattle.interval.specs.declared.top.Top.TheVariants.{Closed};

use crate::allowance::allowance;
use crate::fault::{MeetingFault, RuleFault};
use crate::interval::Interval;
use crate::meeting::meeting;
use crate::top::Top;

// The meeting at quorum 2 of [0, 10], [10, 20] and [0, 20].
pub fn worked_meeting() -> Result<Interval, MeetingFault>
    ensures defined { WorkedMeeting }
    ensures answers { answered result ≡ Ok (ends 0 (Closed 20)) }
{
    let intervals = [
        Interval::ordered(0, Top::Closed(10)),
        Interval::ordered(10, Top::Closed(20)),
        Interval::ordered(0, Top::Closed(20)),
    ];
    meeting(&intervals, 2)
}

// The allowance of 400 ms at 100 ppm.
#[tactic(auto, unfolding(crate::specs::Allowances::allowance))]
pub fn worked_allowance() -> Result<u64, RuleFault>
    ensures defined { WorkedAllowance }
    ensures answers { result ≡ Ok 1 }
{
    allowance(400, 100)
}
