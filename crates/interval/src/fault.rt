// The refusals of this crate, and what every refusal has: its number and the numbers that it tells.
ghost use Rattle.std.specs.Prelude.{◌≡◌, ℕ, List};
ghost use Rattle.interval.specs.Faults.{meeting_number, meeting_told, rule_number, rule_told};
ghost use Rattle.interval.specs.Told.{told_numbers};

use crate::told::Told;

// The numbers of the refusals. No enum has them all: they are told as numbers, and a crate above adds its own.
pub const NO_MEETING: u32 = 5;

const OUT_OF_RULE: u32 = 19;

pub trait Refusal {
    // The number of the refusal, and the numbers told with it, in their order.
    ghost numbered: { Self → ℕ };

    ghost tells: { Self → List ℕ };

    fn number(&self) -> u32
        ensures { result ≡ numbered self.now };

    fn told(&self) -> Told
        ensures { told_numbers result ≡ tells self.now };
}

// A value that breaks the rule of its kind; the place is that value.
#[derive(Clone, Copy, PartialEq, Eq, Debug)]
pub struct RuleFault {
    pub place: u64,
}

impl Refusal for RuleFault {
    ghost numbered = { rule_number };

    ghost tells = { rule_told };

    fn number(&self) -> u32 {
        OUT_OF_RULE
    }

    fn told(&self) -> Told {
        Told::one(self.place)
    }
}

// Why intervals have no meeting: no time lies in enough of them, or their number or the quorum is out of rule.
#[derive(Clone, Copy, PartialEq, Eq, Debug)]
pub enum MeetingFault {
    Empty,
    OutOfRule { quorum: u32 },
}

impl Refusal for MeetingFault {
    ghost numbered = { meeting_number };

    ghost tells = { meeting_told };

    fn number(&self) -> u32 {
        match self {
            MeetingFault::Empty => NO_MEETING,
            MeetingFault::OutOfRule { quorum: _ } => OUT_OF_RULE,
        }
    }

    fn told(&self) -> Told {
        match self {
            MeetingFault::Empty => Told::two(0, 0),
            MeetingFault::OutOfRule { quorum } => Told::one(*quorum as u64),
        }
    }
}
