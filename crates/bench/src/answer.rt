// What the library answered, in the form in which the bench prints it.
ghost use Rattle.bench.specs.Answers.{Refuses};
ghost use Rattle.bench.specs.declared.answer.Answer.TheVariants.{Interval as ShownInterval, Nothing, Time};
ghost use Rattle.std.specs.Prelude.{◌≡◌, MatchOption, MatchResult};

use interval::fault::Refusal;
use interval::interval::Interval;
use interval::told::Told;
use std::fmt;

// No `Option` or `Result`: it is what is printed, whichever of these the library gave.
#[derive(Clone, Copy)]
pub enum Answer {
    Interval(Interval),
    Time(u64),
    Nothing,
    Refused { number: u32, told: Told },
}

impl From<Interval> for Answer {
    ghost from_gives = { λ value answer. answer ≡ ShownInterval value };

    fn from(value: Interval) -> Answer {
        Answer::Interval(value)
    }
}

impl From<u64> for Answer {
    ghost from_gives = { λ value answer. answer ≡ Time value };

    fn from(value: u64) -> Answer {
        Answer::Time(value)
    }
}

// A result is shown as its value or as its refusal.
impl<T: Into<Answer>, E: Refusal + Drop> From<Result<T, E>> for Answer {
    ghost from_gives = { λ result answer. MatchResult result (λ value. T.Into.converts value answer) (λ fault. Refuses answer (E.Refusal.numbered fault) (E.Refusal.tells fault)) };

    fn from(value: Result<T, E>) -> Answer {
        match value {
            Ok(value) => value.into(),
            Err(fault) => Answer::refused(fault),
        }
    }
}

// An option is shown as its value, or as nothing.
impl<T: Into<Answer>> From<Option<T>> for Answer {
    ghost from_gives = { λ option answer. MatchOption option (answer ≡ Nothing) (λ value. T.Into.converts value answer) };

    fn from(value: Option<T>) -> Answer {
        match value {
            Some(value) => value.into(),
            None => Answer::Nothing,
        }
    }
}

impl Answer {
    // A refusal as its number and the numbers that it tells. Not a `From`, which would overlap with those above.
    pub(crate) fn refused<E: Refusal + Drop>(fault: E) -> Answer
        ensures { Refuses result (E.Refusal.numbered fault) (E.Refusal.tells fault) }
    {
        Answer::Refused {
            number: fault.number(),
            told: fault.told(),
        }
    }
}

impl fmt::Display for Answer {
    fn fmt<W: fmt::Write>(&self, f: &mut fmt::Formatter<W>) -> fmt::Result {
        match self {
            Answer::Interval(interval) => write!(f, "{interval}"),
            Answer::Time(time) => write!(f, "{time} ms"),
            Answer::Nothing => write!(f, "nothing"),
            Answer::Refused { number, told } => {
                write!(f, "refusal {number}, told")?;
                for place in told.as_slice() {
                    write!(f, " {place}")?;
                }
                Ok(())
            }
        }
    }
}
