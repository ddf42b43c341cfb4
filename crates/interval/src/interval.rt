// An interval of time. Its type rules out a closed top below the lower end; a contract speaks of its two ends as its span.
ghost use Rattle.std.specs.Prelude.{◌≡◌, true};
ghost use Rattle.interval.specs.Tops.{at_most};

use crate::fault::RuleFault;
use crate::top::Top;
use std::fmt;

// No model: whoever holds intervals in an array, an option or a struct of their own may still index and copy these, and a
// law may use the order of the ends.
#[derive(Clone, Copy, PartialEq, Eq, Debug)]
pub struct Interval {
    lower: u64,
    top: Top,
    ghost ordered: { at_most lower top ≡ true },
}

impl Interval {
    ghost use Rattle.interval.specs.Shared.{shared, SharedPoints};
    ghost use Rattle.interval.specs.Spans.{answered, ends, made_span, span, holds, InOrder};
    ghost use Rattle.interval.specs.declared.top.Top.TheVariants.{Closed, Open};
    ghost use Rattle.std.specs.Option.{option_map};
    ghost use Rattle.std.specs.Prelude.{min, max};

    // The interval from `lower` to `top`; a closed top below the lower end is refused.
    pub fn new(lower: u64, top: Top) -> Result<Interval, RuleFault>
        ensures { answered result ≡ made_span lower top }
    {
        if top < Top::Closed(lower) {
            return Err(RuleFault { place: lower });
        }
        Ok(Interval { lower, top })
    }

    // The interval from the lesser of two times to the greater.
    pub fn between(one: u64, other: u64) -> Interval
        ensures { span result ≡ ends (min one other) (Closed (max one other)) }
    {
        Interval {
            lower: one.min(other),
            top: Top::Closed(one.max(other)),
        }
    }

    // The interval of all times that are at least `lower`.
    pub fn at_least(lower: u64) -> Interval
        ensures { span result ≡ ends lower Open }
    {
        Interval {
            lower,
            top: Top::Open,
        }
    }

    // The interval with ends that are known to be in order.
    pub(crate) fn ordered(lower: u64, top: Top) -> Interval
        requires { at_most lower top ≡ true }
        ensures { span result ≡ ends lower top }
    {
        Interval { lower, top }
    }

    pub fn lower(&self) -> u64
        ensures end { result ≡ (span self.now).lower }
        ensures ordered { InOrder (span self.now) }
    {
        self.lower
    }

    pub fn top(&self) -> Top
        ensures end { result ≡ (span self.now).top }
        ensures ordered { InOrder (span self.now) }
    {
        self.top
    }

    // Whether the time `x` lies in the interval, both ends included.
    pub fn holds(&self, x: u64) -> bool
        ensures { result ≡ holds (span self.now) x }
    {
        x >= self.lower && Top::Closed(x) <= self.top
    }

    // The part that both intervals hold, or none where no time lies in both.
    pub fn shared(&self, other: &Interval) -> Option<Interval>
        ensures value { option_map span result ≡ shared (span self.now) (span other.now) }
        ensures points { SharedPoints (span self.now) (span other.now) (option_map span result) }
    {
        let lower = self.lower.max(other.lower);
        let top = self.top.min(other.top);
        Interval::new(lower, top).ok()
    }
}

// As `[lower, top]`, or as `[lower, open)`.
impl fmt::Display for Interval {
    fn fmt<W: fmt::Write>(&self, f: &mut fmt::Formatter<W>) -> fmt::Result {
        let lower = self.lower;
        match self.top {
            Top::Closed(top) => write!(f, "[{lower}, {top}]"),
            Top::Open => write!(f, "[{lower}, open)"),
        }
    }
}
