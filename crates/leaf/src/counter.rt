// A counter that counts periods while the power is gone.
ghost use Rattle.leaf.specs.Counters.{period_in_rule};
ghost use Rattle.std.specs.Prelude.{◌≡◌, true};

use crate::reading::reading;
use gauge::fault::GaugeFault;
use gauge::gauge::Gauge;
use interval::fault::RuleFault;
use interval::interval::Interval;

// The longest period, in milliseconds.
const MAX_PERIOD: u32 = 1000;

// The greatest reading, at which the counter stops.
const STOP: u16 = 65_535;

// The range stands in the value: what a gauge owes is proved of the value alone, and a model would hide it.
#[derive(Clone, Copy)]
pub struct Counter {
    channel: u16,
    period: u32,
    ghost ruled: { period_in_rule period ≡ true },
}

impl Counter {
    ghost use Rattle.gauge.specs.Meaning.{SameMeaning};
    ghost use Rattle.interval.specs.Faults.{out_of_rule};
    ghost use Rattle.interval.specs.Spans.{span};
    ghost use Rattle.leaf.specs.Counters.{CounterLaws, counted, counter_meaning};
    ghost use Rattle.leaf.specs.contracts.counter.CounterGauge.TheImpl.{ghosts};
    ghost use Rattle.std.specs.Prelude.{false, MatchResult};

    // A counter on the channel that counts periods of so many milliseconds; a period out of its range is refused.
    pub fn new(channel: u16, period: u32) -> Result<Counter, RuleFault>
        ensures makes { MatchResult result (λ counter. (period_in_rule period ≡ true) × SameMeaning (ghosts.meaning counter) (counter_meaning channel period)) (λ fault. (period_in_rule period ≡ false) × (fault ≡ out_of_rule period)) }
        ensures laws { CounterLaws }
    {
        if !(1..=MAX_PERIOD).contains(&period) {
            return Err(RuleFault {
                place: period as u64,
            });
        }
        Ok(Counter { channel, period })
    }

    // The outages that leave the reading `count`.
    fn counted(&self, count: u16) -> Interval
        ensures { span result ≡ counted self.now.period count }
    {
        let period = self.period as u64;
        let lower = count as u64 * period;
        if count < STOP {
            Interval::between(lower, (count as u64 + 1) * period)
        } else {
            Interval::at_least(lower)
        }
    }
}

impl Gauge for Counter {
    ghost use Rattle.leaf.specs.Counters.{counter_meaning};
    ghost use Rattle.leaf.specs.CountersLemmas.{counter_shows};
    ghost use Rattle.std.proofs.Common.{rules};

    ghost meaning = { λ counter. counter_meaning counter.channel counter.period };

    ghost shows = { λ counter. let shown = counter_shows counter.period counter.ruled counter.channel in Prim.search rules };

    fn measure(&self, row: &[u16]) -> Result<Interval, GaugeFault> {
        let count = reading(row, self.channel)?;
        Ok(self.counted(count))
    }

    fn reach(&self) -> u64 {
        STOP as u64 * self.period as u64
    }

    fn width(&self) -> u64 {
        self.period as u64
    }

    fn ceiling(&self) -> u64 {
        self.reach()
    }
}
