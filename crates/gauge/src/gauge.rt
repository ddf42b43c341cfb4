// A gauge turns a row of readings into an interval that holds the length of the outage.
ghost use Rattle.gauge.specs.Meaning.{Meaning};
ghost use Rattle.gauge.specs.Shows.{Shows};
ghost use Rattle.interval.specs.Spans.{answered};
ghost use Rattle.std.specs.Prelude.{◌≡◌};

use crate::fault::GaugeFault;
use interval::interval::Interval;

pub trait Gauge {
    // Which outages may leave which rows, what each row is answered, and the three numbers.
    ghost meaning: { Self → Meaning };

    // The length of the outage that left this row, one reading a channel, channel 0 first.
    fn measure(&self, row: &[u16]) -> Result<Interval, GaugeFault>
        ensures { answered result ≡ (meaning self.now).answer row.now };

    // Outages below the reach get a closed top.
    fn reach(&self) -> u64
        ensures { result ≡ (meaning self.now).reach };

    // How far such a top is above the lower end at most.
    fn width(&self) -> u64
        ensures { result ≡ (meaning self.now).width };

    // The time that no end of an answer passes.
    fn ceiling(&self) -> u64
        ensures { result ≡ (meaning self.now).ceiling };

    // What every gauge owes.
    ghost shows: { (g : Self) → Shows (meaning g) };
}
