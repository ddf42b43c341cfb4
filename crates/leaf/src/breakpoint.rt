// A breakpoint of a tier: the lowest and the highest code that the converter may read at a time after the power went.
ghost use Rattle.leaf.specs.Breakpoints.{breakpoint, follows, starts, within};
ghost use Rattle.std.specs.Prelude.{◌≡◌};

// The highest code of the converter.
pub(crate) const TOP_CODE: u16 = 4095;

// The latest time of a breakpoint.
const LATEST: u64 = 100_000_000;

#[derive(Clone, Copy)]
pub struct Breakpoint {
    pub time: u64,
    pub lowest: u16,
    pub highest: u16,
}

impl Breakpoint {
    pub fn new(time: u64, lowest: u16, highest: u16) -> Breakpoint
        ensures { result ≡ breakpoint time lowest highest }
    {
        Breakpoint {
            time,
            lowest,
            highest,
        }
    }

    // Whether it may be the first of a tier.
    pub(crate) fn starts(&self) -> bool
        ensures { result ≡ starts self.now }
    {
        self.time == 0 && self.within()
    }

    // Whether it may come after the breakpoint `last`: later, and its codes no higher.
    pub(crate) fn follows(&self, last: &Breakpoint) -> bool
        ensures { result ≡ follows last.now self.now }
    {
        last.time < self.time
            && self.lowest <= last.lowest
            && self.highest <= last.highest
            && self.within()
    }

    // Whether its codes and its time are in range.
    fn within(&self) -> bool
        ensures { result ≡ within self.now }
    {
        self.lowest <= self.highest && self.highest <= TOP_CODE && self.time <= LATEST
    }
}
