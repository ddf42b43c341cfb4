// The top of an interval: closed at a time, or open where nothing is known of how far it goes.
ghost use Rattle.std.specs.Prelude.{◌≡◌};
ghost use Rattle.interval.specs.Tops.{closed_time, is_open};

// Tops in their order: the later a closed one the higher, and an open one above all of these. No `Option`: the project
// fixes this form (docs/DECISIONS.md), and `None` would stand below every time.
#[derive(Clone, Copy, PartialEq, Eq, PartialOrd, Ord, Debug)]
pub enum Top {
    Closed(u64),
    Open,
}

impl Top {
    // The time at which the top is closed, or none where it is open. By name and not by `From`: the name says what it is.
    pub fn closed_time(&self) -> Option<u64>
        ensures { result ≡ closed_time self.now }
    {
        match self {
            Top::Closed(t) => Some(*t),
            Top::Open => None,
        }
    }

    pub fn is_open(&self) -> bool
        ensures { result ≡ is_open self.now }
    {
        matches!(self, Top::Open)
    }
}
