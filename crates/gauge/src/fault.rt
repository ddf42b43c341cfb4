// Why a gauge has no answer to a row, and where in the pile that arose.
ghost use Rattle.gauge.specs.Faults.{gauge_number, gauge_told};

use crate::path::Path;
use interval::fault::{NO_MEETING, Refusal};
use interval::told::Told;
use std::alloc::AllocError;

// The numbers of the refusals that only gauges have; `interval` says why they are constants.
const MISSING: u32 = 1;

const OFF_SCALE: u32 = 2;

const IMPOSSIBLE: u32 = 3;

const NOTHING_SHARED: u32 = 4;

#[derive(Clone, Copy, PartialEq, Eq, Debug)]
pub enum GaugeFault {
    // The row has no reading for the channel.
    Missing { channel: u16, path: Path },
    // The code is above every code that a converter gives.
    OffScale { channel: u16, code: u16, path: Path },
    // No outage could have left the code.
    Impossible { channel: u16, code: u16, path: Path },
    // Two parts that must both be right share no time.
    NothingShared { path: Path },
    // Too few of the parts agree; `lost` of them gave no answer.
    NoMeeting { lost: u32, path: Path },
}

impl Refusal for GaugeFault {
    ghost numbered = { gauge_number };

    ghost tells = { gauge_told };

    fn number(&self) -> u32 {
        match self {
            GaugeFault::Missing { .. } => MISSING,
            GaugeFault::OffScale { .. } => OFF_SCALE,
            GaugeFault::Impossible { .. } => IMPOSSIBLE,
            GaugeFault::NothingShared { .. } => NOTHING_SHARED,
            GaugeFault::NoMeeting { .. } => NO_MEETING,
        }
    }

    fn told(&self) -> Told {
        match self {
            GaugeFault::Missing { channel, path } => {
                Told::three(*channel as u64, 0, path.number() as u64)
            }
            GaugeFault::OffScale {
                channel,
                code,
                path,
            }
            | GaugeFault::Impossible {
                channel,
                code,
                path,
            } => Told::three(*channel as u64, *code as u64, path.number() as u64),
            GaugeFault::NothingShared { path } => Told::one(path.number() as u64),
            GaugeFault::NoMeeting { lost, path } => {
                Told::two(*lost as u64, path.number() as u64)
            }
        }
    }
}

// The heap had no room for what was to be made. It is no refusal, so it has no number. The project's rules name it, so it is
// not the library's `AllocError`.
#[derive(Clone, Copy, Debug)]
pub struct NoMemory;

impl From<AllocError> for NoMemory {
    fn from(_: AllocError) -> NoMemory {
        NoMemory
    }
}
