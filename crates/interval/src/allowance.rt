// A tolerance, and the allowance of a time at it: by how much a time that a clock states may be wrong.
ghost use Rattle.std.specs.Prelude.{◌≡◌, ◌≤◌};
ghost use Rattle.interval.specs.Allowances.{AllowanceLaws, allowance, allowed, greatest_tolerance};

use crate::fault::RuleFault;

// The greatest tolerance, in parts per million.
pub const MAX_TOLERANCE: u32 = 100_000;

const MILLION: u128 = 1_000_000;

// The allowance of the time `x`; a tolerance out of its range is refused.
#[tactic(auto, using(crate::proofs::Allowances::allowance_laws))]
pub fn allowance(x: u64, tolerance: u32) -> Result<u64, RuleFault>
    ensures answers { result ≡ allowed x tolerance }
    ensures laws { AllowanceLaws }
{
    let tolerance = Tolerance::try_from(tolerance)?;
    Ok(tolerance.allowance(x))
}

// A tolerance in its range, in parts per million.
#[derive(Clone, Copy, PartialEq, Eq, Debug)]
pub struct Tolerance {
    ppm: u32,
    ghost in_range: { ppm ≤ greatest_tolerance },
}

impl TryFrom<u32> for Tolerance {
    type Error = RuleFault;

    ghost use Rattle.interval.specs.Tolerances.{MadeTolerance};

    ghost try_from_gives = { MadeTolerance };

    fn try_from(ppm: u32) -> Result<Tolerance, RuleFault> {
        if ppm > MAX_TOLERANCE {
            return Err(RuleFault { place: ppm as u64 });
        }
        Ok(Tolerance { ppm })
    }
}

impl Tolerance {
    ghost use Rattle.interval.specs.Tolerances.{ppm_of};

    // The allowance of the time `x`: x × tolerance / 1,000,000, rounded up.
    #[tactic(auto, using(crate::proofs::Allowances::allowance_laws), unfolding(crate::specs::Allowances::allowance))]
    pub fn allowance(self, x: u64) -> u64
        ensures value { result ≡ allowance x (ppm_of self) }
        ensures laws { AllowanceLaws }
    {
        (x as u128 * self.ppm as u128).div_ceil(MILLION) as u64
    }
}
