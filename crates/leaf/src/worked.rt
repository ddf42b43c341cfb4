// A worked tier: what the definitions give for it, and a tier that is just that.
ghost use Rattle.gauge.specs.Meaning.{SameMeaning};
ghost use Rattle.leaf.specs.Examples.{WorkedTier, worked_meaning};
ghost use Rattle.leaf.specs.TierData.{channel_of, points};
ghost use Rattle.leaf.specs.Tiers.{tier_meaning};
ghost use Rattle.leaf.specs.contracts.tier.TierGauge.TheImpl.{ghosts};
ghost use Rattle.std.specs.Prelude.{◌≡◌, IfOk};

use crate::breakpoint::Breakpoint;
use crate::tier::Tier;
use gauge::fault::NoMemory;
use std::alloc::Global;

// The tier on channel 0 with the breakpoints (0, 4000, 4095), (100, 3000, 3300), (1000, 800, 1200) and (5000, 0, 60).
pub fn worked_tier(heap: Global) -> Result<Tier, NoMemory>
    ensures defined { WorkedTier }
    ensures makes { IfOk result (λ tier. SameMeaning (ghosts.meaning tier) worked_meaning) }
{
    filled(heap)
}

// The same tier, by its channel and breakpoints; the function above says what the gauge made of them means.
fn filled(heap: Global) -> Result<Tier, NoMemory>
    ensures defined { WorkedTier }
    ensures holds { IfOk result (λ tier. SameMeaning (tier_meaning (channel_of tier) (points tier)) worked_meaning) }
{
    let mut tier = Tier::new(heap, 0)?;
    // None of them is refused: all keep the rules.
    let _ = tier.add(Breakpoint::new(0, 4000, 4095));
    let _ = tier.add(Breakpoint::new(100, 3000, 3300));
    let _ = tier.add(Breakpoint::new(1000, 800, 1200));
    let _ = tier.add(Breakpoint::new(5000, 0, 60));
    Ok(tier)
}
