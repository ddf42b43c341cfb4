// A remanence tier: a capacitor that drains while the power is gone, read as a code.
ghost use Rattle.std.specs.Prelude.{◌≡◌};

use crate::breakpoint::{Breakpoint, TOP_CODE};
use crate::curve::Curve;
use crate::reading::reading;
use gauge::fault::{GaugeFault, NoMemory};
use gauge::gauge::Gauge;
use gauge::path::Path;
use interval::fault::RuleFault;
use interval::interval::Interval;
use std::alloc::Global;

// A tier has no model: what a gauge owes is proved of its value, and a model would hide the rules that the curve keeps. So
// public contracts read its two parts by `channel_of` and `points`.
#[derive(Drop)]
pub struct Tier {
    channel: u16,
    curve: Curve,
}

impl Tier {
    ghost use Rattle.gauge.specs.Meaning.{SameMeaning};
    ghost use Rattle.interval.specs.Spans.{answered};
    ghost use Rattle.leaf.specs.Breakpoints.{add_answer, added};
    ghost use Rattle.leaf.specs.TierData.{channel_of, points};
    ghost use Rattle.leaf.specs.TierLaws.{TierLaws};
    ghost use Rattle.leaf.specs.Tiers.{code_answer, tier_meaning};
    ghost use Rattle.leaf.specs.contracts.tier.TierGauge.TheImpl.{ghosts};
    ghost use Rattle.std.specs.Prelude.{[], IfOk};

    // A tier on the channel with no breakpoints, and room for all that it may get.
    #[tactic(auto, using(crate::proofs::TierLaws::tier_laws, crate::proofs::SameTiers::same_tier))]
    pub fn new(heap: Global, channel: u16) -> Result<Tier, NoMemory>
        ensures makes { IfOk result (λ tier. (channel_of tier ≡ channel) × (points tier ≡ []) × SameMeaning (ghosts.meaning tier) (tier_meaning channel [])) }
        ensures laws { TierLaws }
    {
        let curve = Curve::new(heap)?;
        Ok(Tier { channel, curve })
    }

    // One breakpoint more. One that breaks the rules is refused, with the number that it would have had.
    pub fn add(&mut self, breakpoint: Breakpoint) -> Result<(), RuleFault>
        ensures answers { result ≡ add_answer (points self.old) breakpoint }
        ensures becomes { points self.new ≡ added (points self.old) breakpoint }
        ensures same { channel_of self.new ≡ channel_of self.old }
        ensures means { SameMeaning (ghosts.meaning self.new) (tier_meaning (channel_of self.old) (added (points self.old) breakpoint)) }
    {
        self.curve.add(breakpoint)
    }

    // What the code of its channel is answered.
    fn code_answer(&self, code: u16) -> Result<Interval, GaugeFault>
        ensures { answered result ≡ code_answer self.now.channel (points self.now) code }
    {
        let channel = self.channel;
        let path = Path::start();
        if code > TOP_CODE {
            return Err(GaugeFault::OffScale {
                channel,
                code,
                path,
            });
        }
        self.curve.by_code(code).ok_or(GaugeFault::Impossible {
            channel,
            code,
            path,
        })
    }
}

impl Gauge for Tier {
    ghost use Rattle.leaf.specs.TierData.{points};
    ghost use Rattle.leaf.specs.Tiers.{tier_meaning};
    ghost use Rattle.leaf.specs.TiersLemmas.{ruled_shows};
    ghost use Rattle.std.proofs.Common.{rules};

    ghost meaning = { λ tier. tier_meaning tier.channel (points tier) };

    ghost shows = { λ tier. let shown = ruled_shows tier.channel (points tier) tier.curve.ruled in Prim.search rules };

    fn measure(&self, row: &[u16]) -> Result<Interval, GaugeFault> {
        let code = reading(row, self.channel)?;
        self.code_answer(code)
    }

    fn reach(&self) -> u64 {
        self.curve.last_time_above_tail()
    }

    fn width(&self) -> u64 {
        self.curve.greatest_width()
    }

    fn ceiling(&self) -> u64 {
        self.curve.last_time()
    }
}
