// The corners of tiers and counters, with values worked out by hand.
use crate::breakpoint::Breakpoint;
use crate::counter::Counter;
use crate::tier::Tier;
use gauge::fault::GaugeFault;
use gauge::gauge::Gauge;
use gauge::path::Path;
use interval::fault::RuleFault;
use interval::interval::Interval;
use std::test::Fail;

// A tier on channel 1 with the breakpoints (0, 3000, 4095) and (10, 2000, 2500).
fn falling(rt: &HostRuntime) -> Result<Tier, Fail> {
    let mut tier = Tier::new(rt.alloc(), 1)?;
    tier.add(Breakpoint::new(0, 3000, 4095))?;
    tier.add(Breakpoint::new(10, 2000, 2500))?;
    Ok(tier)
}

#[test]
fn the_first_breakpoint_has_rules(rt: HostRuntime) -> Result<(), Fail> {
    let mut tier = Tier::new(rt.alloc(), 1)?;
    let refused = Err(RuleFault { place: 0 });
    assert_eq!(rt; tier.add(Breakpoint::new(1, 3000, 4095)), refused);
    assert_eq!(rt; tier.add(Breakpoint::new(0, 3001, 3000)), refused);
    assert_eq!(rt; tier.add(Breakpoint::new(0, 3000, 4096)), refused);
    assert_eq!(rt; tier.add(Breakpoint::new(0, 4095, 4095)), Ok(()));
    Ok(())
}

#[test]
fn the_next_breakpoint_has_rules(rt: HostRuntime) -> Result<(), Fail> {
    let mut tier = falling(&rt)?;
    let refused = Err(RuleFault { place: 2 });
    assert_eq!(rt; tier.add(Breakpoint::new(9, 1000, 1500)), refused);
    assert_eq!(rt; tier.add(Breakpoint::new(10, 1000, 1500)), refused);
    assert_eq!(rt; tier.add(Breakpoint::new(100_000_001, 1000, 1500)), refused);
    assert_eq!(rt; tier.add(Breakpoint::new(20, 1501, 1500)), refused);
    assert_eq!(rt; tier.add(Breakpoint::new(20, 2001, 2500)), refused);
    assert_eq!(rt; tier.add(Breakpoint::new(20, 2000, 2501)), refused);
    // none of them has changed the tier
    assert_eq!(rt; tier.ceiling(), 10);
    assert_eq!(rt; tier.measure(&[0, 4095])?, Interval::between(0, 10));
    assert_eq!(rt; tier.measure(&[0, 1000])?, Interval::at_least(10));
    assert_eq!(rt; tier.add(Breakpoint::new(100_000_000, 2000, 2500)), Ok(()));
    assert_eq!(rt; tier.ceiling(), 100_000_000);
    Ok(())
}

#[test]
fn a_tier_has_sixteen_breakpoints(rt: HostRuntime) -> Result<(), Fail> {
    let mut tier = Tier::new(rt.alloc(), 1)?;
    for time in 0..16 {
        tier.add(Breakpoint::new(time, 100, 200))?;
    }
    assert_eq!(rt;
        tier.add(Breakpoint::new(16, 100, 200)),
        Err(RuleFault { place: 16 })
    );
    assert_eq!(rt; tier.ceiling(), 15);
    Ok(())
}

#[test]
fn an_empty_tier_tells_nothing(rt: HostRuntime) -> Result<(), Fail> {
    let tier = Tier::new(rt.alloc(), 0)?;
    assert_eq!(rt; tier.measure(&[0])?, Interval::at_least(0));
    assert_eq!(rt; tier.measure(&[4095])?, Interval::at_least(0));
    let off_scale = GaugeFault::OffScale {
        channel: 0,
        code: 4096,
        path: Path::start(),
    };
    assert_eq!(rt; tier.measure(&[4096]), Err(off_scale));
    assert_eq!(rt; tier.reach(), 0);
    assert_eq!(rt; tier.width(), 0);
    assert_eq!(rt; tier.ceiling(), 0);
    Ok(())
}

#[test]
fn a_tier_reads_its_channel(rt: HostRuntime) -> Result<(), Fail> {
    let tier = falling(&rt)?;
    assert_eq!(rt; tier.measure(&[0, 4095])?, Interval::between(0, 10));
    assert_eq!(rt; tier.measure(&[0, 2501])?, Interval::between(0, 10));
    assert_eq!(rt; tier.measure(&[0, 2500])?, Interval::at_least(0));
    assert_eq!(rt; tier.measure(&[0, 1999, 7])?, Interval::at_least(10));
    let off_scale = GaugeFault::OffScale {
        channel: 1,
        code: 4096,
        path: Path::start(),
    };
    assert_eq!(rt; tier.measure(&[0, 4096]), Err(off_scale));
    let missing = GaugeFault::Missing {
        channel: 1,
        path: Path::start(),
    };
    assert_eq!(rt; tier.measure(&[4095]), Err(missing));
    assert_eq!(rt; tier.measure(&[]), Err(missing));
    // 3000 of breakpoint 0 is above 2500, the highest of the last; its time is 0
    assert_eq!(rt; tier.reach(), 0);
    assert_eq!(rt; tier.width(), 10);
    Ok(())
}

#[test]
fn a_code_that_no_cell_admits_is_impossible(rt: HostRuntime) -> Result<(), Fail> {
    let mut tier = Tier::new(rt.alloc(), 0)?;
    tier.add(Breakpoint::new(0, 3000, 3500))?;
    tier.add(Breakpoint::new(10, 1000, 1500))?;
    assert_eq!(rt; tier.measure(&[3500])?, Interval::between(0, 10));
    let impossible = GaugeFault::Impossible {
        channel: 0,
        code: 3501,
        path: Path::start(),
    };
    assert_eq!(rt; tier.measure(&[3501]), Err(impossible));
    Ok(())
}

#[test]
fn a_counter_stops(rt: HostRuntime) -> Result<(), Fail> {
    let counter = Counter::new(0, 1000)?;
    assert_eq!(rt; counter.measure(&[0])?, Interval::between(0, 1000));
    assert_eq!(rt;
        counter.measure(&[65_534])?,
        Interval::between(65_534_000, 65_535_000)
    );
    assert_eq!(rt; counter.measure(&[65_535])?, Interval::at_least(65_535_000));
    let missing = GaugeFault::Missing {
        channel: 0,
        path: Path::start(),
    };
    assert_eq!(rt; counter.measure(&[]), Err(missing));
    assert_eq!(rt; counter.reach(), 65_535_000);
    assert_eq!(rt; counter.width(), 1000);
    assert_eq!(rt; counter.ceiling(), 65_535_000);
    Ok(())
}

fn refused_period(period: u32) -> Option<RuleFault> {
    Counter::new(0, period).err()
}

#[test]
fn a_period_has_a_range(rt: HostRuntime) {
    assert_eq!(rt; refused_period(0), Some(RuleFault { place: 0 }));
    assert_eq!(rt; refused_period(1), None);
    assert_eq!(rt; refused_period(1000), None);
    assert_eq!(rt; refused_period(1001), Some(RuleFault { place: 1001 }));
}
