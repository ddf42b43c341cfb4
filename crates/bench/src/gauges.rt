// Two tiers and a counter, and what each makes of its rows.
use crate::answer::Answer;
use crate::row::Row;
use gauge::gauge::Gauge;
use leaf::breakpoint::Breakpoint;
use leaf::counter::Counter;
use leaf::tier::Tier;
use leaf::worked::worked_tier;
use std::io;

pub(crate) fn run(rt: &HostRuntime) -> io::Result<()> {
    worked(rt)?;
    never_full(rt)?;
    for period in [100, 0, 1001] {
        counter(rt, period)?;
    }
    Ok(())
}

// The tier of the worked example, on channel 0.
fn worked(rt: &HostRuntime) -> io::Result<()> {
    let Ok(tier) = worked_tier(rt.alloc()) else {
        return println!(rt; "tier on channel 0: no memory");
    };
    let rows: [&[u16]; 9] = [
        &[4095],
        &[3200],
        &[2000],
        &[1000],
        &[61],
        &[60],
        &[0, 7],
        &[4096],
        &[],
    ];
    report(rt, "tier on channel 0", &tier, &rows)
}

// A tier whose converter never reads above 3500, on channel 2. Its third breakpoint is no later than the second.
fn never_full(rt: &HostRuntime) -> io::Result<()> {
    let Ok(mut tier) = Tier::new(rt.alloc(), 2) else {
        return println!(rt; "tier on channel 2: no memory");
    };
    for (time, lowest, highest) in [(0, 3000, 3500), (10, 1000, 1500), (10, 900, 1400)] {
        let added = tier.add(Breakpoint::new(time, lowest, highest));
        if let Err(fault) = added {
            let refused = Answer::refused(fault);
            println!(rt; "breakpoint ({time}, {lowest}, {highest}): {refused}")?;
        }
    }
    let rows: [&[u16]; 4] = [&[0, 0, 3500], &[0, 0, 1500], &[0, 0, 3501], &[0, 0]];
    report(rt, "tier on channel 2", &tier, &rows)
}

// A counter of the period on channel 1.
fn counter(rt: &HostRuntime, period: u32) -> io::Result<()> {
    match Counter::new(1, period) {
        Ok(counter) => {
            let rows: [&[u16]; 5] = [
                &[4095, 0],
                &[4095, 10],
                &[4095, 65_534],
                &[4095, 65_535],
                &[4095],
            ];
            report(rt, "counter on channel 1", &counter, &rows)
        }
        Err(fault) => {
            let refused = Answer::refused(fault);
            println!(rt; "counter of period {period}: {refused}")
        }
    }
}

// The three numbers of the gauge, and its answer to each row.
fn report<G: Gauge>(rt: &HostRuntime, name: &str, gauge: &G, rows: &[&[u16]]) -> io::Result<()> {
    let reach = gauge.reach();
    let width = gauge.width();
    let ceiling = gauge.ceiling();
    println!(rt; "{name}: reach {reach}, width {width}, ceiling {ceiling}")?;
    for row in rows {
        let answer = Answer::from(gauge.measure(row));
        let row = Row { readings: row };
        println!(rt; "{name}, row {row}: {answer}")?;
    }
    Ok(())
}
