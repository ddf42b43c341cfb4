// The corners of intervals, allowances and meetings, with values worked out by hand.
use crate::allowance::{MAX_TOLERANCE, allowance};
use crate::fault::{MeetingFault, Refusal, RuleFault};
use crate::interval::Interval;
use crate::meeting::meeting;
use crate::top::Top;
use std::test::Fail;

fn closed(lower: u64, top: u64) -> Result<Interval, RuleFault> {
    Interval::new(lower, Top::Closed(top))
}

fn open(lower: u64) -> Result<Interval, RuleFault> {
    Interval::new(lower, Top::Open)
}

#[test]
fn a_point_is_an_interval(rt: HostRuntime) -> Result<(), Fail> {
    let point = closed(5, 5)?;
    assert!(rt; point.holds(5));
    assert!(rt; !point.holds(4));
    assert!(rt; !point.holds(6));
    assert_eq!(rt; meeting(&[point], 1)?, point);
    Ok(())
}

#[test]
fn ends_out_of_order_are_refused(rt: HostRuntime) {
    let refused = RuleFault { place: 5 };
    assert_eq!(rt; closed(5, 4), Err(refused));
    assert_eq!(rt; refused.number(), 19);
    assert_eq!(rt; refused.told().as_slice(), [5].as_slice());
}

#[test]
fn between_takes_its_ends_in_either_order(rt: HostRuntime) -> Result<(), Fail> {
    assert_eq!(rt; Interval::between(5, 5), closed(5, 5)?);
    assert_eq!(rt; Interval::between(5, 4), closed(4, 5)?);
    Ok(())
}

#[test]
fn an_open_top_meets_a_closed_one(rt: HostRuntime) -> Result<(), Fail> {
    let both = [open(3)?, closed(1, 7)?];
    assert_eq!(rt; meeting(&both, 1)?, open(1)?);
    assert_eq!(rt; meeting(&both, 2)?, closed(3, 7)?);
    assert_eq!(rt; both[0].shared(&both[1]), Some(closed(3, 7)?));
    assert_eq!(rt; both[0].shared(&open(2)?), Some(open(3)?));
    Ok(())
}

#[derive(Clone, Copy)]
struct Weighed {
    interval: Interval,
    weight: u64,
}

fn weighed_lower(weighed: Weighed) -> u64 {
    weighed.interval.lower().saturating_mul(weighed.weight)
}

fn lower_or(interval: Option<Interval>, otherwise: u64) -> u64 {
    match interval {
        Some(interval) => interval.lower(),
        None => otherwise,
    }
}

// What holds an interval may be used again after it was passed by value, as the interval itself.
#[test]
fn what_holds_an_interval_is_copied(rt: HostRuntime) -> Result<(), Fail> {
    let interval = closed(3, 7)?;
    let weighed = Weighed {
        interval,
        weight: 2,
    };
    assert_eq!(rt; weighed_lower(weighed), 6);
    assert_eq!(rt; weighed_lower(weighed), 6);
    let some = Some(interval);
    assert_eq!(rt; lower_or(some, 9), 3);
    assert_eq!(rt; lower_or(some, 9), 3);
    Ok(())
}

// Interval i of eight runs from i to i + 10.
#[test]
fn eight_intervals_meet(rt: HostRuntime) -> Result<(), Fail> {
    let eight = [
        closed(0, 10)?,
        closed(1, 11)?,
        closed(2, 12)?,
        closed(3, 13)?,
        closed(4, 14)?,
        closed(5, 15)?,
        closed(6, 16)?,
        closed(7, 17)?,
    ];
    assert_eq!(rt; meeting(&eight, 1)?, closed(0, 17)?);
    assert_eq!(rt; meeting(&eight, 4)?, closed(3, 14)?);
    assert_eq!(rt; meeting(&eight, 8)?, closed(7, 10)?);
    Ok(())
}

#[test]
fn number_and_quorum_have_rules(rt: HostRuntime) -> Result<(), Fail> {
    let one = closed(0, 10)?;
    assert_eq!(rt; meeting(&[], 1), Err(MeetingFault::OutOfRule { quorum: 1 }));
    assert_eq!(rt;
        meeting(&[one; 9], 1),
        Err(MeetingFault::OutOfRule { quorum: 1 })
    );
    assert_eq!(rt;
        meeting(&[one; 2], 0),
        Err(MeetingFault::OutOfRule { quorum: 0 })
    );
    let refused = MeetingFault::OutOfRule { quorum: 3 };
    assert_eq!(rt; meeting(&[one; 2], 3), Err(refused));
    assert_eq!(rt; refused.number(), 19);
    assert_eq!(rt; refused.told().as_slice(), [3].as_slice());
    Ok(())
}

#[test]
fn intervals_apart_do_not_meet(rt: HostRuntime) -> Result<(), Fail> {
    let apart = [closed(0, 1)?, closed(3, 4)?];
    let refused = MeetingFault::Empty;
    assert_eq!(rt; meeting(&apart, 2), Err(refused));
    assert_eq!(rt; refused.number(), 5);
    assert_eq!(rt; refused.told().as_slice(), [0, 0].as_slice());
    assert_eq!(rt; apart[0].shared(&apart[1]), None);
    assert_eq!(rt; closed(0, 3)?.shared(&apart[1]), Some(closed(3, 3)?));
    Ok(())
}

#[test]
fn allowances_round_up(rt: HostRuntime) -> Result<(), Fail> {
    assert_eq!(rt; allowance(0, MAX_TOLERANCE)?, 0);
    assert_eq!(rt; allowance(1, 1)?, 1);
    assert_eq!(rt; allowance(1_000_000, 1)?, 1);
    assert_eq!(rt; allowance(1_000_001, 1)?, 2);
    assert_eq!(rt; allowance(1_000_001, 0)?, 0);
    assert_eq!(rt;
        allowance(7, MAX_TOLERANCE + 1),
        Err(RuleFault { place: 100_001 })
    );
    Ok(())
}

#[test]
fn the_largest_time_wraps_nothing(rt: HostRuntime) -> Result<(), Fail> {
    let most = u64::MAX;
    assert_eq!(rt; allowance(most, MAX_TOLERANCE)?, 1_844_674_407_370_955_162);
    let last = closed(most, most)?;
    assert_eq!(rt; meeting(&[open(most)?, closed(0, most)?], 2)?, last);
    assert_eq!(rt; last.top().closed_time(), Some(most));
    assert_eq!(rt; closed(most, 0), Err(RuleFault { place: most }));
    Ok(())
}
