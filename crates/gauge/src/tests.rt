// Paths at the length where they stop growing, and what each fault tells.
use crate::fault::GaugeFault;
use crate::path::{Path, Place};
use interval::fault::Refusal;

// A path of `digits` places, each the first.
fn firsts(digits: u32) -> Path {
    let mut path = Path::start();
    for _ in 0..digits {
        path = path.under(Place::First);
    }
    path
}

#[test]
fn a_place_goes_in_front(rt: HostRuntime) {
    let path = Path::start();
    assert_eq!(rt; path.number(), 0);
    // digits 1, then 2 1, then 3 2 1
    assert_eq!(rt; path.under(Place::First).number(), 1);
    assert_eq!(rt; path.under(Place::First).under(Place::Second).number(), 9);
    let three = path
        .under(Place::First)
        .under(Place::Second)
        .under(Place::Third);
    assert_eq!(rt; three.number(), 57);
}

// Fourteen digits 1 are (4^14 - 1) / 3, fifteen (4^15 - 1) / 3.
#[test]
fn a_path_stays_at_fifteen_digits(rt: HostRuntime) {
    assert_eq!(rt; firsts(14).number(), 89_478_485);
    let full = firsts(14).under(Place::Third);
    assert_eq!(rt; full.number(), 89_478_485 + 3 * 268_435_456);
    assert_eq!(rt; full.under(Place::Second).number(), full.number());
    assert_eq!(rt; firsts(15).number(), 357_913_941);
    assert_eq!(rt; firsts(16).number(), 357_913_941);
}

#[test]
fn places_are_numbered_from_0(rt: HostRuntime) {
    assert_eq!(rt; Place::First as u32, 0);
    assert_eq!(rt; Place::Second as u32, 1);
    assert_eq!(rt; Place::Third as u32, 2);
    assert_eq!(rt; Place::First.digit(), 1);
    assert_eq!(rt; Place::Second.digit(), 2);
    assert_eq!(rt; Place::Third.digit(), 3);
}

fn number_of(fault: GaugeFault) -> u32 {
    fault.number()
}

// A fault may be used again after it was passed by value.
#[test]
fn a_fault_is_copied(rt: HostRuntime) {
    let fault = GaugeFault::NothingShared {
        path: Path::start(),
    };
    assert_eq!(rt; number_of(fault), 4);
    assert_eq!(rt; number_of(fault), 4);
    assert_eq!(rt; (fault, fault).1, fault);
}

#[test]
fn each_fault_has_its_number_and_tells(rt: HostRuntime) {
    let path = Path::start().under(Place::Second);
    let missing = GaugeFault::Missing { channel: 7, path };
    assert_eq!(rt; missing.number(), 1);
    assert_eq!(rt; missing.told().as_slice(), [7, 0, 2].as_slice());
    let off_scale = GaugeFault::OffScale {
        channel: 7,
        code: 4096,
        path,
    };
    assert_eq!(rt; off_scale.number(), 2);
    assert_eq!(rt; off_scale.told().as_slice(), [7, 4096, 2].as_slice());
    let impossible = GaugeFault::Impossible {
        channel: 7,
        code: 4095,
        path,
    };
    assert_eq!(rt; impossible.number(), 3);
    assert_eq!(rt; impossible.told().as_slice(), [7, 4095, 2].as_slice());
    let nothing_shared = GaugeFault::NothingShared { path };
    assert_eq!(rt; nothing_shared.number(), 4);
    assert_eq!(rt; nothing_shared.told().as_slice(), [2].as_slice());
    let no_meeting = GaugeFault::NoMeeting { lost: 3, path };
    assert_eq!(rt; no_meeting.number(), 5);
    assert_eq!(rt; no_meeting.told().as_slice(), [3, 2].as_slice());
}
