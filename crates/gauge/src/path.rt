// Where in a pile of gauges a fault arose. A path is one number: its base-4 digits are the places of the parts on the
// way down, the outermost first.
ghost use Rattle.std.specs.Prelude.{◌≡◌};
ghost use Rattle.gauge.specs.Paths.{PathLaws, digits, in_front, place_digit, start, under};

// The most digits that a path has; a path of so many stays as it is.
const MOST_DIGITS: u32 = 15;

const BASE: u32 = 4;

// The place of a part in the layer that holds it.
#[derive(Clone, Copy)]
pub enum Place {
    First,
    Second,
    Third,
}

// No model: a fault holds a path, and whoever holds faults in an option, a pair or a struct of their own may still copy these.
#[derive(Clone, Copy, PartialEq, Eq, Debug)]
pub struct Path {
    number: u32,
}

impl Place {
    // The digit that stands for the place. By name and not by `From`: the name says which number it is.
    pub fn digit(&self) -> u32
        ensures { result ≡ place_digit self.now }
    {
        *self as u32 + 1
    }
}

impl Path {
    // The path of a fault where it arises: no digits.
    pub fn start() -> Path
        ensures { result ≡ start }
    {
        Path { number: 0 }
    }

    // The path of a fault that the part at `place` hands up to its layer.
    pub fn under(self, place: Place) -> Path
        ensures value { result ≡ under (place_digit place) self }
        ensures laws { PathLaws }
    {
        Path {
            number: in_front(place, self.number),
        }
    }

    // The path as it is told; by name, as the digit is.
    pub fn number(&self) -> u32
        ensures { result ≡ self.now.number }
    {
        self.number
    }
}

// The number with the digit of the place in front of its own, unless it has fifteen already.
#[tactic(auto, using(crate::proofs::Paths::path_laws, crate::proofs::Paths::in_front_fits, crate::proofs::Paths::digit_small))]
fn in_front(place: Place, number: u32) -> u32
    ensures value { result ≡ in_front (place_digit place) number }
    ensures laws { PathLaws }
{
    let digits = digits(number);
    if digits >= MOST_DIGITS {
        return number;
    }
    place.digit() * BASE.pow(digits) + number
}

// How many base-4 digits the number has, counted up to fifteen; each takes two bits.
fn digits(number: u32) -> u32
    ensures { result ≡ digits number }
{
    if number == 0 {
        return 0;
    }
    (number.ilog2() / 2 + 1).min(MOST_DIGITS)
}
