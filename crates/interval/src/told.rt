// The numbers that a refusal tells, in their order: one, two or three of them.
ghost use Rattle.std.specs.Prelude.{◌≡◌, ◌≤◌, [], ◌∷◌, length};
ghost use Rattle.interval.specs.Numbers.{listed};

#[derive(Clone, Copy)]
pub struct Told {
    numbers: Numbers,
    ghost few: { length (listed numbers) ≤ 3 },
}

#[derive(Clone, Copy)]
enum Numbers {
    One([u64; 1]),
    Two([u64; 2]),
    Three([u64; 3]),
}

// Three makers, and not one over an array of any length: that one would need a precondition, and no public function
// has one. Contracts read the list by `told_numbers`: a type that is `Copy` has a model only if it can be made again from
// its list, which takes more to say than this.
impl Told {
    ghost use Rattle.interval.specs.Told.{told_numbers};

    pub fn one(a: u64) -> Told
        ensures { told_numbers result ≡ a ∷ [] }
    {
        Told {
            numbers: Numbers::One([a]),
        }
    }

    pub fn two(a: u64, b: u64) -> Told
        ensures { told_numbers result ≡ a ∷ b ∷ [] }
    {
        Told {
            numbers: Numbers::Two([a, b]),
        }
    }

    pub fn three(a: u64, b: u64, c: u64) -> Told
        ensures { told_numbers result ≡ a ∷ b ∷ c ∷ [] }
    {
        Told {
            numbers: Numbers::Three([a, b, c]),
        }
    }

    pub fn as_slice(&self) -> &[u64]
        ensures { result.now ≡ told_numbers self.now }
    {
        match &self.numbers {
            Numbers::One(numbers) => numbers.as_slice(),
            Numbers::Two(numbers) => numbers.as_slice(),
            Numbers::Three(numbers) => numbers.as_slice(),
        }
    }
}
