//! Which of an actor's ends may be unsettled.
ghost use Rattle.std.specs.Prelude.{◌≡◌, ◌≤◌, ◌<◌, ◌+◌, ◌%◌, ℕ, true, false};
ghost use Rattle.std.specs.Int.{bit_at};

/// Ends that may be unsettled, by their places: of each of the first 64 there is a bit.
#[derive(Clone, Copy, Debug)]
pub struct Loose {
    pub bits: u64,
}

impl Loose {
    /// Each end may be.
    pub fn all() -> Loose
        ensures { (k : ℕ) → k < 64 → bit_at result.bits k ≡ 1 }
    {
        Loose { bits: u64::MAX }
    }

    /// The end at a place may be too. The bit of the place is set, and each other one stays.
    #[inline(always)]
    pub fn with(self, place: usize) -> Loose
        ensures one { bit_at result.bits (place % 64) ≡ 1 }
        ensures others { (k : ℕ) → (k ≡ place % 64 → ⊥) → bit_at result.bits k
            ≡ bit_at self.bits k }
        ensures clear { (k : ℕ) → k < 64 → bit_at result.bits k ≡ 0 → bit_at self.bits k ≡ 0 }
        ensures set { (k : ℕ) → k < 64 → bit_at result.bits k ≡ 0 → k ≡ place → ⊥ }
    {
        let bit = (place % 64) as u32;
        Loose {
            bits: self.bits | 1u64 << bit,
        }
    }

    /// All but the end at a place, if that is settled. The bit of the place is cleared then, and
    /// each other one stays.
    #[inline(always)]
    pub fn unless_settled(self, place: usize, settled: bool) -> Loose
        requires { place < 64 }
        ensures less { (k : ℕ) → k < 64 → bit_at result.bits k ≡ 0 → (k ≡ place → settled ≡ false)
            → bit_at self.bits k ≡ 0 }
        ensures none { settled ≡ true → bit_at result.bits place ≡ 0 }
        ensures others { (k : ℕ) → k < 64 → (k ≡ place → settled ≡ false)
            → bit_at result.bits k ≡ bit_at self.bits k }
    {
        if !settled {
            return self;
        }
        let bit = place as u32;
        Loose {
            bits: self.bits & !(1u64 << bit),
        }
    }

    /// The place of the next of them from a place on; where there is none, that place and 64 more,
    /// which is past all of them.
    #[inline(always)]
    pub fn next(self, place: usize) -> usize
        requires { place < 64 }
        ensures on { place ≤ result }
        ensures small { result < 128 }
        ensures between { (k : ℕ) → place ≤ k → k < result → bit_at self.bits k ≡ 0 }
        ensures set { result < 64 → bit_at self.bits result ≡ 1 }
        ensures none { 64 ≤ result → result ≡ place + 64 }
    {
        let rest = self.bits >> (place as u32);
        place + rest.trailing_zeros() as usize
    }
}
