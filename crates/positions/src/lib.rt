// A set of positions, the places 0 to 63, as one 64-bit number: place k is in the set where bit k is set.
// A method takes its sets by value and hands a set back. Each contract says of every place whether the result has it.
#![tactic(auto)]

ghost use Rattle.std.specs.Prelude.{◌≡◌, false, not, ◌||◌, ◌&&◌, ℕ, suc, ◌+◌, ◌-◌, ◌≤◌, ◌<◌, eqb, leb, ltb};
ghost use Rattle.telling.specs.Tells.{some};
ghost use Rattle.positions.specs.Member.{has, Is, Lowest};

// All places but 0, so that moved up by i it has the places after i.
const ABOVE_ZERO: u64 = u64::MAX - 1;

#[repr(C)]
#[derive(Clone, Copy)]
pub struct PositionSet {
    pub bits: u64,
}

impl PositionSet {
    // No place.
    #[tactic(auto, using(crate::proofs::Laws::has_none))]
    pub fn empty() -> Self
        ensures { Is result.bits (λ k. false) }
    {
        Self { bits: 0 }
    }

    // Place i alone.
    #[tactic(auto, using(crate::proofs::Laws::has_shl_one_64))]
    pub fn one(i: usize) -> Self
        requires { i ≤ 63 }
        ensures { Is result.bits (λ k. eqb k i) }
    {
        Self { bits: 1 << i }
    }

    // The set with place i added.
    #[tactic(auto, using(crate::proofs::Laws::has_or, crate::proofs::Laws::has_shl_one_64))]
    pub fn with(self, i: usize) -> Self
        requires { i ≤ 63 }
        ensures { Is result.bits (λ k. has self.bits k || eqb k i) }
    {
        Self {
            bits: self.bits | (1 << i),
        }
    }

    // The set, with place i added where yes.
    pub fn with_if(self, i: usize, yes: bool) -> Self
        requires { i ≤ 63 }
        ensures { Is result.bits (λ k. has self.bits k || (yes && eqb k i)) }
    {
        if yes { self.with(i) } else { self }
    }

    // The set where yes, and no place where not.
    pub fn only_if(self, yes: bool) -> Self
        ensures { Is result.bits (λ k. has self.bits k && yes) }
    {
        if yes { self } else { PositionSet::empty() }
    }

    // The places of either set.
    #[tactic(auto, using(crate::proofs::Laws::has_or))]
    pub fn joined(self, other: PositionSet) -> Self
        ensures { Is result.bits (λ k. has self.bits k || has other.bits k) }
    {
        Self {
            bits: self.bits | other.bits,
        }
    }

    // The places of both sets.
    #[tactic(auto, using(crate::proofs::Laws::has_and))]
    pub fn common(self, other: PositionSet) -> Self
        ensures { Is result.bits (λ k. has self.bits k && has other.bits k) }
    {
        Self {
            bits: self.bits & other.bits,
        }
    }

    // The places of the set that the other lacks.
    #[tactic(auto, using(crate::proofs::Laws::has_and_not_64))]
    pub fn without(self, other: PositionSet) -> Self
        ensures { Is result.bits (λ k. has self.bits k && not (has other.bits k)) }
    {
        Self {
            bits: self.bits & !other.bits,
        }
    }

    // All places 0 to n.
    #[tactic(auto, using(crate::proofs::Laws::has_upto_64))]
    pub fn full(n: usize) -> Self
        requires { n ≤ 63 }
        ensures { Is result.bits (λ k. leb k n) }
    {
        Self {
            bits: u64::MAX >> (63 - n),
        }
    }

    // The places 0 to n that the set lacks.
    pub fn others(self, n: usize) -> Self
        requires { n ≤ 63 }
        ensures { Is result.bits (λ k. leb k n && not (has self.bits k)) }
    {
        PositionSet::full(n).without(self)
    }

    // The set's places up to n.
    pub fn cut(self, n: usize) -> Self
        requires { n ≤ 63 }
        ensures { Is result.bits (λ k. has self.bits k && leb k n) }
    {
        self.common(PositionSet::full(n))
    }

    // The set's places from i on.
    #[tactic(auto, using(crate::proofs::Laws::has_from_64))]
    pub fn from(self, i: usize) -> Self
        requires { i ≤ 63 }
        ensures { Is result.bits (λ k. has self.bits k && leb i k) }
    {
        Self {
            bits: (self.bits >> i) << i,
        }
    }

    // The set's places after i.
    #[tactic(auto, using(crate::proofs::Laws::has_after))]
    pub fn after(self, i: usize) -> Self
        requires { i ≤ 63 }
        ensures { Is result.bits (λ k. has self.bits k && ltb i k) }
    {
        Self {
            bits: self.bits & (ABOVE_ZERO << i),
        }
    }

    // Each place moved down by d; the places below d are dropped.
    #[tactic(auto, using(crate::proofs::Laws::has_down))]
    pub fn down_by(self, d: usize) -> Self
        requires { d ≤ 63 }
        ensures { Is result.bits (λ k. has self.bits (d + k)) }
    {
        Self {
            bits: self.bits >> d,
        }
    }

    // Each place moved down by one; place 0 is dropped.
    #[tactic(auto, using(crate::proofs::Laws::has_suc))]
    pub fn down(self) -> Self
        ensures { Is result.bits (λ k. has self.bits (suc k)) }
    {
        Self {
            bits: self.bits >> 1,
        }
    }

    // Each place moved up by one; place 63 is dropped.
    #[tactic(auto, using(crate::proofs::Laws::has_doubled))]
    pub fn up(self) -> Self
        ensures { Is result.bits (λ k. (leb 1 k && has self.bits (k - 1)) && ltb k 64) }
    {
        Self {
            bits: self.bits << 1,
        }
    }

    // Whether place i is in the set.
    #[tactic(auto, using(crate::proofs::Laws::has_test))]
    pub fn has(self, i: usize) -> bool
        requires { i ≤ 63 }
        ensures { result ≡ has self.bits i }
    {
        (self.bits >> i) & 1 == 1
    }

    // Whether the set has no place.
    #[tactic(auto, using(crate::proofs::Laws::is_none))]
    pub fn is_empty(self) -> bool
        ensures { result ≡ not (some (has self.bits) 0 64) }
    {
        self.bits == 0
    }

    // Whether the two sets have a place in common.
    pub fn meets(self, other: PositionSet) -> bool
        ensures { result ≡ some (λ k. has self.bits k && has other.bits k) 0 64 }
    {
        !self.common(other).is_empty()
    }

    // Whether the other set has each place of the set.
    pub fn within(self, other: PositionSet) -> bool
        ensures { result ≡ not (some (λ k. has self.bits k && not (has other.bits k)) 0 64) }
    {
        self.without(other).is_empty()
    }

    // The lowest place of the set, and 64 of the empty set: who asks has a set that is not empty, or compares the place with the last one.
    #[tactic(auto, using(crate::proofs::Lowest::trailing_lowest))]
    pub fn lowest(self) -> usize
        ensures { Lowest 64 self.bits result }
    {
        self.bits.trailing_zeros() as usize
    }

    // The set without its lowest place l: the set is not empty.
    #[tactic(auto, using(crate::proofs::Lowest::has_rest))]
    pub fn rest(self) -> Self
        requires { 0 < self.bits }
        ensures without_lowest { (l : ℕ) → Lowest 64 self.bits l → Is result.bits (λ k. has self.bits k && not (eqb k l)) }
        ensures smaller { result.bits < self.bits }
    {
        Self {
            bits: self.bits & (self.bits - 1),
        }
    }
}
