// Sets of parts, in two words.
ghost use Rattle.std.specs.Prelude.{◌≡◌, ℕ, ◌<◌, T, IfSome, IfNone};
ghost use Rattle.flat_order.specs.Sets.{has_part, single, joined, removed, met, no_parts, IsLowest};

use std::ops::{BitAnd, BitOr, Sub};

// A set of parts: part x is bit x of `low`, and from 64 on bit x - 64 of `high`.
#[derive(Clone, Copy, PartialEq, Eq)]
pub struct PartSet {
    pub low: u64,
    pub high: u64,
}

impl PartSet {
    pub const EMPTY: PartSet = PartSet { low: 0, high: 0 };

    // The set of part x alone.
    pub fn single(x: usize) -> PartSet
        requires { x < 128 }
        ensures { result ≡ single x }
    {
        let bit = 1 << (x % 64);
        if x < 64 {
            PartSet { low: bit, high: 0 }
        } else {
            PartSet { low: 0, high: bit }
        }
    }

    // Whether part x is in the set.
    #[tactic(auto, unfolding(crate::specs::Sets::has_part))]
    pub fn has(self, x: usize) -> bool
        requires { x < 128 }
        ensures { result ≡ has_part self x }
    {
        if x < 64 {
            tips::has_tip(self.low, x)
        } else {
            tips::has_tip(self.high, x - 64)
        }
    }

    // The lowest part of the set.
    pub(crate) fn lowest(self) -> Option<usize>
        ensures some { IfSome result (λ x. (x < 128) × IsLowest self x) }
        ensures none { IfNone result ((x : ℕ) → T (has_part self x) → ⊥) }
    {
        if self.low != 0 {
            return Some(tips::lowest(self.low));
        }
        if self.high != 0 {
            return Some(64 + tips::lowest(self.high));
        }
        None
    }
}

impl BitOr for PartSet {
    type Output = PartSet;

    ghost bitor_gives = { λ s t r. r ≡ joined s t };

    #[tactic(auto, unfolding(crate::specs::Sets::joined))]
    fn bitor(self, other: PartSet) -> PartSet {
        PartSet {
            low: self.low | other.low,
            high: self.high | other.high,
        }
    }
}

impl BitAnd for PartSet {
    type Output = PartSet;

    ghost bitand_gives = { λ s t r. r ≡ met s t };

    #[tactic(auto, unfolding(crate::specs::Sets::met))]
    fn bitand(self, other: PartSet) -> PartSet {
        PartSet {
            low: self.low & other.low,
            high: self.high & other.high,
        }
    }
}

// The parts of the first set that are not in the second.
impl Sub for PartSet {
    type Output = PartSet;

    ghost sub_gives = { λ s t r. r ≡ removed s t };

    #[tactic(auto, unfolding(crate::specs::Sets::removed))]
    fn sub(self, other: PartSet) -> PartSet {
        PartSet {
            low: self.low ^ (self.low & other.low),
            high: self.high ^ (self.high & other.high),
        }
    }
}
