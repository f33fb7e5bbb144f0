// Front and back of a queue: 64-bit signed numbers that wrap.
#![tactic(auto)]

ghost use Rattle.std.specs.Prelude.{◌≡◌, ◌^◌};
ghost use Rattle.std.specs.Int.Signed.{mag as magZ};
ghost use Rattle.std.specs.Int.{w64};
ghost use Rattle.std.proofs.Common.{to_z};
ghost use Rattle.index.specs.Index.{mod_z, plus_of, minus_of, difference_of, length_of, behind_b, empty_b, full_b, spans_b, cell_of};

#[derive(Clone, Copy, PartialEq, Eq)]
pub struct Index(pub i64);

// The number itself where it is not below zero, and otherwise how far it lies below -1; the library has no such magnitude.
pub fn mag(a: i64) -> u64
    ensures { result ≡ magZ a }
{
    if a >= 0 { a as u64 } else { (-1 - a) as u64 }
}

// The two's complement bits of a number.
pub fn bits(a: i64) -> u64
    ensures { result ≡ mod_z a (2 ^ 64) }
{
    a.cast_unsigned()
}

// The number with these two's complement bits.
pub fn signed(u: u64) -> i64
    ensures { result ≡ to_z w64 u }
{
    u.cast_signed()
}

impl Index {
    // The index n further on.
    #[tactic(auto, unfolding(crate::specs::Index::plus_of, crate::specs::Index::wrap))]
    pub fn plus(self, n: u64) -> Index
        ensures { result ≡ plus_of self n }
    {
        Index(self.0.wrapping_add_unsigned(n))
    }

    // The index n before.
    #[tactic(auto, unfolding(crate::specs::Index::minus_of, crate::specs::Index::wrap))]
    pub fn minus(self, n: u64) -> Index
        ensures { result ≡ minus_of self n }
    {
        Index(self.0.wrapping_sub_unsigned(n))
    }

    // This index as back, minus front. Below zero is an answer.
    #[tactic(auto, unfolding(crate::specs::Index::difference_of, crate::specs::Index::wrap))]
    pub fn difference(self, front: Index) -> i64
        ensures { result ≡ difference_of self front }
    {
        self.0.wrapping_sub(front.0)
    }

    // The difference, and 0 where that is below zero.
    #[tactic(auto, unfolding(crate::specs::Index::length_of))]
    pub fn length(self, front: Index) -> u64
        ensures { result ≡ length_of self front }
    {
        self.difference(front).max(0) as u64
    }

    // The difference is below 0.
    #[tactic(auto, unfolding(crate::specs::Index::behind_b))]
    pub fn is_behind(self, front: Index) -> bool
        ensures { result ≡ behind_b self front }
    {
        self.difference(front) < 0
    }

    // The difference is 0 or below.
    #[tactic(auto, unfolding(crate::specs::Index::empty_b))]
    pub fn is_empty(self, front: Index) -> bool
        ensures { result ≡ empty_b self front }
    {
        self.difference(front) <= 0
    }

    // The difference is the capacity or above.
    #[tactic(auto, unfolding(crate::specs::Index::full_b))]
    pub fn is_full(self, front: Index, capacity: usize) -> bool
        ensures { result ≡ full_b self front capacity }
    {
        let d = self.difference(front);
        if d >= 0 {
            return capacity as u64 <= mag(d);
        }
        false
    }

    // The difference is from -1 to the capacity.
    #[tactic(auto, unfolding(crate::specs::Index::spans_b))]
    pub fn spans(self, front: Index, capacity: usize) -> bool
        ensures { result ≡ spans_b self front capacity }
    {
        let d = self.difference(front);
        if d >= 0 {
            return mag(d) <= capacity as u64;
        }
        -1 <= d
    }

    // The cell of a ring in which the index lies: by a mask where the capacity has exactly one bit set, as every allowed one has; no capacity
    // is turned away.
    #[tactic(auto, unfolding(crate::specs::Index::cell_of))]
    pub fn cell(self, capacity: usize) -> usize
        ensures { result ≡ cell_of self capacity }
    {
        if capacity == 0 {
            return 0;
        }
        if capacity.is_power_of_two() {
            return (bits(self.0) as usize) & (capacity - 1);
        }
        let part = mag(self.0) as usize % capacity;
        if self.0 >= 0 {
            part
        } else {
            capacity - 1 - part
        }
    }
}
