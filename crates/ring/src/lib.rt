// A ring: its number, its place in the pool, its capacity; and the capacities.
#![tactic(auto)]

ghost use Rattle.std.specs.Prelude.{◌≡◌, ◌+◌, ◌/◌, nat_le};
ghost use Rattle.ring.specs.Capacity.{allowed_b, twice_of, holding_of};
ghost use Rattle.ring.specs.Number.{next_number};

// Counts up, and is never used again.
#[derive(Clone, Copy, PartialEq, Eq)]
pub struct RingNumber(pub u64);

// Which place of the pool. Used again.
#[derive(Clone, Copy, PartialEq, Eq)]
pub struct PlaceNumber(pub usize);

#[derive(Clone, Copy)]
pub struct Ring {
    pub number: RingNumber,
    pub place: PlaceNumber,
    pub capacity: usize,
}

impl RingNumber {
    // The number to give after this one.
    pub fn next(self) -> RingNumber
        ensures { result ≡ next_number self }
    {
        RingNumber(self.0.wrapping_add(1))
    }
}

impl Ring {
    pub const SMALLEST: usize = 64;

    pub const LARGEST: usize = 256;

    // A ring may have this capacity: exactly one bit set, and in range.
    #[tactic(auto, unfolding(crate::specs::Capacity::allowed_b))]
    pub fn allowed(capacity: usize) -> bool
        ensures { result ≡ allowed_b capacity }
    {
        capacity.is_power_of_two() && Ring::SMALLEST <= capacity && capacity <= Ring::LARGEST
    }

    // Twice a capacity, unless that is too large.
    pub fn twice(capacity: usize) -> Option<usize>
        ensures { result ≡ twice_of capacity }
    {
        if Ring::LARGEST / 2 < capacity {
            return None;
        }
        Some(2 * capacity)
    }

    // Half a capacity.
    pub fn half(capacity: usize) -> usize
        ensures { result ≡ capacity / 2 }
    {
        capacity / 2
    }

    // A capacity holds so many jobs and so many more. The sum may pass the largest u64.
    pub fn holds(capacity: usize, length: u64, more: u64) -> bool
        ensures { result ≡ nat_le (length + more) capacity }
    {
        length
            .checked_add(more)
            .is_some_and(|jobs| jobs <= capacity as u64)
    }

    // The smallest capacity that holds so many jobs and so many more, unless that is too large.
    pub fn holding(length: u64, more: u64) -> Option<usize>
        ensures { result ≡ holding_of (length + more) }
    {
        if !Ring::holds(Ring::LARGEST, length, more) {
            return None;
        }
        let need = (length + more) as usize;
        Some(need.max(Ring::SMALLEST).next_power_of_two())
    }
}
