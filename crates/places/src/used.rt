// Which places are in use, and the one that a claim takes.
ghost use Rattle.std.specs.Prelude.{◌≡◌};
ghost use Rattle.parts.specs.Queues.{queue_in};
ghost use Rattle.places.specs.Places.{kept_in, used_by_of, used_of, free_place_of};

use crate::kept::keeps_in;
use crate::rings::Rings;

impl Rings {
    // Queue i's ring is in this place, or thread i keeps one there.
    fn used_by(&self, place: usize, i: usize) -> bool
        ensures { result ≡ used_by_of (queue_in self.now.queues) (kept_in self.now.kept) place i }
    {
        (self.place_of(i) == place) | keeps_in(self.kept_of(i), place)
    }

    fn used(&self, place: usize) -> bool
        ensures { result ≡ used_of (queue_in self.now.queues) (kept_in self.now.kept) self.now.count place }
    {
        (0..self.count).any(|i| self.used_by(place, i))
    }

    // The lowest-numbered free place of so many, and their count where none is free: no Option, since the claim's definitions go by that number.
    pub fn free_place(&self, places: usize) -> usize
        ensures { result ≡ free_place_of (queue_in self.now.queues) (kept_in self.now.kept) self.now.count places }
    {
        (0..places)
            .find(|&place| !self.used(place))
            .unwrap_or(places)
    }
}
