// Whether current and built rings are in different places.
ghost use Rattle.std.specs.Prelude.{◌≡◌};
ghost use Rattle.base.specs.Below.{all_below};
ghost use Rattle.parts.specs.Queues.{queue_in};
ghost use Rattle.places.specs.Places.{kept_in, apart_of, all_apart_of};

use crate::kept::{both_build, builds_in};
use crate::rings::Rings;

impl Rings {
    // Queue i's ring and what thread j builds are in different places; and so are, of two, the queues' rings and what the threads build.
    fn apart(&self, i: usize, j: usize) -> bool
        ensures { result ≡ apart_of (queue_in self.now.queues) (kept_in self.now.kept) i j }
    {
        let first = self.place_of(i);
        let second = self.place_of(j);
        let ring = self.kept_of(i);
        let other = self.kept_of(j);
        !builds_in(other, first) & ((i == j) | ((first != second) & !both_build(ring, other)))
    }

    fn apart_from(&self, i: usize) -> bool
        ensures { result ≡ all_below self.now.count (apart_of (queue_in self.now.queues) (kept_in self.now.kept) i) }
    {
        (0..self.count).all(|j| self.apart(i, j))
    }

    pub fn all_apart(&self) -> bool
        ensures { result ≡ all_apart_of (queue_in self.now.queues) (kept_in self.now.kept) self.now.count }
    {
        (0..self.count).all(|i| self.apart_from(i))
    }
}
