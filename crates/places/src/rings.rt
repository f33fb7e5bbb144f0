// The rings of a machine: those of the queues, and those that the threads keep.
ghost use Rattle.std.specs.Prelude.{◌≡◌};
ghost use Rattle.parts.specs.Queues.{queue_in};
ghost use Rattle.places.specs.Places.{kept_in};

use keeps::Kept;
use parts::queue::{Queue, queue_of};

// So many queues, and as many threads, of the four that a machine has, whose memory is fixed; what stands past the count is not looked at. The methods have them
// lent: each pair of queues is looked at, and none is copied for that.
#[derive(Clone, Copy)]
pub struct Rings {
    pub queues: [Queue; 4],
    pub kept: [Kept; 4],
    pub count: usize,
}

impl Rings {
    // The place of queue k's ring.
    pub(crate) fn place_of(&self, k: usize) -> usize
        ensures { result ≡ (queue_in self.now.queues k).ring.place.0 }
    {
        queue_of(&self.queues, k).ring.place.0
    }

    // What thread t keeps, and nothing where there is none.
    pub(crate) fn kept_of(&self, t: usize) -> Kept
        ensures { result ≡ kept_in self.now.kept t }
    {
        self.kept.get(t).copied().unwrap_or(Kept::Nothing)
    }
}
