// A queue's ring, shown as the caller's own cells.
ghost use Rattle.std.specs.Prelude.{◌≡◌, length};
ghost use Rattle.machine.specs.Shown.{shows_b, shown_part, shown_of};

use crate::state::Machine;
use cells::PLACE_CELLS;
use gate::tests::is_pool;

// A part of the pool: its first cell, and how many cells it has, as callers in C are told it.
#[derive(Clone, Copy)]
pub struct Part {
    pub start: usize,
    pub count: usize,
}

impl Machine {
    // The machine is sound, its pool has so many cells, and the queue is there.
    fn shows(&self, length: usize, queue: usize) -> bool
        ensures { result ≡ shows_b self.now length queue }
    {
        self.is_sound() & (is_pool(self.place_count, length) & (queue < self.queue_count))
    }

    // Where the queue's ring lies in a pool of so many cells. An unsound machine, a wrong pool length or a queue that is not there shows an empty part.
    #[tactic(auto, unfolding(crate::specs::Shown::shown_part))]
    pub fn shown_part(self, length: usize, queue: usize) -> Part
        ensures { result ≡ shown_part self length queue }
    {
        if !self.shows(length, queue) {
            return Part { start: 0, count: 0 };
        }
        let q = self.queue(queue);
        Part {
            start: q.ring.place.0 * PLACE_CELLS,
            count: q.ring.capacity,
        }
    }

    // That part of the lent pool.
    pub fn shown(self, pool: &[u64], queue: usize) -> &[u64]
        ensures { result.now ≡ shown_of (shown_part self (length pool.now) queue) pool.now }
    {
        let part = self.shown_part(pool.len(), queue);
        let start = part.start;
        let end = start + part.count;
        &pool[start..end]
    }
}
