// A queue: its flavour, front and back, and the ring that it has now.
ghost use Rattle.std.specs.Prelude.{◌≡◌};
ghost use Rattle.parts.specs.Queues.{flavor_of, zero_queue, queue_in};

use index::Index;
use ring::{PlaceNumber, Ring, RingNumber};

// Which end the owner pops. A queue keeps its flavour for life.
#[derive(Clone, Copy)]
pub enum Flavor {
    Fifo = 0,
    Lifo = 1,
}

#[derive(Clone, Copy)]
pub struct Queue {
    pub flavor: Flavor,
    pub front: Index,
    pub back: Index,
    pub ring: Ring,
}

// 0 FIFO, otherwise LIFO.
impl From<u64> for Flavor {
    ghost from_gives = { λ number result. result ≡ flavor_of number };

    fn from(number: u64) -> Flavor {
        match number {
            0 => Flavor::Fifo,
            _ => Flavor::Lifo,
        }
    }
}

pub fn zero_queue() -> Queue
    ensures { result ≡ zero_queue }
{
    let ring = Ring {
        number: RingNumber(0),
        place: PlaceNumber(0),
        capacity: 0,
    };
    Queue {
        flavor: Flavor::Fifo,
        front: Index(0),
        back: Index(0),
        ring,
    }
}

// Queue k of these, and zeros where there is none. They are lent, so that a look at one copies one.
pub fn queue_of(queues: &[Queue; 4], k: usize) -> Queue
    ensures { result ≡ queue_in queues.now k }
{
    queues.get(k).copied().unwrap_or(zero_queue())
}
