// A queue as words: numbers, since callers in C keep them.
ghost use Rattle.std.specs.Prelude.{◌≡◌};
ghost use Rattle.slots.specs.Queue.{flavors_of};

use parts::queue::Flavor;

// Words that no queue has differ from those of the queue that they are read as.
#[derive(Clone, Copy, PartialEq, Eq)]
pub struct QueueWords {
    // 0 FIFO, 1 LIFO.
    pub flavor: u64,
    pub front: u64,
    pub back: u64,
    // The ring: its number, its place and its capacity.
    pub number: u64,
    pub place: u64,
    pub capacity: u64,
}

// Queue q is LIFO where bit q is set.
pub fn flavors_of(bits: u64) -> [Flavor; 4]
    ensures { result ≡ flavors_of bits }
{
    [bits % 2, bits / 2 % 2, bits / 4 % 2, bits / 8 % 2].map(Flavor::from)
}
