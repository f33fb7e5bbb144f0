// A queue as words, and what it is made of.
ghost use Rattle.parts.specs.Queues.{flavor_of};
ghost use Rattle.slots.specs.Slots.{index_word, index_of};
ghost use Rattle.slots.specs.Queue.{flavor_word, queue_words, queue_of};

use crate::InWords;
use index::{Index, bits, signed};
use parts::queue::{Flavor, Queue};
use ring::{PlaceNumber, Ring, RingNumber};
use slots::queue::QueueWords;

// An index as its two's complement bits.
impl InWords for Index {
    type Words = u64;

    ghost words_of = { index_word };

    ghost read_of = { index_of };

    #[tactic(auto, unfolding(slots::specs::Slots::index_of, slots::specs::Slots::index_word, index::specs::Index::wrap))]
    fn to_words(self) -> u64 {
        bits(self.0)
    }

    #[tactic(auto, unfolding(slots::specs::Slots::index_of))]
    fn from_words(words: u64) -> Index {
        Index(signed(words))
    }
}

impl InWords for Flavor {
    type Words = u64;

    ghost words_of = { flavor_word };

    ghost read_of = { flavor_of };

    fn to_words(self) -> u64 {
        self as u64
    }

    fn from_words(words: u64) -> Flavor {
        Flavor::from(words)
    }
}

impl InWords for Queue {
    type Words = QueueWords;

    ghost words_of = { queue_words };

    ghost read_of = { queue_of };

    fn to_words(self) -> QueueWords {
        QueueWords {
            flavor: self.flavor.to_words(),
            front: self.front.to_words(),
            back: self.back.to_words(),
            number: self.ring.number.0,
            place: self.ring.place.0 as u64,
            capacity: self.ring.capacity as u64,
        }
    }

    fn from_words(words: QueueWords) -> Queue {
        Queue {
            flavor: Flavor::from_words(words.flavor),
            front: Index::from_words(words.front),
            back: Index::from_words(words.back),
            ring: Ring {
                number: RingNumber(words.number),
                place: PlaceNumber(words.place as usize),
                capacity: words.capacity as usize,
            },
        }
    }
}
