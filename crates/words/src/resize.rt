// A resize as words: steps 10 to 13 of a push, a pop and a batch.
ghost use Rattle.words.specs.Resize.{resize_words, resize_of};

use crate::InWords;
use index::Index;
use parts::stage::ResizeStage;
use slots::StageWords;

impl InWords for ResizeStage {
    type Words = StageWords;

    ghost words_of = { resize_words };

    ghost read_of = { resize_of };

    fn to_words(self) -> StageWords {
        match self {
            ResizeStage::LoadBack { capacity } => StageWords {
                capacity: capacity as u64,
                ..StageWords::bare(10)
            },
            ResizeStage::LoadFront { capacity, b } => StageWords {
                end: b.to_words(),
                capacity: capacity as u64,
                ..StageWords::bare(11)
            },
            ResizeStage::Copy { b, i, ring } => StageWords {
                end: b.to_words(),
                i: i.to_words(),
                ..StageWords::bare(12)
            }
            .with_ring(ring),
            ResizeStage::Swap { ring } => StageWords::bare(13).with_ring(ring),
        }
    }

    fn from_words(words: StageWords) -> ResizeStage {
        match words.step {
            10 => ResizeStage::LoadBack {
                capacity: words.capacity as usize,
            },
            11 => ResizeStage::LoadFront {
                capacity: words.capacity as usize,
                b: Index::from_words(words.end),
            },
            12 => ResizeStage::Copy {
                b: Index::from_words(words.end),
                i: Index::from_words(words.i),
                ring: words.ring_of(),
            },
            _ => ResizeStage::Swap {
                ring: words.ring_of(),
            },
        }
    }
}
