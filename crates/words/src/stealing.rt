// A steal as words: steps 0 to 5.
ghost use Rattle.words.specs.Stealing.{steal_words, steal_of};

use crate::InWords;
use index::Index;
use parts::stage::StealStage;
use slots::StageWords;

impl InWords for StealStage {
    type Words = StageWords;

    ghost words_of = { steal_words };

    ghost read_of = { steal_of };

    fn to_words(self) -> StageWords {
        match self {
            StealStage::LoadFront => StageWords::bare(0),
            StealStage::LoadBack { f } => StageWords {
                f: f.to_words(),
                ..StageWords::bare(1)
            },
            StealStage::LoadRing { f } => StageWords {
                f: f.to_words(),
                ..StageWords::bare(2)
            },
            StealStage::Read { f, ring } => StageWords {
                f: f.to_words(),
                ..StageWords::bare(3)
            }
            .with_ring(ring),
            StealStage::ReloadRing { f, ring, job } => StageWords {
                f: f.to_words(),
                job,
                ..StageWords::bare(4)
            }
            .with_ring(ring),
            StealStage::Exchange { f, ring, job } => StageWords {
                f: f.to_words(),
                job,
                ..StageWords::bare(5)
            }
            .with_ring(ring),
        }
    }

    fn from_words(words: StageWords) -> StealStage {
        let f = Index::from_words(words.f);
        let ring = words.ring_of();
        let job = words.job;
        match words.step {
            0 => StealStage::LoadFront,
            1 => StealStage::LoadBack { f },
            2 => StealStage::LoadRing { f },
            3 => StealStage::Read { f, ring },
            4 => StealStage::ReloadRing { f, ring, job },
            _ => StealStage::Exchange { f, ring, job },
        }
    }
}
