// A push as words: steps 0 to 3, and those of its resize.
ghost use Rattle.words.specs.Push.{push_words, push_of};

use crate::InWords;
use index::Index;
use parts::stage::{PushStage, ResizeStage};
use slots::StageWords;

impl InWords for PushStage {
    type Words = StageWords;

    ghost words_of = { push_words };

    ghost read_of = { push_of };

    fn to_words(self) -> StageWords {
        match self {
            PushStage::LoadBack => StageWords::bare(0),
            PushStage::LoadFront { b } => StageWords {
                b: b.to_words(),
                ..StageWords::bare(1)
            },
            PushStage::Resize { b, at } => StageWords {
                b: b.to_words(),
                ..at.to_words()
            },
            PushStage::Write { b } => StageWords {
                b: b.to_words(),
                ..StageWords::bare(2)
            },
            PushStage::StoreBack { b } => StageWords {
                b: b.to_words(),
                ..StageWords::bare(3)
            },
        }
    }

    fn from_words(words: StageWords) -> PushStage {
        let b = Index::from_words(words.b);
        match words.step {
            0 => PushStage::LoadBack,
            1 => PushStage::LoadFront { b },
            2 => PushStage::Write { b },
            3 => PushStage::StoreBack { b },
            _ => PushStage::Resize {
                b,
                at: ResizeStage::from_words(words),
            },
        }
    }
}
