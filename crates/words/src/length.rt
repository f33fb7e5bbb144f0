// A length, and a batch from the own queue, as words: steps 0 and 1.
ghost use Rattle.words.specs.Length.{length_words, length_of};

use crate::InWords;
use index::Index;
use parts::stage::LengthStage;
use slots::StageWords;

impl InWords for LengthStage {
    type Words = StageWords;

    ghost words_of = { length_words };

    ghost read_of = { length_of };

    fn to_words(self) -> StageWords {
        match self {
            LengthStage::LoadBack => StageWords::bare(0),
            LengthStage::LoadFront { b } => StageWords {
                b: b.to_words(),
                ..StageWords::bare(1)
            },
        }
    }

    fn from_words(words: StageWords) -> LengthStage {
        match words.step {
            0 => LengthStage::LoadBack,
            _ => LengthStage::LoadFront {
                b: Index::from_words(words.b),
            },
        }
    }
}
