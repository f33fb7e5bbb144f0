// A pop as words: from a FIFO queue steps 0 to 4, a shrink those of a resize, from a LIFO queue steps 20 to 28.
ghost use Rattle.words.specs.Pop.{popper_word, popper_of, fifo_words, fifo_of, lifo_words, lifo_of, pop_words, pop_of};

use crate::InWords;
use index::Index;
use parts::stage::{FifoPopStage, LifoPopStage, PopStage, Popper, ResizeStage};
use slots::StageWords;

// As with a flavour and a batch's kind: an impl each, since no impl is written by a macro of the repository's own.
impl InWords for Popper {
    type Words = u64;

    ghost words_of = { popper_word };

    ghost read_of = { popper_of };

    fn to_words(self) -> u64 {
        self as u64
    }

    fn from_words(words: u64) -> Popper {
        match words {
            0 => Popper::Pop,
            _ => Popper::BatchAndPop,
        }
    }
}

impl InWords for FifoPopStage {
    type Words = StageWords;

    ghost words_of = { fifo_words };

    ghost read_of = { fifo_of };

    fn to_words(self) -> StageWords {
        match self {
            FifoPopStage::LoadBack => StageWords::bare(0),
            FifoPopStage::LoadFront { b } => StageWords {
                b: b.to_words(),
                ..StageWords::bare(1)
            },
            FifoPopStage::FetchAdd { b, others } => StageWords {
                b: b.to_words(),
                n: others,
                ..StageWords::bare(2)
            },
            FifoPopStage::RestoreFront { f } => StageWords {
                f: f.to_words(),
                ..StageWords::bare(3)
            },
            FifoPopStage::Read { f, others } => StageWords {
                f: f.to_words(),
                n: others,
                ..StageWords::bare(4)
            },
        }
    }

    fn from_words(words: StageWords) -> FifoPopStage {
        let b = Index::from_words(words.b);
        let f = Index::from_words(words.f);
        let others = words.n;
        match words.step {
            0 => FifoPopStage::LoadBack,
            1 => FifoPopStage::LoadFront { b },
            2 => FifoPopStage::FetchAdd { b, others },
            3 => FifoPopStage::RestoreFront { f },
            _ => FifoPopStage::Read { f, others },
        }
    }
}

impl InWords for LifoPopStage {
    type Words = StageWords;

    ghost words_of = { lifo_words };

    ghost read_of = { lifo_of };

    fn to_words(self) -> StageWords {
        match self {
            LifoPopStage::LoadBack => StageWords::bare(20),
            LifoPopStage::LoadFront { b } => StageWords {
                b: b.to_words(),
                ..StageWords::bare(21)
            },
            LifoPopStage::StoreBack { b } => StageWords {
                b: b.to_words(),
                ..StageWords::bare(22)
            },
            LifoPopStage::ReloadFront { b } => StageWords {
                b: b.to_words(),
                ..StageWords::bare(23)
            },
            LifoPopStage::RestoreBack { b } => StageWords {
                b: b.to_words(),
                ..StageWords::bare(24)
            },
            LifoPopStage::ReadLast { b } => StageWords {
                b: b.to_words(),
                ..StageWords::bare(25)
            },
            LifoPopStage::Exchange { b, job } => StageWords {
                b: b.to_words(),
                job,
                ..StageWords::bare(26)
            },
            LifoPopStage::RestoreBackWon { b, job } => StageWords {
                b: b.to_words(),
                job,
                ..StageWords::bare(27)
            },
            LifoPopStage::Read { b, others } => StageWords {
                b: b.to_words(),
                n: others,
                ..StageWords::bare(28)
            },
        }
    }

    fn from_words(words: StageWords) -> LifoPopStage {
        let b = Index::from_words(words.b);
        let job = words.job;
        match words.step {
            20 => LifoPopStage::LoadBack,
            21 => LifoPopStage::LoadFront { b },
            22 => LifoPopStage::StoreBack { b },
            23 => LifoPopStage::ReloadFront { b },
            24 => LifoPopStage::RestoreBack { b },
            25 => LifoPopStage::ReadLast { b },
            26 => LifoPopStage::Exchange { b, job },
            27 => LifoPopStage::RestoreBackWon { b, job },
            _ => LifoPopStage::Read { b, others: words.n },
        }
    }
}

impl InWords for PopStage {
    type Words = StageWords;

    ghost words_of = { pop_words };

    ghost read_of = { pop_of };

    fn to_words(self) -> StageWords {
        match self {
            PopStage::Fifo(at) => at.to_words(),
            PopStage::Lifo(at) => at.to_words(),
            PopStage::Shrink { job, at } => StageWords {
                job,
                ..at.to_words()
            },
        }
    }

    fn from_words(words: StageWords) -> PopStage {
        match words.step {
            ..10 => PopStage::Fifo(FifoPopStage::from_words(words)),
            ..20 => PopStage::Shrink {
                job: words.job,
                at: ResizeStage::from_words(words),
            },
            _ => PopStage::Lifo(LifoPopStage::from_words(words)),
        }
    }
}
