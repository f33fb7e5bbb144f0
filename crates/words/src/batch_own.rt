// The steps of a batch on the own queue as words: a reserve is 0, 1 and a resize; then 20; 30 to 32, and 40 to 43 for a swap.
ghost use Rattle.words.specs.BatchOwn.{reserve_words, reserve_of, swap_words, swap_of, put_words, put_of, own_words, own_of};

use crate::InWords;
use crate::batch::{haul_of, wanted_of, with_haul, with_wanted};
use index::Index;
use parts::stage::{OwnStage, PutStage, ReserveStage, ResizeStage, SwapStage};
use slots::StageWords;

impl InWords for ReserveStage {
    type Words = StageWords;

    ghost words_of = { reserve_words };

    ghost read_of = { reserve_of };

    fn to_words(self) -> StageWords {
        match self {
            ReserveStage::LoadBack => StageWords::bare(0),
            ReserveStage::LoadFront { b } => StageWords {
                b: b.to_words(),
                ..StageWords::bare(1)
            },
            ReserveStage::Resize(at) => at.to_words(),
        }
    }

    fn from_words(words: StageWords) -> ReserveStage {
        match words.step {
            0 => ReserveStage::LoadBack,
            1 => ReserveStage::LoadFront {
                b: Index::from_words(words.b),
            },
            _ => ReserveStage::Resize(ResizeStage::from_words(words)),
        }
    }
}

impl InWords for SwapStage {
    type Words = StageWords;

    ghost words_of = { swap_words };

    ghost read_of = { swap_of };

    fn to_words(self) -> StageWords {
        match self {
            SwapStage::ReadNear => StageWords::bare(40),
            SwapStage::ReadFar { near } => StageWords {
                job: near,
                ..StageWords::bare(41)
            },
            SwapStage::WriteNear { near, far } => StageWords {
                job: near,
                far,
                ..StageWords::bare(42)
            },
            SwapStage::WriteFar { near } => StageWords {
                job: near,
                ..StageWords::bare(43)
            },
        }
    }

    fn from_words(words: StageWords) -> SwapStage {
        let near = words.job;
        match words.step {
            40 => SwapStage::ReadNear,
            41 => SwapStage::ReadFar { near },
            42 => SwapStage::WriteNear {
                near,
                far: words.far,
            },
            _ => SwapStage::WriteFar { near },
        }
    }
}

impl InWords for PutStage {
    type Words = StageWords;

    ghost words_of = { put_words };

    ghost read_of = { put_of };

    fn to_words(self) -> StageWords {
        match self {
            PutStage::WriteCopy { i, job } => StageWords {
                i,
                job,
                ..StageWords::bare(30)
            },
            PutStage::WriteOne { i, job } => StageWords {
                i,
                job,
                ..StageWords::bare(31)
            },
            PutStage::Swap { x, at } => StageWords {
                i: x,
                ..at.to_words()
            },
            PutStage::StoreBack => StageWords::bare(32),
        }
    }

    fn from_words(words: StageWords) -> PutStage {
        let i = words.i;
        let job = words.job;
        match words.step {
            30 => PutStage::WriteCopy { i, job },
            31 => PutStage::WriteOne { i, job },
            32 => PutStage::StoreBack,
            _ => PutStage::Swap {
                x: i,
                at: SwapStage::from_words(words),
            },
        }
    }
}

impl InWords for OwnStage {
    type Words = StageWords;

    ghost words_of = { own_words };

    ghost read_of = { own_of };

    fn to_words(self) -> StageWords {
        match self {
            OwnStage::Reserve(wanted, at) => with_wanted(at.to_words(), wanted),
            OwnStage::LoadBack { wanted } => with_wanted(StageWords::bare(20), wanted),
            OwnStage::Put(haul, at) => with_haul(at.to_words(), haul),
        }
    }

    fn from_words(words: StageWords) -> OwnStage {
        match words.step {
            ..20 => OwnStage::Reserve(wanted_of(words), ReserveStage::from_words(words)),
            20 => OwnStage::LoadBack {
                wanted: wanted_of(words),
            },
            _ => OwnStage::Put(haul_of(words), PutStage::from_words(words)),
        }
    }
}
