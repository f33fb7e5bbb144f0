// The steps of a batch on its source as words: 0 to 2, and while the ring is held 20, 30 to 32 for all at once, 40 to 44 for one by one.
ghost use Rattle.words.specs.BatchSource.{all_words, all_of, one_words, one_of, take_words, take_of, source_words, source_of};

use crate::InWords;
use crate::batch::{haul_of, wanted_of, with_haul, with_wanted};
use index::Index;
use parts::stage::{AllStage, BatchKind, OneStage, SourceStage, TakeStage};
use slots::StageWords;

impl InWords for AllStage {
    type Words = StageWords;

    ghost words_of = { all_words };

    ghost read_of = { all_of };

    fn to_words(self) -> StageWords {
        match self {
            AllStage::Copy { i } => StageWords {
                i,
                ..StageWords::bare(30)
            },
            AllStage::ReloadRing => StageWords::bare(31),
            AllStage::Exchange => StageWords::bare(32),
        }
    }

    fn from_words(words: StageWords) -> AllStage {
        match words.step {
            30 => AllStage::Copy { i: words.i },
            31 => AllStage::ReloadRing,
            _ => AllStage::Exchange,
        }
    }
}

impl InWords for OneStage {
    type Words = StageWords;

    ghost words_of = { one_words };

    ghost read_of = { one_of };

    fn to_words(self) -> StageWords {
        match self {
            OneStage::ExchangeFirst { job } => StageWords {
                job,
                ..StageWords::bare(40)
            },
            OneStage::ReloadBack { i } => StageWords {
                i,
                ..StageWords::bare(41)
            },
            OneStage::Read { i } => StageWords {
                i,
                ..StageWords::bare(42)
            },
            OneStage::ReloadRing { i, job } => StageWords {
                i,
                job,
                ..StageWords::bare(43)
            },
            OneStage::Exchange { i, job } => StageWords {
                i,
                job,
                ..StageWords::bare(44)
            },
        }
    }

    fn from_words(words: StageWords) -> OneStage {
        let i = words.i;
        let job = words.job;
        match words.step {
            40 => OneStage::ExchangeFirst { job },
            41 => OneStage::ReloadBack { i },
            42 => OneStage::Read { i },
            43 => OneStage::ReloadRing { i, job },
            _ => OneStage::Exchange { i, job },
        }
    }
}

impl InWords for TakeStage {
    type Words = StageWords;

    ghost words_of = { take_words };

    ghost read_of = { take_of };

    fn to_words(self) -> StageWords {
        match self {
            TakeStage::ReadFirst => StageWords::bare(20),
            TakeStage::All(at) => at.to_words(),
            TakeStage::One(at) => at.to_words(),
        }
    }

    fn from_words(words: StageWords) -> TakeStage {
        match words.step {
            20 => TakeStage::ReadFirst,
            ..40 => TakeStage::All(AllStage::from_words(words)),
            _ => TakeStage::One(OneStage::from_words(words)),
        }
    }
}

impl InWords for SourceStage {
    type Words = StageWords;

    ghost words_of = { source_words };

    ghost read_of = { source_of };

    fn to_words(self) -> StageWords {
        match self {
            SourceStage::LoadFront { kind, others } => StageWords {
                kind: kind.to_words(),
                n: others,
                ..StageWords::bare(0)
            },
            SourceStage::LoadBack { kind, others, f } => StageWords {
                kind: kind.to_words(),
                n: others,
                f: f.to_words(),
                ..StageWords::bare(1)
            },
            SourceStage::LoadRing { wanted, b } => StageWords {
                b: b.to_words(),
                ..with_wanted(StageWords::bare(2), wanted)
            },
            SourceStage::Take(haul, at) => with_haul(at.to_words(), haul),
        }
    }

    fn from_words(words: StageWords) -> SourceStage {
        match words.step {
            0 => SourceStage::LoadFront {
                kind: BatchKind::from_words(words.kind),
                others: words.n,
            },
            1 => SourceStage::LoadBack {
                kind: BatchKind::from_words(words.kind),
                others: words.n,
                f: Index::from_words(words.f),
            },
            2 => SourceStage::LoadRing {
                wanted: wanted_of(words),
                b: Index::from_words(words.b),
            },
            _ => SourceStage::Take(haul_of(words), TakeStage::from_words(words)),
        }
    }
}
