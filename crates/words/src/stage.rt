// A stage as words: the operation, the number that it carries, and the words of its step. Words of no operation are an idle stage.
ghost use Rattle.words.specs.Stage.{stage_words, stage_of};

use crate::InWords;
use parts::stage::{
    LengthStage, OwnStage, PopStage, Popper, PushStage, SourceStage, Stage, StealStage,
};
use slots::StageWords;

impl InWords for Stage {
    type Words = StageWords;

    ghost words_of = { stage_words };

    ghost read_of = { stage_of };

    fn to_words(self) -> StageWords {
        match self {
            Stage::Idle => StageWords::bare(0),
            Stage::Push(job, at) => at.to_words().with_operation(1, job),
            Stage::Pop(by, at) => at.to_words().with_operation(2, by.to_words()),
            Stage::Steal(source, at) => at.to_words().with_operation(3, source as u64),
            Stage::Length(queue, at) => at.to_words().with_operation(4, queue as u64),
            Stage::OwnBatch(at) => at.to_words().with_operation(5, 0),
            Stage::BatchSource(source, at) => at.to_words().with_operation(6, source as u64),
            Stage::BatchOwn(source, at) => at.to_words().with_operation(7, source as u64),
        }
    }

    // Inlined: a call would take all sixteen words apart once more, for each thread at each call.
    #[inline(always)]
    fn from_words(words: StageWords) -> Stage {
        let number = words.number;
        match words.operation {
            1 => Stage::Push(number, PushStage::from_words(words)),
            2 => Stage::Pop(Popper::from_words(number), PopStage::from_words(words)),
            3 => Stage::Steal(number as usize, StealStage::from_words(words)),
            4 => Stage::Length(number as usize, LengthStage::from_words(words)),
            5 => Stage::OwnBatch(LengthStage::from_words(words)),
            6 => Stage::BatchSource(number as usize, SourceStage::from_words(words)),
            7 => Stage::BatchOwn(number as usize, OwnStage::from_words(words)),
            _ => Stage::Idle,
        }
    }
}
