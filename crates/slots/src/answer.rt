// An answer as words, which callers in C read: its kind, its number or 0, its job or a length's difference in two's complement, a length.
ghost use Rattle.std.specs.Prelude.{◌≡◌};
ghost use Rattle.slots.specs.Answer.{answer_words};

use index::bits;
use parts::answer::Answer;

pub fn answer_words(answer: Answer) -> [u64; 4]
    ensures { result ≡ answer_words answer }
{
    match answer {
        Answer::Working => [0, 0, 0, 0],
        Answer::Done => [1, 0, 0, 0],
        Answer::Job(job) => [2, 0, job, 0],
        Answer::Nothing => [3, 0, 0, 0],
        Answer::Stolen(stolen) => [stolen.number(), 0, stolen.value(), 0],
        Answer::Moved => [7, 0, 0, 0],
        Answer::Length { difference, length } => [8, 0, bits(difference), length],
        Answer::GaveUp(shortage) => [9, shortage.number(), 0, 0],
        Answer::Refused(refusal) => [10, refusal.number(), 0, 0],
    }
}
