// A length, and a batch from the thread's own queue, a step at a time. The load of the back is all that the two share.
#![tactic(auto)]

ghost use Rattle.std.specs.Prelude.{◌≡◌};
ghost use Rattle.op_length.specs.Length.{length_step_of, own_batch_of};

use parts::answer::Answer;
use parts::out::StepOut;
use parts::queue::Queue;
use parts::stage::LengthStage;
use steal::Steal;

// A step of a length of queue q.
pub fn length_step(at: LengthStage, q: Queue) -> StepOut<LengthStage>
    ensures { result ≡ length_step_of at q }
{
    match at {
        LengthStage::LoadBack => {
            let b = q.back;
            StepOut::Going(q, LengthStage::LoadFront { b })
        }
        LengthStage::LoadFront { b } => {
            let difference = b.difference(q.front);
            let length = b.length(q.front);
            StepOut::Ended(q, Answer::Length { difference, length })
        }
    }
}

// A step of a batch from the thread's own queue q, which moves nothing.
pub fn own_batch_step(at: LengthStage, q: Queue) -> StepOut<LengthStage>
    ensures { result ≡ own_batch_of at q }
{
    match at {
        LengthStage::LoadBack => {
            let b = q.back;
            StepOut::Going(q, LengthStage::LoadFront { b })
        }
        LengthStage::LoadFront { b } => {
            if b.is_empty(q.front) {
                return StepOut::Ended(q, Answer::Stolen(Steal::Empty));
            }
            StepOut::Ended(q, Answer::Moved)
        }
    }
}
