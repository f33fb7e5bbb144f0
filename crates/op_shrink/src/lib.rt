// What both pops share: how they answer, and the shrinking. Popper and job are handed on as the stage has them.
#![tactic(auto)]

ghost use Rattle.std.specs.Prelude.{◌≡◌};
ghost use Rattle.op_shrink.specs.Shrink.{others_of, nothing_for, job_for, reading as reading_of, shrunk as shrunkOf, shrink_of};

use index::Index;
use op_resize::resize_step;
use parts::answer::Answer;
use parts::out::{Claim, Resized, StepOut};
use parts::queue::Queue;
use parts::stage::{PopStage, Popper, ResizeStage};
use ring::Ring;
use steal::Steal;

// The difference less one, of a queue that is not empty: how many stand beside one of its jobs.
pub fn others(back: Index, front: Index) -> u64
    ensures { result ≡ others_of back front }
{
    back.length(front).saturating_sub(1)
}

// The answer of a pop that found nothing.
pub fn nothing_for(popper: Popper) -> Answer
    ensures { result ≡ nothing_for popper }
{
    match popper {
        Popper::Pop => Answer::Nothing,
        Popper::BatchAndPop => Answer::Stolen(Steal::Empty),
    }
}

// The answer of a pop that has its job.
pub fn job_for(popper: Popper, job: u64) -> Answer
    ensures { result ≡ job_for popper job }
{
    match popper {
        Popper::Pop => Answer::Job(job),
        Popper::BatchAndPop => Answer::Stolen(Steal::Success(job)),
    }
}

// The job is read: shrink to half first where few are left, or answer.
pub fn reading(few: bool, popper: Popper, job: u64, q: Queue) -> StepOut<PopStage>
    ensures { result ≡ reading_of few popper job q }
{
    if few {
        let capacity = Ring::half(q.ring.capacity);
        return StepOut::Going(
            q,
            PopStage::Shrink {
                job,
                at: ResizeStage::LoadBack { capacity },
            },
        );
    }
    StepOut::Ended(q, job_for(popper, job))
}

// What a pop does with a step of its resize, as a push does in `op_push`; with no ring to be had it skips the shrink.
fn shrunk(popper: Popper, job: u64, q: Queue, resized: Resized) -> StepOut<PopStage>
    ensures { result ≡ shrunkOf popper job q resized }
{
    match resized {
        Resized::Stage(at) => StepOut::Going(q, PopStage::Shrink { job, at }),
        Resized::NoRing => StepOut::Ended(q, job_for(popper, job)),
        Resized::Done(r) => StepOut::Ended(r, job_for(popper, job)),
    }
}

// A step of the shrinking of queue q, after which the job is answered.
pub fn shrink_step(
    popper: Popper,
    job: u64,
    at: ResizeStage,
    q: Queue,
    claim: Claim,
    pool: &mut [u64],
) -> StepOut<PopStage>
    ensures { (result, pool.new) ≡ shrink_of popper job at q claim pool.old }
{
    shrunk(popper, job, q, resize_step(at, q, claim, pool))
}
