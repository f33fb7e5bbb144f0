// A push, a step at a time.
#![tactic(auto)]

ghost use Rattle.std.specs.Prelude.{◌≡◌};
ghost use Rattle.op_push.specs.Push.{growing as growingOf, grown as grown_of, push_of};

use cells::write;
use index::Index;
use op_resize::resize_step;
use parts::answer::{Answer, Shortage};
use parts::out::{Claim, Resized, StepOut};
use parts::queue::Queue;
use parts::stage::{PushStage, ResizeStage};
use ring::Ring;

// The ring is full: grow it, unless that would be too large. A batch grows in the same way and a pop shrinks so, each on to stages of its own; a trait for
// the stages would want a type of its own in each of the three crates, and be longer than these few arms.
fn growing(b: Index, q: Queue, to: Option<usize>) -> StepOut<PushStage>
    ensures { result ≡ growingOf b q to }
{
    match to {
        Some(capacity) => StepOut::Going(
            q,
            PushStage::Resize {
                b,
                at: ResizeStage::LoadBack { capacity },
            },
        ),
        None => StepOut::Ended(q, Answer::GaveUp(Shortage::TooLarge)),
    }
}

// What a push does with a step of its resize.
fn grown(b: Index, q: Queue, resized: Resized) -> StepOut<PushStage>
    ensures { result ≡ grown_of b q resized }
{
    match resized {
        Resized::Stage(at) => StepOut::Going(q, PushStage::Resize { b, at }),
        Resized::NoRing => StepOut::Ended(q, Answer::GaveUp(Shortage::NoRing)),
        Resized::Done(r) => StepOut::Going(r, PushStage::Write { b }),
    }
}

// A step of a push of a job into queue q.
pub fn push_step(
    job: u64,
    at: PushStage,
    q: Queue,
    claim: Claim,
    pool: &mut [u64],
) -> StepOut<PushStage>
    ensures { (result, pool.new) ≡ push_of job at q claim pool.old }
{
    match at {
        PushStage::LoadBack => {
            let b = q.back;
            StepOut::Going(q, PushStage::LoadFront { b })
        }
        PushStage::LoadFront { b } => {
            if b.is_full(q.front, q.ring.capacity) {
                return growing(b, q, Ring::twice(q.ring.capacity));
            }
            StepOut::Going(q, PushStage::Write { b })
        }
        PushStage::Resize { b, at } => grown(b, q, resize_step(at, q, claim, pool)),
        PushStage::Write { b } => {
            write(pool, q.ring, b, job);
            StepOut::Going(q, PushStage::StoreBack { b })
        }
        PushStage::StoreBack { b } => {
            let r = Queue {
                back: b.plus(1),
                ..q
            };
            StepOut::Ended(r, Answer::Done)
        }
    }
}
