// Room in the own queue for what a batch wants.
#![tactic(auto)]

ghost use Rattle.std.specs.Prelude.{◌≡◌};
ghost use Rattle.op_batch_reserve.specs.Reserve.{growing as growingOf, grown as grown_of, reserve_of};

use op_batch::reserve_at;
use op_resize::resize_step;
use parts::answer::{Answer, Shortage};
use parts::out::{Claim, Resized, StepOut};
use parts::queue::Queue;
use parts::stage::{BatchStage, OwnStage, ReserveStage, ResizeStage, Wanted};
use ring::Ring;

// There is too little room: resize, unless that would be too large. As in `op_push`, which says why it stands here too.
fn growing(wanted: Wanted, q: Queue, to: Option<usize>) -> StepOut<BatchStage>
    ensures { result ≡ growingOf wanted q to }
{
    match to {
        Some(capacity) => {
            let at = ResizeStage::LoadBack { capacity };
            reserve_at(q, wanted, ReserveStage::Resize(at))
        }
        None => StepOut::Ended(q, Answer::GaveUp(Shortage::TooLarge)),
    }
}

// What a batch does with a step of its resize.
fn grown(wanted: Wanted, q: Queue, resized: Resized) -> StepOut<BatchStage>
    ensures { result ≡ grown_of wanted q resized }
{
    match resized {
        Resized::Stage(at) => reserve_at(q, wanted, ReserveStage::Resize(at)),
        Resized::NoRing => StepOut::Ended(q, Answer::GaveUp(Shortage::NoRing)),
        Resized::Done(r) => StepOut::Going(r, BatchStage::Own(OwnStage::LoadBack { wanted })),
    }
}

pub fn reserve_step(
    wanted: Wanted,
    at: ReserveStage,
    q: Queue,
    claim: Claim,
    pool: &mut [u64],
) -> StepOut<BatchStage>
    ensures { (result, pool.new) ≡ reserve_of wanted at q claim pool.old }
{
    match at {
        ReserveStage::LoadBack => {
            let b = q.back;
            reserve_at(q, wanted, ReserveStage::LoadFront { b })
        }
        ReserveStage::LoadFront { b } => {
            let length = b.length(q.front);
            if Ring::holds(q.ring.capacity, length, wanted.n) {
                return StepOut::Going(q, BatchStage::Own(OwnStage::LoadBack { wanted }));
            }
            growing(wanted, q, Ring::holding(length, wanted.n))
        }
        ReserveStage::Resize(stage) => grown(wanted, q, resize_step(stage, q, claim, pool)),
    }
}
