// What a batch took is put into the thread's own queue.
#![tactic(auto)]

ghost use Rattle.std.specs.Prelude.{◌≡◌};
ghost use Rattle.op_batch_put.specs.Put.{put_of};

use crate::swap::swap_step;
use cells::write;
use op_batch::{answer, copying, put_at, slot, take_at, turn_after, turning, written_after};
use parts::out::StepOut;
use parts::queue::Queue;
use parts::stage::{BatchStage, Haul, PutStage};

pub mod swap;

// A step while the source's ring is held.
pub fn put_step(haul: Haul, at: PutStage, q: Queue, pool: &mut [u64]) -> StepOut<BatchStage>
    ensures { (result, pool.new) ≡ put_of haul at q pool.old }
{
    match at {
        PutStage::WriteCopy { i, job } => {
            write(pool, q.ring, slot(q.flavor, haul, i), job);
            take_at(q, haul, copying(turn_after(haul.n, i)))
        }
        PutStage::WriteOne { i, job } => {
            write(pool, q.ring, haul.b.plus(i), job);
            turning(q.flavor, haul, written_after(i), q)
        }
        PutStage::Swap { x, at } => put_at(q, haul, swap_step(haul, x, at, q, pool)),
        PutStage::StoreBack => {
            let r = Queue {
                back: haul.b.plus(haul.n),
                ..q
            };
            StepOut::Ended(r, answer(haul.in_hand))
        }
    }
}
