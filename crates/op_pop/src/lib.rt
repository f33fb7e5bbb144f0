// A pop, a step at a time, by the queue's flavour.
#![tactic(auto)]

ghost use Rattle.std.specs.Prelude.{◌≡◌};
ghost use Rattle.op_pop.specs.Pop.{pop_of};

use op_pop_fifo::fifo_pop_step;
use op_pop_lifo::lifo_pop_step;
use op_shrink::shrink_step;
use parts::out::{Claim, StepOut};
use parts::queue::Queue;
use parts::stage::{PopStage, Popper};

// A step of a pop from queue q.
pub fn pop_step(
    popper: Popper,
    at: PopStage,
    q: Queue,
    claim: Claim,
    pool: &mut [u64],
) -> StepOut<PopStage>
    ensures { (result, pool.new) ≡ pop_of popper at q claim pool.old }
{
    match at {
        PopStage::Fifo(stage) => fifo_pop_step(popper, stage, q, pool),
        PopStage::Lifo(stage) => lifo_pop_step(popper, stage, q, pool),
        PopStage::Shrink { job, at } => shrink_step(popper, job, at, q, claim, pool),
    }
}
