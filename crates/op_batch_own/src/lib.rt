// The steps of a batch on the thread's own queue.
#![tactic(auto)]

ghost use Rattle.std.specs.Prelude.{◌≡◌};
ghost use Rattle.op_batch_own.specs.Own.{own_of};

use op_batch_put::put_step;
use op_batch_reserve::reserve_step;
use parts::out::{Claim, StepOut};
use parts::queue::Queue;
use parts::stage::{BatchStage, OwnStage, SourceStage};

// A step on the own queue q.
pub fn own_step(at: OwnStage, q: Queue, claim: Claim, pool: &mut [u64]) -> StepOut<BatchStage>
    ensures { (result, pool.new) ≡ own_of at q claim pool.old }
{
    match at {
        OwnStage::Reserve(wanted, stage) => reserve_step(wanted, stage, q, claim, pool),
        OwnStage::LoadBack { wanted } => {
            let b = q.back;
            let next = SourceStage::LoadRing { wanted, b };
            StepOut::Going(q, BatchStage::Source(next))
        }
        OwnStage::Put(haul, stage) => put_step(haul, stage, q, pool),
    }
}
