// From a FIFO source, all at once.
#![tactic(auto)]

ghost use Rattle.std.specs.Prelude.{◌≡◌};
ghost use Rattle.op_batch_all.specs.All.{all_step_of};

use cells::read;
use op_batch::{first, put_at, take_at};
use parts::answer::Answer;
use parts::out::StepOut;
use parts::queue::Queue;
use parts::stage::{AllStage, BatchStage, Haul, PutStage, TakeStage};
use steal::Steal;

#[tactic(auto, unfolding(index::specs::Index::same_b))]
pub fn all_step(haul: Haul, at: AllStage, q: Queue, pool: &[u64]) -> StepOut<BatchStage>
    ensures { result ≡ all_step_of haul at q pool.now }
{
    match at {
        AllStage::Copy { i } => {
            let job = read(pool, haul.ring, first(haul.in_hand, haul.f).plus(i));
            put_at(q, haul, PutStage::WriteCopy { i, job })
        }
        AllStage::ReloadRing => {
            if q.ring.number == haul.ring.number {
                return take_at(q, haul, TakeStage::All(AllStage::Exchange));
            }
            StepOut::Ended(q, Answer::Stolen(Steal::Retry))
        }
        AllStage::Exchange => {
            if q.front == haul.f {
                let r = Queue {
                    front: first(haul.in_hand, haul.f).plus(haul.n),
                    ..q
                };
                return put_at(r, haul, PutStage::StoreBack);
            }
            StepOut::Ended(q, Answer::Stolen(Steal::Retry))
        }
    }
}
