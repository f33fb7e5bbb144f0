// A single steal, a step at a time.
#![tactic(auto)]

ghost use Rattle.std.specs.Prelude.{◌≡◌};
ghost use Rattle.op_steal.specs.Steal.{steal_of};

use cells::read;
use parts::answer::Answer;
use parts::out::StepOut;
use parts::queue::Queue;
use parts::stage::StealStage;
use steal::Steal;

// A step of a steal from queue q.
#[tactic(auto, unfolding(index::specs::Index::same_b))]
pub fn steal_step(at: StealStage, q: Queue, pool: &[u64]) -> StepOut<StealStage>
    ensures { result ≡ steal_of at q pool.now }
{
    match at {
        StealStage::LoadFront => {
            let f = q.front;
            StepOut::Going(q, StealStage::LoadBack { f })
        }
        StealStage::LoadBack { f } => {
            if q.back.is_empty(f) {
                return StepOut::Ended(q, Answer::Stolen(Steal::Empty));
            }
            StepOut::Going(q, StealStage::LoadRing { f })
        }
        StealStage::LoadRing { f } => {
            let ring = q.ring;
            StepOut::Going(q, StealStage::Read { f, ring })
        }
        StealStage::Read { f, ring } => {
            let job = read(pool, ring, f);
            StepOut::Going(q, StealStage::ReloadRing { f, ring, job })
        }
        StealStage::ReloadRing { f, ring, job } => {
            if q.ring.number == ring.number {
                return StepOut::Going(q, StealStage::Exchange { f, ring, job });
            }
            StepOut::Ended(q, Answer::Stolen(Steal::Retry))
        }
        StealStage::Exchange { f, job, .. } => {
            if q.front == f {
                let r = Queue {
                    front: f.plus(1),
                    ..q
                };
                return StepOut::Ended(r, Answer::Stolen(Steal::Success(job)));
            }
            StepOut::Ended(q, Answer::Stolen(Steal::Retry))
        }
    }
}
