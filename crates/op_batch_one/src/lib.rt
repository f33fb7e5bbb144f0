// From a LIFO source, one by one.
#![tactic(auto)]

ghost use Rattle.std.specs.Prelude.{◌≡◌};
ghost use Rattle.op_batch_one.specs.One.{one_step_of};

use cells::read;
use op_batch::{next_in_hand, onward, put_at, stopped, take_at, to_write, turning};
use parts::answer::Answer;
use parts::out::StepOut;
use parts::queue::{Flavor, Queue};
use parts::stage::{BatchStage, Haul, OneStage, PutStage, TakeStage};
use steal::Steal;

#[tactic(auto, unfolding(index::specs::Index::same_b))]
pub fn one_step(
    own: Flavor,
    haul: Haul,
    at: OneStage,
    q: Queue,
    pool: &[u64],
) -> StepOut<BatchStage>
    ensures { result ≡ one_step_of own haul at q pool.now }
{
    match at {
        OneStage::ExchangeFirst { job } => {
            if q.front == haul.f {
                let r = Queue {
                    front: haul.f.plus(1),
                    ..q
                };
                return turning(own, onward(haul, Some(job)), 0, r);
            }
            StepOut::Ended(q, Answer::Stolen(Steal::Retry))
        }
        OneStage::ReloadBack { i } => {
            if q.back.is_empty(haul.f) {
                return stopped(own, haul, i, q);
            }
            take_at(q, haul, TakeStage::One(OneStage::Read { i }))
        }
        OneStage::Read { i } => {
            let job = read(pool, haul.ring, haul.f);
            take_at(q, haul, TakeStage::One(OneStage::ReloadRing { i, job }))
        }
        OneStage::ReloadRing { i, job } => {
            if q.ring.number == haul.ring.number {
                return take_at(q, haul, TakeStage::One(OneStage::Exchange { i, job }));
            }
            stopped(own, haul, i, q)
        }
        OneStage::Exchange { i, job } => {
            if q.front == haul.f {
                let r = Queue {
                    front: haul.f.plus(1),
                    ..q
                };
                let next = onward(haul, next_in_hand(haul.in_hand, job));
                let written = to_write(haul.in_hand, job);
                return put_at(r, next, PutStage::WriteOne { i, job: written });
            }
            stopped(own, haul, i, q)
        }
    }
}
