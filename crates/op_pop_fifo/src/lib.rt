// A pop from the front.
#![tactic(auto)]

ghost use Rattle.std.specs.Prelude.{◌≡◌};
ghost use Rattle.op_pop_fifo.specs.FifoPop.{fifo as fifo_of, fifo_pop_of};

use cells::read;
use op_shrink::{nothing_for, others, reading};
use parts::out::StepOut;
use parts::queue::Queue;
use parts::stage::{FifoPopStage, PopStage, Popper};
use ring::Ring;

// On to a stage of the pop.
fn fifo(q: Queue, at: FifoPopStage) -> StepOut<PopStage>
    ensures { result ≡ fifo_of q at }
{
    StepOut::Going(q, PopStage::Fifo(at))
}

// A step of a pop from the front of queue q.
pub fn fifo_pop_step(popper: Popper, at: FifoPopStage, q: Queue, pool: &[u64]) -> StepOut<PopStage>
    ensures { result ≡ fifo_pop_of popper at q pool.now }
{
    match at {
        FifoPopStage::LoadBack => {
            let b = q.back;
            fifo(q, FifoPopStage::LoadFront { b })
        }
        FifoPopStage::LoadFront { b } => {
            if b.is_empty(q.front) {
                return StepOut::Ended(q, nothing_for(popper));
            }
            let others = others(b, q.front);
            fifo(q, FifoPopStage::FetchAdd { b, others })
        }
        FifoPopStage::FetchAdd { b, others } => {
            let f = q.front;
            let r = Queue {
                front: f.plus(1),
                ..q
            };
            if b.is_behind(r.front) {
                return fifo(r, FifoPopStage::RestoreFront { f });
            }
            fifo(r, FifoPopStage::Read { f, others })
        }
        FifoPopStage::RestoreFront { f } => {
            let r = Queue { front: f, ..q };
            StepOut::Ended(r, nothing_for(popper))
        }
        FifoPopStage::Read { f, others } => {
            let capacity = q.ring.capacity;
            let job = read(pool, q.ring, f);
            let few = (Ring::SMALLEST < capacity) & (others < capacity as u64 / 4);
            reading(few, popper, job, q)
        }
    }
}
