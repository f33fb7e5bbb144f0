// A pop from the back.
#![tactic(auto)]

ghost use Rattle.std.specs.Prelude.{◌≡◌};
ghost use Rattle.op_pop_lifo.specs.LifoPop.{lifo as lifo_of, decided as decidedOf, few_b, lifo_pop_of};

use cells::read;
use index::Index;
use op_shrink::{nothing_for, others, reading};
use parts::out::StepOut;
use parts::queue::Queue;
use parts::stage::{LifoPopStage, PopStage, Popper};
use ring::Ring;

// On to a stage of the pop.
fn lifo(q: Queue, at: LifoPopStage) -> StepOut<PopStage>
    ensures { result ≡ lifo_of q at }
{
    StepOut::Going(q, PopStage::Lifo(at))
}

// The back b - 1 is stored, and the front f loaded after it.
fn decided(b: Index, f: Index) -> LifoPopStage
    ensures { result ≡ decidedOf b f }
{
    let last = b.minus(1);
    if last.is_behind(f) {
        return LifoPopStage::RestoreBack { b };
    }
    if last.is_empty(f) {
        return LifoPopStage::ReadLast { b };
    }
    let others = others(last, f);
    LifoPopStage::Read { b, others }
}

// d, which is one more than the others, is below a quarter of the capacity, and that is not the smallest.
fn is_few(others: u64, capacity: usize) -> bool
    ensures { result ≡ few_b others capacity }
{
    if capacity <= Ring::SMALLEST {
        return false;
    }
    others < capacity as u64 / 4 - 1
}

// A step of a pop from the back of queue q.
#[tactic(auto, unfolding(index::specs::Index::same_b))]
pub fn lifo_pop_step(popper: Popper, at: LifoPopStage, q: Queue, pool: &[u64]) -> StepOut<PopStage>
    ensures { result ≡ lifo_pop_of popper at q pool.now }
{
    match at {
        LifoPopStage::LoadBack => {
            let b = q.back;
            lifo(q, LifoPopStage::LoadFront { b })
        }
        LifoPopStage::LoadFront { b } => {
            if b.is_empty(q.front) {
                return StepOut::Ended(q, nothing_for(popper));
            }
            lifo(q, LifoPopStage::StoreBack { b })
        }
        LifoPopStage::StoreBack { b } => {
            let r = Queue {
                back: b.minus(1),
                ..q
            };
            lifo(r, LifoPopStage::ReloadFront { b })
        }
        LifoPopStage::ReloadFront { b } => lifo(q, decided(b, q.front)),
        LifoPopStage::RestoreBack { b } => {
            let r = Queue { back: b, ..q };
            StepOut::Ended(r, nothing_for(popper))
        }
        LifoPopStage::ReadLast { b } => {
            let job = read(pool, q.ring, b.minus(1));
            lifo(q, LifoPopStage::Exchange { b, job })
        }
        LifoPopStage::Exchange { b, job } => {
            let f = b.minus(1);
            if q.front == f {
                let r = Queue {
                    front: f.plus(1),
                    ..q
                };
                return lifo(r, LifoPopStage::RestoreBackWon { b, job });
            }
            lifo(q, LifoPopStage::RestoreBack { b })
        }
        LifoPopStage::RestoreBackWon { b, job } => {
            let r = Queue { back: b, ..q };
            reading(false, popper, job, r)
        }
        LifoPopStage::Read { b, others } => {
            let job = read(pool, q.ring, b.minus(1));
            reading(is_few(others, q.ring.capacity), popper, job, q)
        }
    }
}
