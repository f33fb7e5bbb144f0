// The steps of a batch on its source.
#![tactic(auto)]

ghost use Rattle.std.specs.Prelude.{◌≡◌};
ghost use Rattle.op_batch.specs.Haul.{hauling as haulingOf};
ghost use Rattle.op_batch_source.specs.Source.{taking as takingOf, held as held_of, first_read, take_of, source_of};

use cells::read;
use index::Index;
use op_batch::{copying, reserving, stopped, take_at, turn, wanted, with_job};
use op_batch_all::all_step;
use op_batch_one::one_step;
use parts::answer::Answer;
use parts::out::StepOut;
use parts::queue::{Flavor, Queue};
use parts::stage::{BatchKind, BatchStage, Haul, OneStage, SourceStage, TakeStage, Wanted};
use ring::Ring;
use steal::Steal;

// From here on the ring is held.
fn hauling(ring: Ring, wanted: Wanted, b: Index) -> Haul
    ensures { result ≡ haulingOf ring wanted b }
{
    Haul {
        ring,
        f: wanted.f,
        n: wanted.n,
        b,
        in_hand: None,
    }
}

// A batch takes by the source's flavour: all at once, or one by one.
fn taking(flavor: Flavor, own: Flavor, haul: Haul, q: Queue) -> StepOut<BatchStage>
    ensures { result ≡ takingOf flavor own haul q }
{
    match flavor {
        Flavor::Fifo => take_at(q, haul, copying(turn(haul.n, 0))),
        Flavor::Lifo => {
            if haul.n <= 0 {
                return stopped(own, haul, 0, q);
            }
            take_at(q, haul, TakeStage::One(OneStage::Read { i: 0 }))
        }
    }
}

fn held(kind: BatchKind, own: Flavor, haul: Haul, q: Queue) -> StepOut<BatchStage>
    ensures { result ≡ held_of kind own haul q }
{
    match kind {
        BatchKind::Batch => taking(q.flavor, own, haul, q),
        BatchKind::BatchAndPop => take_at(q, haul, TakeStage::ReadFirst),
    }
}

// A batch and pop has read its first job.
fn first_read(flavor: Flavor, haul: Haul, job: u64, q: Queue) -> StepOut<BatchStage>
    ensures { result ≡ first_read flavor haul job q }
{
    match flavor {
        Flavor::Fifo => take_at(q, with_job(haul, job), copying(turn(haul.n, 0))),
        Flavor::Lifo => { take_at(q, haul, TakeStage::One(OneStage::ExchangeFirst { job })) }
    }
}

// A step while the source's ring is held.
pub fn take_step(
    own: Flavor,
    haul: Haul,
    at: TakeStage,
    q: Queue,
    pool: &[u64],
) -> StepOut<BatchStage>
    ensures { result ≡ take_of own haul at q pool.now }
{
    match at {
        TakeStage::ReadFirst => {
            let job = read(pool, haul.ring, haul.f);
            first_read(q.flavor, haul, job, q)
        }
        TakeStage::All(stage) => all_step(haul, stage, q, pool),
        TakeStage::One(stage) => one_step(own, haul, stage, q, pool),
    }
}

// A step on the source q; own is the flavour of the thread's own queue.
pub fn source_step(own: Flavor, at: SourceStage, q: Queue, pool: &[u64]) -> StepOut<BatchStage>
    ensures { result ≡ source_of own at q pool.now }
{
    match at {
        SourceStage::LoadFront { kind, others } => {
            let f = q.front;
            let next = SourceStage::LoadBack { kind, others, f };
            StepOut::Going(q, BatchStage::Source(next))
        }
        SourceStage::LoadBack { kind, others, f } => {
            if q.back.is_empty(f) {
                return StepOut::Ended(q, Answer::Stolen(Steal::Empty));
            }
            let n = wanted(kind, q.back.length(f), others);
            let next = reserving(Wanted { kind, f, n });
            StepOut::Going(q, BatchStage::Own(next))
        }
        SourceStage::LoadRing { wanted, b } => held(
            wanted.kind,
            own,
            hauling(q.ring, wanted, b),
            q,
        ),
        SourceStage::Take(haul, stage) => take_step(own, haul, stage, q, pool),
    }
}
