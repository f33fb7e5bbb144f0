// Where an operation starts.
#![tactic(auto)]

ghost use Rattle.std.specs.Prelude.{◌≡◌, ◌-◌};
ghost use Rattle.starts.specs.Starts.{popping as poppingOf, first_stage};

use gate::Operation;
use parts::queue::Flavor;
use parts::stage::{
    BatchKind, FifoPopStage, LengthStage, LifoPopStage, PopStage, Popper, PushStage, SourceStage,
    Stage, StealStage,
};

fn popping(flavor: Flavor) -> PopStage
    ensures { result ≡ poppingOf flavor }
{
    match flavor {
        Flavor::Fifo => PopStage::Fifo(FifoPopStage::LoadBack),
        Flavor::Lifo => PopStage::Lifo(LifoPopStage::LoadBack),
    }
}

fn first_pop(popper: Popper, flavor: Flavor) -> Stage
    ensures { result ≡ Stage.Pop popper (poppingOf flavor) }
{
    Stage::Pop(popper, popping(flavor))
}

fn first_batch(kind: BatchKind, source: usize, limit: u64) -> Stage
    ensures { result ≡ Stage.BatchSource source (SourceStage.LoadFront kind (limit - 1)) }
{
    let others = limit.saturating_sub(1);
    Stage::BatchSource(source, SourceStage::LoadFront { kind, others })
}

// The first stage, for a thread whose own queue is this. From the own queue a batch looks, and a batch and pop pops.
pub fn first_stage(flavor: Flavor, own: usize, operation: Operation) -> Stage
    ensures { result ≡ first_stage flavor own operation }
{
    match operation {
        Operation::Push(job) => Stage::Push(job, PushStage::LoadBack),
        Operation::Pop => first_pop(Popper::Pop, flavor),
        Operation::Length(queue) => Stage::Length(queue, LengthStage::LoadBack),
        Operation::Steal(source) => Stage::Steal(source, StealStage::LoadFront),
        Operation::Batch { source, limit } => {
            if source == own {
                return Stage::OwnBatch(LengthStage::LoadBack);
            }
            first_batch(BatchKind::Batch, source, limit)
        }
        Operation::BatchAndPop { source, limit } => {
            if source == own {
                return first_pop(Popper::BatchAndPop, flavor);
            }
            first_batch(BatchKind::BatchAndPop, source, limit)
        }
    }
}
