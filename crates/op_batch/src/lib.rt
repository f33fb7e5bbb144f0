// What both halves of a batch share: how many jobs it wants, which stage comes next, which cells it works on. The own flavour, the haul and a queue stand
// side by side in many of these: they are what a step works on, and each takes them apart at once.
#![tactic(auto)]

ghost use Rattle.std.specs.Prelude.{◌≡◌, ◌+◌};
ghost use Rattle.op_batch.specs.Haul.{take_at, put_at, reserve_at, wanted_of, reserving as reservingOf, with_job, onward as onwardOf, with_count, turn_of, first_of, copying as copyingOf, mirror_of, slot_of, swapping as swappingOf, landing as landingOf, stopped as stoppedOf, turning as turningOf, written_after, to_write, next_in_hand, answer_of};

use index::Index;
use parts::answer::Answer;
use parts::out::StepOut;
use parts::queue::{Flavor, Queue};
use parts::stage::{
    AllStage, BatchKind, BatchStage, Haul, OneStage, OwnStage, PutStage, ReserveStage, SourceStage,
    SwapStage, TakeStage, Wanted,
};
use steal::Steal;

// On to a stage of a part of the batch: each names one of the stages that the tables go on to most.
pub fn take_at(q: Queue, haul: Haul, at: TakeStage) -> StepOut<BatchStage>
    ensures { result ≡ take_at q haul at }
{
    StepOut::Going(q, BatchStage::Source(SourceStage::Take(haul, at)))
}

pub fn put_at(q: Queue, haul: Haul, at: PutStage) -> StepOut<BatchStage>
    ensures { result ≡ put_at q haul at }
{
    StepOut::Going(q, BatchStage::Own(OwnStage::Put(haul, at)))
}

pub fn reserve_at(q: Queue, wanted: Wanted, at: ReserveStage) -> StepOut<BatchStage>
    ensures { result ≡ reserve_at q wanted at }
{
    StepOut::Going(q, BatchStage::Own(OwnStage::Reserve(wanted, at)))
}

// How many jobs to move, of a source with length d, where the limit is others + 1.
pub fn wanted(kind: BatchKind, d: u64, others: u64) -> u64
    ensures { result ≡ wanted_of kind d others }
{
    match kind {
        BatchKind::Batch => d.div_ceil(2).min(others.saturating_add(1)),
        BatchKind::BatchAndPop => others.min(d.saturating_sub(1) / 2),
    }
}

// Reserve room in the own queue, if there is anything to move.
pub fn reserving(wanted: Wanted) -> OwnStage
    ensures { result ≡ reservingOf wanted }
{
    if wanted.n == 0 {
        return OwnStage::LoadBack { wanted };
    }
    OwnStage::Reserve(wanted, ReserveStage::LoadBack)
}

pub fn with_job(haul: Haul, job: u64) -> Haul
    ensures { result ≡ with_job haul job }
{
    Haul {
        in_hand: Some(job),
        ..haul
    }
}

// An exchange was won: f goes up.
pub fn onward(haul: Haul, in_hand: Option<u64>) -> Haul
    ensures { result ≡ onwardOf haul in_hand }
{
    Haul {
        f: haul.f.plus(1),
        in_hand,
        ..haul
    }
}

fn with_count(haul: Haul, n: u64) -> Haul
    ensures { result ≡ with_count haul n }
{
    Haul { n, ..haul }
}

// Of n, so many are done: the next, or none.
pub fn turn(n: u64, done: u64) -> Option<u64>
    ensures { result ≡ turn_of n done }
{
    if n <= done {
        return None;
    }
    Some(done)
}

// Of n, one more than so many are done. Not `turn` of one more: that number may not fit.
pub fn turn_after(n: u64, done: u64) -> Option<u64>
    ensures { result ≡ turn_of n (done + 1) }
{
    if n <= done {
        return None;
    }
    turn(n, done + 1)
}

// The first of the jobs to be copied: at f, or the next where the job at f is in hand.
pub fn first(in_hand: Option<u64>, f: Index) -> Index
    ensures { result ≡ first_of in_hand f }
{
    in_hand.map_or(f, |_| f.plus(1))
}

// Copy the next, or load the ring again.
pub fn copying(further: Option<u64>) -> TakeStage
    ensures { result ≡ copyingOf further }
{
    match further {
        Some(i) => TakeStage::All(AllStage::Copy { i }),
        None => TakeStage::All(AllStage::ReloadRing),
    }
}

// The own index of the i-th job from the other end.
pub fn mirror(haul: Haul, i: u64) -> Index
    ensures { result ≡ mirror_of haul i }
{
    haul.b.plus(haul.n).minus(1).minus(i)
}

// The own index that takes the i-th job copied: into a LIFO queue last first.
pub fn slot(own: Flavor, haul: Haul, i: u64) -> Index
    ensures { result ≡ slot_of own haul i }
{
    match own {
        Flavor::Fifo => haul.b.plus(i),
        Flavor::Lifo => mirror(haul, i),
    }
}

// Make the next swap, or store the own back.
pub fn swapping(further: Option<u64>) -> PutStage
    ensures { result ≡ swappingOf further }
{
    match further {
        Some(x) => PutStage::Swap {
            x,
            at: SwapStage::ReadNear,
        },
        None => PutStage::StoreBack,
    }
}

// All n are written: into a FIFO queue they are reversed.
fn landing(own: Flavor, n: u64) -> PutStage
    ensures { result ≡ landingOf own n }
{
    match own {
        Flavor::Fifo => swapping(turn(n / 2, 0)),
        Flavor::Lifo => PutStage::StoreBack,
    }
}

// Taking one by one is over, with so many written.
pub fn stopped(own: Flavor, haul: Haul, i: u64, q: Queue) -> StepOut<BatchStage>
    ensures { result ≡ stoppedOf own haul i q }
{
    if haul.in_hand.is_none() && i == 0 {
        return StepOut::Ended(q, Answer::Stolen(Steal::Retry));
    }
    put_at(q, with_count(haul, i), landing(own, i))
}

// So many are written: load the back again for the next, or stop after n.
pub fn turning(own: Flavor, haul: Haul, i: u64, q: Queue) -> StepOut<BatchStage>
    ensures { result ≡ turningOf own haul i q }
{
    if haul.n <= i {
        return stopped(own, haul, i, q);
    }
    take_at(q, haul, TakeStage::One(OneStage::ReloadBack { i }))
}

// One more than so many are written.
pub fn written_after(i: u64) -> u64
    ensures { result ≡ written_after i }
{
    i.wrapping_add(1)
}

// The exchange for a job was won: what to write, of a batch and pop the previous job.
pub fn to_write(in_hand: Option<u64>, job: u64) -> u64
    ensures { result ≡ to_write in_hand job }
{
    in_hand.unwrap_or(job)
}

pub fn next_in_hand(in_hand: Option<u64>, job: u64) -> Option<u64>
    ensures { result ≡ next_in_hand in_hand job }
{
    in_hand.and(Some(job))
}

pub fn answer(in_hand: Option<u64>) -> Answer
    ensures { result ≡ answer_of in_hand }
{
    match in_hand {
        None => Answer::Moved,
        Some(job) => Answer::Stolen(Steal::Success(job)),
    }
}
