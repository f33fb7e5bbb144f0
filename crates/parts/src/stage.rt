// Where a thread stands in its operation, with what it remembers there: data and no closure, since it is kept between calls, and as words.
// A variant is the step to be made next, named after its line in the tables; b and f are a back and a front that were loaded.
ghost use Rattle.std.specs.Prelude.{◌≡◌};
ghost use Rattle.parts.specs.Stages.{resize_in};

use index::Index;
use ring::Ring;

// A resize of the own queue to a capacity; then to a ring that was claimed.
#[derive(Clone, Copy)]
pub enum ResizeStage {
    LoadBack { capacity: usize },
    LoadFront { capacity: usize, b: Index },
    Copy { b: Index, i: Index, ring: Ring },
    Swap { ring: Ring },
}

#[derive(Clone, Copy)]
pub enum PushStage {
    LoadBack,
    LoadFront { b: Index },
    Resize { b: Index, at: ResizeStage },
    Write { b: Index },
    StoreBack { b: Index },
}

// others: the difference first seen, which is above 0 there, less one.
#[derive(Clone, Copy)]
pub enum FifoPopStage {
    LoadBack,
    LoadFront { b: Index },
    FetchAdd { b: Index, others: u64 },
    RestoreFront { f: Index },
    Read { f: Index, others: u64 },
}

// others: the difference b - 1 - f, which is above 0 there, less one. The last job is at b - 1, and so is the front that was loaded.
#[derive(Clone, Copy)]
pub enum LifoPopStage {
    LoadBack,
    LoadFront { b: Index },
    StoreBack { b: Index },
    ReloadFront { b: Index },
    RestoreBack { b: Index },
    ReadLast { b: Index },
    Exchange { b: Index, job: u64 },
    RestoreBackWon { b: Index, job: u64 },
    Read { b: Index, others: u64 },
}

#[derive(Clone, Copy)]
pub enum PopStage {
    Fifo(FifoPopStage),
    Lifo(LifoPopStage),
    Shrink { job: u64, at: ResizeStage },
}

// Who pops: a pop, or a batch and pop from the thread's own queue, which answers as a steal does.
#[derive(Clone, Copy)]
pub enum Popper {
    Pop = 0,
    BatchAndPop = 1,
}

// The ring is held from its load until the answer.
#[derive(Clone, Copy)]
pub enum StealStage {
    LoadFront,
    LoadBack { f: Index },
    LoadRing { f: Index },
    Read { f: Index, ring: Ring },
    ReloadRing { f: Index, ring: Ring, job: u64 },
    Exchange { f: Index, ring: Ring, job: u64 },
}

// A step that has loaded nothing is one too, as in every operation.
#[derive(Clone, Copy)]
pub enum LengthStage {
    LoadBack,
    LoadFront { b: Index },
}

// A batch moves jobs; a batch and pop also answers one.
#[derive(Clone, Copy)]
pub enum BatchKind {
    Batch = 0,
    BatchAndPop = 1,
}

// n jobs from f on are wanted for the own queue.
#[derive(Clone, Copy)]
pub struct Wanted {
    pub kind: BatchKind,
    pub f: Index,
    pub n: u64,
}

// From the load of the source's ring on: the ring, held until the answer; the source's front f; how many jobs go to the own queue, from
// its back b on. in_hand: the job that a batch and pop is to answer.
#[derive(Clone, Copy)]
pub struct Haul {
    pub ring: Ring,
    pub f: Index,
    pub n: u64,
    pub b: Index,
    pub in_hand: Option<u64>,
}

// Taking from a FIFO source all at once. i: jobs copied so far.
#[derive(Clone, Copy)]
pub enum AllStage {
    Copy { i: u64 },
    ReloadRing,
    Exchange,
}

// Taking from a LIFO source one by one. i: jobs written so far.
#[derive(Clone, Copy)]
pub enum OneStage {
    ExchangeFirst { job: u64 },
    ReloadBack { i: u64 },
    Read { i: u64 },
    ReloadRing { i: u64, job: u64 },
    Exchange { i: u64, job: u64 },
}

// Taking from the source, while its ring is held.
#[derive(Clone, Copy)]
pub enum TakeStage {
    ReadFirst,
    All(AllStage),
    One(OneStage),
}

// The steps of a batch on its source. others: the limit less one.
#[derive(Clone, Copy)]
pub enum SourceStage {
    LoadFront {
        kind: BatchKind,
        others: u64,
    },
    LoadBack {
        kind: BatchKind,
        others: u64,
        f: Index,
    },
    LoadRing {
        wanted: Wanted,
        b: Index,
    },
    Take(Haul, TakeStage),
}

#[derive(Clone, Copy)]
pub enum ReserveStage {
    LoadBack,
    LoadFront { b: Index },
    Resize(ResizeStage),
}

// A swap of the reversal.
#[derive(Clone, Copy)]
pub enum SwapStage {
    ReadNear,
    ReadFar { near: u64 },
    WriteNear { near: u64, far: u64 },
    WriteFar { near: u64 },
}

// Putting what was taken into the own queue. The reversal is by swaps from the outside in; x: swaps made so far.
#[derive(Clone, Copy)]
pub enum PutStage {
    WriteCopy { i: u64, job: u64 },
    WriteOne { i: u64, job: u64 },
    Swap { x: u64, at: SwapStage },
    StoreBack,
}

// The steps of a batch on the thread's own queue.
#[derive(Clone, Copy)]
pub enum OwnStage {
    Reserve(Wanted, ReserveStage),
    LoadBack { wanted: Wanted },
    Put(Haul, PutStage),
}

// The steps of a batch, on its source or on the thread's own queue.
#[derive(Clone, Copy)]
pub enum BatchStage {
    Source(SourceStage),
    Own(OwnStage),
}

// Of a steal, a length and a batch the first number is the queue that it names.
#[derive(Clone, Copy)]
pub enum Stage {
    Idle,
    Push(u64, PushStage),
    Pop(Popper, PopStage),
    Steal(usize, StealStage),
    Length(usize, LengthStage),
    OwnBatch(LengthStage),
    BatchSource(usize, SourceStage),
    BatchOwn(usize, OwnStage),
}

impl Stage {
    // The resize that the stage is in, of a push, a pop or a batch. Inlined, since mostly there is none, and a call would
    // take the whole stage apart to say so.
    #[inline(always)]
    pub fn resize(self) -> Option<ResizeStage>
        ensures { result ≡ resize_in self }
    {
        match self {
            Stage::Push(_, PushStage::Resize { at, .. })
            | Stage::Pop(_, PopStage::Shrink { at, .. })
            | Stage::BatchOwn(_, OwnStage::Reserve(_, ReserveStage::Resize(at))) => Some(at),
            _ => None,
        }
    }
}
