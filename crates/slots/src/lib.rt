// The words of a queue, of an answer and of a stage, slot by slot. A slot that a stage does not use is 0. Kinds, operations and steps stay numbers here:
// callers in C and machines that were stored see them.
#![tactic(auto)]

ghost use Rattle.std.specs.Prelude.{◌≡◌};
ghost use Rattle.slots.specs.Slots.{bare as bareOf, with_ring, with_operation, ring_of};

use ring::{PlaceNumber, Ring, RingNumber};

pub mod answer;
pub mod queue;

// Words that no stage has differ from those of the stage that they are read as.
#[derive(Clone, Copy, Default, PartialEq, Eq)]
pub struct StageWords {
    // 0 idle, 1 push, 2 pop, 3 steal, 4 length, 5 batch from the own queue, 6 and 7 the steps of a batch on its source and on the own queue.
    pub operation: u64,
    // The job of a push; who pops; the queue that any other operation names.
    pub number: u64,
    // 0 batch, 1 batch and pop, until the source's ring is held; from then on the job in hand tells.
    pub kind: u64,
    pub step: u64,
    pub f: u64,
    pub b: u64,
    // How many jobs are wanted; of a pop the difference that it saw, less one; of a batch before its load of back the limit less one.
    pub n: u64,
    // How many were copied, written or swapped; of a resize the index that is copied next.
    pub i: u64,
    // The back that a resize loaded.
    pub end: u64,
    // A job that was read; of a swap the near one.
    pub job: u64,
    pub far: u64,
    // 1 where a batch and pop has the job that it answers, and that job.
    pub hand: u64,
    pub held: u64,
    // The ring that is kept: its number, its place and its capacity; or the capacity that a resize is for.
    pub ring: u64,
    pub place: u64,
    pub capacity: u64,
}

impl StageWords {
    // A step that remembers nothing.
    pub fn bare(step: u64) -> StageWords
        ensures { result ≡ bareOf step }
    {
        StageWords {
            step,
            ..StageWords::default()
        }
    }

    pub fn with_ring(self, ring: Ring) -> StageWords
        ensures { result ≡ with_ring ring self }
    {
        StageWords {
            ring: ring.number.0,
            place: ring.place.0 as u64,
            capacity: ring.capacity as u64,
            ..self
        }
    }

    // The operation that the step belongs to, and the number that it carries.
    pub fn with_operation(self, operation: u64, number: u64) -> StageWords
        ensures { result ≡ with_operation operation number self }
    {
        StageWords {
            operation,
            number,
            ..self
        }
    }

    pub fn ring_of(self) -> Ring
        ensures { result ≡ ring_of self }
    {
        Ring {
            number: RingNumber(self.ring),
            place: PlaceNumber(self.place as usize),
            capacity: self.capacity as usize,
        }
    }
}
