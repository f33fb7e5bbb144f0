// The machine, its parts, and the machine with one part changed.
ghost use Rattle.std.specs.Prelude.{◌≡◌, slice_set};
ghost use Rattle.places.specs.Places.{kept_in};
ghost use Rattle.machine.specs.State.{queue_at, stage_at, kept_at, with_stage, number_after, refused_of};

use keeps::{Kept, ring_kept};
use parts::answer::{Answer, Refusal};
use parts::out::Claim;
use parts::queue::{Queue, queue_of};
use parts::stage::Stage;
use places::rings::Rings;
use ring::RingNumber;

#[derive(Clone, Copy)]
pub struct Thread {
    pub stage: Stage,
}

// Memory is fixed, so there are four of each; queues and threads above the count are not looked at.
#[derive(Clone, Copy)]
pub struct Machine {
    pub queues: [Queue; 4],
    pub threads: [Thread; 4],
    pub queue_count: usize,
    pub place_count: usize,
    pub next_ring: RingNumber,
}

// What a call leaves: the next machine, and the answer.
#[derive(Clone, Copy)]
pub struct Called {
    pub machine: Machine,
    pub answer: Answer,
}

// By index: through `get_mut` the proof did not close.
pub(crate) fn queues_with(mut queues: [Queue; 4], k: usize, q: Queue) -> [Queue; 4]
    ensures { result ≡ slice_set queues k q }
{
    if k < 4 {
        queues[k] = q;
    }
    queues
}

// A ring number that was given is never given again.
pub(crate) fn number_after(next: RingNumber, claim: Claim) -> RingNumber
    ensures { result ≡ number_after next claim }
{
    claim.map_or(next, |claimed| claimed.number.next())
}

impl Machine {
    // Queue k, and zeros where there is none. The machine is lent, here and to its tests: handed over, it would be copied at
    // each look.
    pub fn queue(&self, k: usize) -> Queue
        ensures { result ≡ queue_at self.now k }
    {
        queue_of(&self.queues, k)
    }

    // Thread t's stage, and idle where there is none.
    pub fn stage(&self, t: usize) -> Stage
        ensures { result ≡ stage_at self.now t }
    {
        self.threads
            .get(t)
            .map_or(Stage::Idle, |thread| thread.stage)
    }

    // The rings that the threads keep.
    fn rings_kept(&self) -> [Kept; 4]
        ensures { kept_in result ≡ kept_at self.now }
    {
        self.threads.map(|thread| ring_kept(thread.stage))
    }

    // The rings that places are looked up in. Inlined, since a call of its own would move the queues by `memmove`, which the library for firmware does not need
    // otherwise.
    #[inline(always)]
    pub(crate) fn rings(&self) -> Rings
        ensures queues { result.queues ≡ self.now.queues }
        ensures kept { kept_in result.kept ≡ kept_at self.now }
        ensures count { result.count ≡ self.now.queue_count }
    {
        let queues = self.queues;
        let kept = self.rings_kept();
        Rings {
            queues,
            kept,
            count: self.queue_count,
        }
    }

    // By index, as `queues_with`.
    pub(crate) fn with_stage(mut self, t: usize, stage: Stage) -> Machine
        ensures { result ≡ with_stage self t stage }
    {
        if t < 4 {
            self.threads[t] = Thread { stage };
        }
        self
    }

    // All as it was.
    pub(crate) fn refused(self, refusal: Refusal) -> Called
        ensures { result ≡ refused_of self refusal }
    {
        Called {
            machine: self,
            answer: Answer::Refused(refusal),
        }
    }
}
