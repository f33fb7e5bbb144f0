// What a claim finds, and what a step leaves: of a resize, of an operation, of a thread.
ghost use Rattle.std.specs.Prelude.{◌≡◌};
ghost use Rattle.parts.specs.Out.{going as goingOf, ended as ended_of};

use crate::answer::Answer;
use crate::queue::Queue;
use crate::stage::{ResizeStage, Stage};
use ring::{PlaceNumber, RingNumber};

// The ring that a claim found.
#[derive(Clone, Copy)]
pub struct Claimed {
    pub number: RingNumber,
    pub place: PlaceNumber,
}

// What a claim found, where the step makes one. Queue, claim and pool are passed one by one: a step takes those that it may look at, and no other.
pub type Claim = Option<Claimed>;

// What a step of a resize leaves: a further stage; no ring to be had; or the queue with its new ring. Three outcomes, which each operation tells apart.
#[derive(Clone, Copy)]
pub enum Resized {
    Stage(ResizeStage),
    NoRing,
    Done(Queue),
}

// What a step of an operation leaves: the queue that it touched, with the operation's next stage or its answer. Neither is a failure, so it is no Result.
#[derive(Clone, Copy)]
pub enum StepOut<S> {
    Going(Queue, S),
    Ended(Queue, Answer),
}

// What a step leaves: the one queue that it touched, the thread's stage, the answer.
#[derive(Clone, Copy)]
pub struct Out {
    pub queue: Queue,
    pub stage: Stage,
    pub answer: Answer,
}

impl Out {
    // The operation goes on at a stage.
    pub fn going(queue: Queue, stage: Stage) -> Out
        ensures { result ≡ goingOf queue stage }
    {
        Out {
            queue,
            stage,
            answer: Answer::Working,
        }
    }

    // The operation ends with an answer, and the thread is idle.
    pub fn ended(queue: Queue, answer: Answer) -> Out
        ensures { result ≡ ended_of queue answer }
    {
        Out {
            queue,
            stage: Stage::Idle,
            answer,
        }
    }
}
