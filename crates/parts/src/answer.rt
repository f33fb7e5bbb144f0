// What a call answers, with its numbers in 01's table.
ghost use Rattle.std.specs.Prelude.{◌≡◌};
ghost use Rattle.parts.specs.Answers.{refusal_of, shortage_of};

use steal::Steal;

// Why a call was turned away.
#[derive(Clone, Copy)]
pub enum Refusal {
    PoolLength = 1,
    Counts = 2,
    Unsound = 3,
    NoSuch = 4,
    Busy = 5,
    Idle = 6,
    NoLimit = 7,
}

// Why a push or a batch ended with nothing done.
#[derive(Clone, Copy)]
pub enum Shortage {
    TooLarge = 8,
    NoRing = 9,
}

// What a call answers. Nothing, gave up and refused stand among the others, as in the table that `told` numbers them by.
#[derive(Clone, Copy)]
pub enum Answer {
    // A begin, and a step that is not the last.
    Working,
    // A push, and a setup.
    Done,
    // A pop.
    Job(u64),
    Nothing,
    // A steal, and a batch and pop. Of a batch: Empty and Retry.
    Stolen(Steal),
    // A batch's Success, which carries no job.
    Moved,
    // A length's two numbers.
    Length { difference: i64, length: u64 },
    GaveUp(Shortage),
    Refused(Refusal),
}

impl Refusal {
    pub fn number(self) -> u64
        ensures { result ≡ refusal_of self }
    {
        self as u64
    }
}

impl Shortage {
    pub fn number(self) -> u64
        ensures { result ≡ shortage_of self }
    {
        self as u64
    }
}
