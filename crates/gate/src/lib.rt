// What a call asks for, and the tests that turn it away.
#![tactic(auto)]

ghost use Rattle.std.specs.Prelude.{◌≡◌};
ghost use Rattle.gate.specs.Gate.{own_queue};

pub mod tests;

// What a thread can begin. The owner's operations work on the thread's own queue; the others name a queue.
#[derive(Clone, Copy)]
pub enum Operation {
    Push(u64),
    Pop,
    Length(usize),
    Steal(usize),
    Batch { source: usize, limit: u64 },
    BatchAndPop { source: usize, limit: u64 },
}

// What a call asks of a thread: a step is a request too, and no absence of one.
#[derive(Clone, Copy)]
pub enum Request {
    Step,
    Begin(Operation),
}

// Thread t owns queue t.
pub fn own_queue(thread: usize) -> usize
    ensures { result ≡ own_queue thread }
{
    thread
}
