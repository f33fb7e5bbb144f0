// The kinds of calls, by their numbers, and what a call of a kind asks for. Thread, kind, source and operand are the four numbers of a call, which come one
// by one from a session's text and from C.
#![tactic(auto)]

ghost use Rattle.std.specs.Prelude.{◌≡◌};
ghost use Rattle.kinds.specs.Kinds.{kind_of, source_b, operand_b, request_of};

use gate::{Operation, Request, own_queue};

#[derive(Clone, Copy)]
pub enum Kind {
    Step,
    Push,
    Pop,
    OwnLength,
    Length,
    Steal,
    Batch,
    BatchAndPop,
}

// A number that is no kind's.
#[derive(Clone, Copy)]
pub struct UnknownKind(pub u64);

impl TryFrom<u64> for Kind {
    type Error = UnknownKind;

    ghost try_from_gives = { λ number result. result ≡ kind_of number };

    #[tactic(auto, unfolding(crate::specs::Kinds::kind_of))]
    fn try_from(number: u64) -> Result<Kind, UnknownKind> {
        match number {
            0 => Ok(Kind::Step),
            1 => Ok(Kind::Push),
            2 => Ok(Kind::Pop),
            3 => Ok(Kind::OwnLength),
            4 => Ok(Kind::Length),
            5 => Ok(Kind::Steal),
            6 => Ok(Kind::Batch),
            7 => Ok(Kind::BatchAndPop),
            _ => Err(UnknownKind(number)),
        }
    }
}

// The kind names a source queue.
pub fn has_source(kind: Kind) -> bool
    ensures { result ≡ source_b kind }
{
    matches!(
        kind,
        Kind::Length | Kind::Steal | Kind::Batch | Kind::BatchAndPop
    )
}

// The kind has an operand: a job or a limit.
pub fn has_operand(kind: Kind) -> bool
    ensures { result ≡ operand_b kind }
{
    matches!(kind, Kind::Push | Kind::Batch | Kind::BatchAndPop)
}

pub fn request_of(thread: usize, kind: Kind, source: usize, operand: u64) -> Request
    ensures { result ≡ request_of thread kind source operand }
{
    match kind {
        Kind::Step => Request::Step,
        Kind::Push => Request::Begin(Operation::Push(operand)),
        Kind::Pop => Request::Begin(Operation::Pop),
        Kind::OwnLength => Request::Begin(Operation::Length(own_queue(thread))),
        Kind::Length => Request::Begin(Operation::Length(source)),
        Kind::Steal => Request::Begin(Operation::Steal(source)),
        Kind::Batch => Request::Begin(Operation::Batch {
            source,
            limit: operand,
        }),
        Kind::BatchAndPop => Request::Begin(Operation::BatchAndPop {
            source,
            limit: operand,
        }),
    }
}
