// The tests, in 01's order (counts come one by one, as in `sound`): setup 2, 1; begin 3, 1, 4 (thread, then source), 5, 7; step 3, 1, 4, 6.
ghost use Rattle.std.specs.Prelude.{◌≡◌, ◌*◌, ◌==◌};
ghost use Rattle.cells.specs.Cells.{place_cells};
ghost use Rattle.gate.specs.Gate.{setup_tests, call_tests, names_b, limit_b, begin_tests, step_tests};

use crate::Operation;
use cells::PLACE_CELLS;
use parts::answer::Refusal;
use sound::counts_in_range;

// So many places have so many cells.
pub fn is_pool(places: usize, length: usize) -> bool
    ensures { result ≡ (length == places * place_cells) }
{
    if length % PLACE_CELLS != 0 {
        return false;
    }
    length / PLACE_CELLS == places
}

pub fn setup_tests(queues: usize, places: usize, length: usize) -> Result<(), Refusal>
    ensures { result ≡ setup_tests queues places length }
{
    if !counts_in_range(queues, places) {
        return Err(Refusal::Counts);
    }
    if !is_pool(places, length) {
        return Err(Refusal::PoolLength);
    }
    Ok(())
}

// What begin and step share: 3, 1, and 4 for the thread.
pub fn call_tests(
    sound: bool,
    places: usize,
    length: usize,
    queues: usize,
    thread: usize,
) -> Result<(), Refusal>
    ensures { result ≡ call_tests sound places length queues thread }
{
    if !sound {
        return Err(Refusal::Unsound);
    }
    if !is_pool(places, length) {
        return Err(Refusal::PoolLength);
    }
    if thread < queues {
        return Ok(());
    }
    Err(Refusal::NoSuch)
}

// The queue that the operation names exists.
fn names(queues: usize, operation: Operation) -> bool
    ensures { result ≡ names_b queues operation }
{
    match operation {
        Operation::Push(_) | Operation::Pop => true,
        Operation::Length(source)
        | Operation::Steal(source)
        | Operation::Batch { source, .. }
        | Operation::BatchAndPop { source, .. } => source < queues,
    }
}

// The limit, if there is one, is not 0.
fn has_limit(operation: Operation) -> bool
    ensures { result ≡ limit_b operation }
{
    !matches!(
        operation,
        Operation::Batch { limit: 0, .. } | Operation::BatchAndPop { limit: 0, .. }
    )
}

// Of a begin then: 4 for the source, 5, 7.
pub fn begin_tests(queues: usize, idle: bool, operation: Operation) -> Result<(), Refusal>
    ensures { result ≡ begin_tests queues idle operation }
{
    if !names(queues, operation) {
        return Err(Refusal::NoSuch);
    }
    if !idle {
        return Err(Refusal::Busy);
    }
    if !has_limit(operation) {
        return Err(Refusal::NoLimit);
    }
    Ok(())
}

// Of a step then: 6.
pub fn step_tests(idle: bool) -> Result<(), Refusal>
    ensures { result ≡ step_tests idle }
{
    if idle {
        return Err(Refusal::Idle);
    }
    Ok(())
}
