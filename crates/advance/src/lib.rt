// The step at a stage, of the one queue that it touches.
#![tactic(auto)]

ghost use Rattle.std.specs.Prelude.{◌≡◌};
ghost use Rattle.parts.specs.Out.{left, out_of};
ghost use Rattle.advance.specs.Advance.{batch_at, advance_of};

use op_batch_own::own_step;
use op_batch_source::source_step;
use op_length::{length_step, own_batch_step};
use op_pop::pop_step;
use op_push::push_step;
use op_steal::steal_step;
use parts::answer::{Answer, Refusal};
use parts::out::{Claim, Out, StepOut};
use parts::queue::{Flavor, Queue};
use parts::stage::{BatchStage, Stage};

// What an operation's step left, as the thread's stage and answer; stage makes the thread's stage of the operation's.
fn out_of<S, F: FnOnce(S) -> Stage>(left: StepOut<S>, stage: F) -> Out
    requires { F.IsAlwaysCallable stage }
    ensures { (at : S → Stage) → ((s : S) (r : Stage) → F.post stage s r → r ≡ at s) → result ≡ out_of at left }
{
    match left {
        StepOut::Going(q, next) => Out::going(q, stage(next)),
        StepOut::Ended(q, answer) => Out::ended(q, answer),
    }
}

// The thread's stage at a stage of a batch from this source.
fn batch_at(source: usize, at: BatchStage) -> Stage
    ensures { result ≡ batch_at source at }
{
    match at {
        BatchStage::Source(at) => Stage::BatchSource(source, at),
        BatchStage::Own(at) => Stage::BatchOwn(source, at),
    }
}

// own: the flavour of the thread's own queue; q: the queue that the step touches; claim: what a claim found, where the step makes one.
pub fn advance(stage: Stage, own: Flavor, q: Queue, claim: Claim, pool: &mut [u64]) -> Out
    ensures { left result pool.new ≡ advance_of stage own q claim pool.old }
{
    match stage {
        Stage::Idle => Out::ended(q, Answer::Refused(Refusal::Idle)),
        Stage::Push(job, at) => {
            let left = push_step(job, at, q, claim, pool);
            out_of(left, |next| Stage::Push(job, next))
        }
        Stage::Pop(popper, at) => {
            let left = pop_step(popper, at, q, claim, pool);
            out_of(left, |next| Stage::Pop(popper, next))
        }
        Stage::Steal(source, at) => {
            let left = steal_step(at, q, pool);
            out_of(left, |next| Stage::Steal(source, next))
        }
        Stage::Length(queue, at) => {
            let left = length_step(at, q);
            out_of(left, |next| Stage::Length(queue, next))
        }
        Stage::OwnBatch(at) => {
            let left = own_batch_step(at, q);
            out_of(left, |next| Stage::OwnBatch(next))
        }
        Stage::BatchSource(source, at) => {
            let left = source_step(own, at, q, pool);
            out_of(left, |next| batch_at(source, next))
        }
        Stage::BatchOwn(source, at) => {
            let left = own_step(at, q, claim, pool);
            out_of(left, |next| batch_at(source, next))
        }
    }
}
