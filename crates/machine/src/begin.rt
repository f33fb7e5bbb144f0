// A thread begins an operation.
ghost use Rattle.std.specs.Prelude.{◌≡◌, []};
ghost use Rattle.stages.specs.Stages.{idle_b};
ghost use Rattle.gate.specs.Gate.{begin_tests, then_gate};
ghost use Rattle.machine.specs.State.{leaves, stage_at};
ghost use Rattle.machine.specs.Step.{gate_of};
ghost use Rattle.machine.specs.Begin.{begun as begunOf, begin_of};

use crate::state::{Called, Machine};
use gate::tests::begin_tests;
use gate::{Operation, own_queue};
use parts::answer::{Answer, Refusal};
use starts::first_stage;

impl Machine {
    // All the tests of a begin, in order.
    fn may_begin(&self, length: usize, thread: usize, operation: Operation) -> Result<(), Refusal>
        ensures { result ≡ then_gate (gate_of self.now length thread) (begin_tests self.now.queue_count (idle_b (stage_at self.now thread)) operation) }
    {
        self.gate(length, thread)?;
        begin_tests(self.queue_count, self.idle(thread), operation)
    }

    // The machine with the operation's first stage.
    fn begun(self, thread: usize, operation: Operation) -> Machine
        ensures { result ≡ (begunOf self [] thread operation).called.machine }
    {
        let own = own_queue(thread);
        self.with_stage(thread, first_stage(self.queue(own).flavor, own, operation))
    }

    #[tactic(auto, unfolding(crate::specs::Begin::begin_of))]
    pub fn begin(self, pool: &[u64], thread: usize, operation: Operation) -> Called
        ensures { leaves result pool.now ≡ begin_of self pool.now thread operation }
    {
        match self.may_begin(pool.len(), thread, operation) {
            Ok(()) => {
                return Called {
                    machine: self.begun(thread, operation),
                    answer: Answer::Working,
                };
            }
            Err(refusal) => return self.refused(refusal),
        }
    }
}
