// One step of a thread.
ghost use Rattle.std.specs.Prelude.{◌≡◌, []};
ghost use Rattle.parts.specs.Out.{left};
ghost use Rattle.stages.specs.Stages.{idle_b};
ghost use Rattle.gate.specs.Gate.{step_tests, then_gate};
ghost use Rattle.advance.specs.Advance.{advance_of};
ghost use Rattle.machine.specs.State.{leaves, queue_at};
ghost use Rattle.machine.specs.Step.{gate_of, stored as stored_of, step_of};

use crate::state::{Called, Machine, number_after, queues_with};
use advance::advance;
use gate::own_queue;
use gate::tests::step_tests;
use parts::answer::Refusal;
use parts::out::{Claim, Out};
use parts::stage::Stage;
use stages::{is_idle, touched};

impl Machine {
    // All the tests of a step at a stage, in order.
    fn may_step(&self, length: usize, thread: usize, stage: Stage) -> Result<(), Refusal>
        ensures { result ≡ then_gate (gate_of self.now length thread) (step_tests (idle_b stage)) }
    {
        self.gate(length, thread)?;
        step_tests(is_idle(stage))
    }

    // What the step at a stage leaves of queue k, which it touches, given what it claims.
    fn advanced(self, pool: &mut [u64], own: usize, stage: Stage, k: usize, claim: Claim) -> Out
        ensures { left result pool.new ≡ advance_of stage (queue_at self own).flavor (queue_at self k) claim pool.old }
    {
        advance(stage, self.queue(own).flavor, self.queue(k), claim, pool)
    }

    // The machine with what the thread's step left of queue k.
    fn stored(mut self, thread: usize, k: usize, out: Out) -> Called
        ensures { result ≡ (stored_of self thread k (left out [])).called }
    {
        self.queues = queues_with(self.queues, k, out.queue);
        Called {
            machine: self.with_stage(thread, out.stage),
            answer: out.answer,
        }
    }

    #[tactic(auto, unfolding(crate::specs::Step::step_of))]
    pub fn step(mut self, pool: &mut [u64], thread: usize) -> Called
        ensures { leaves result pool.new ≡ step_of self pool.old thread }
    {
        let stage = self.stage(thread);
        match self.may_step(pool.len(), thread, stage) {
            Ok(()) => {
                let own = own_queue(thread);
                let k = touched(stage, own);
                let claim = self.claim(stage);
                let out = self.advanced(pool, own, stage, k, claim);
                self.next_ring = number_after(self.next_ring, claim);
                return self.stored(thread, k, out);
            }
            Err(refusal) => return self.refused(refusal),
        }
    }
}
