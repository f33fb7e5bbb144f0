// The tests that begin and step share.
ghost use Rattle.std.specs.Prelude.{◌≡◌};
ghost use Rattle.stages.specs.Stages.{idle_b};
ghost use Rattle.machine.specs.State.{stage_at};
ghost use Rattle.machine.specs.Step.{gate_of};

use crate::state::Machine;
use gate::tests::call_tests;
use parts::answer::Refusal;
use stages::is_idle;

impl Machine {
    pub(crate) fn idle(&self, thread: usize) -> bool
        ensures { result ≡ idle_b (stage_at self.now thread) }
    {
        is_idle(self.stage(thread))
    }

    #[tactic(auto, unfolding(crate::specs::Step::gate_of))]
    pub(crate) fn gate(&self, length: usize, thread: usize) -> Result<(), Refusal>
        ensures { result ≡ gate_of self.now length thread }
    {
        call_tests(
            self.is_sound(),
            self.place_count,
            length,
            self.queue_count,
            thread,
        )
    }
}
