// Whether a machine is sound.
ghost use Rattle.std.specs.Prelude.{◌≡◌};
ghost use Rattle.machine.specs.Sound.{stages_sound, sound_b};

use crate::state::Machine;
use sound::stage::stage_sound;
use sound::{counts_in_range, queues_sound};

impl Machine {
    fn stages_sound(&self) -> bool
        ensures { result ≡ stages_sound self.now }
    {
        (0..self.queue_count).all(|t| stage_sound(
            self.queue_count,
            self.place_count,
            self.stage(t),
        ))
    }

    #[tactic(auto, unfolding(crate::specs::Sound::sound_b))]
    pub fn is_sound(&self) -> bool
        ensures { result ≡ sound_b self.now }
    {
        counts_in_range(self.queue_count, self.place_count)
            && queues_sound(self.queue_count, self.place_count, self.queues)
            && self.stages_sound()
            && self.rings().all_apart()
    }
}
