// What soundness asks of a ring that a stage keeps.
ghost use Rattle.std.specs.Prelude.{◌≡◌};
ghost use Rattle.sound.specs.Sound.{kept_sound};

use crate::ring_sound;
use keeps::Kept;

pub fn kept_sound(places: usize, kept: Kept) -> bool
    ensures { result ≡ kept_sound places kept }
{
    match kept {
        Kept::Nothing => true,
        Kept::Built(ring) | Kept::Held(ring) => ring_sound(places, ring),
    }
}
