// What soundness asks of the counts, of queues and of a stage. The two counts come one by one, as the machine has them: most of these look at one alone.
#![tactic(auto)]

ghost use Rattle.std.specs.Prelude.{◌≡◌};
ghost use Rattle.parts.specs.Queues.{queue_in};
ghost use Rattle.sound.specs.Sound.{counts_b, ring_sound, queue_sound, queues_sound_of};

use parts::queue::{Queue, queue_of};
use ring::Ring;

pub mod kept;
pub mod stage;

pub const MOST_QUEUES: usize = 4;

pub const MOST_PLACES: usize = 16;

// So many queues and places may be.
pub fn counts_in_range(queues: usize, places: usize) -> bool
    ensures { result ≡ counts_b queues places }
{
    (1 <= queues) & ((queues <= MOST_QUEUES) & ((queues <= places) & (places <= MOST_PLACES)))
}

pub fn ring_sound(places: usize, ring: Ring) -> bool
    ensures { result ≡ ring_sound places ring }
{
    Ring::allowed(ring.capacity) & (ring.place.0 < places)
}

pub fn queue_sound(places: usize, q: Queue) -> bool
    ensures { result ≡ queue_sound places q }
{
    ring_sound(places, q.ring) & q.back.spans(q.front, q.ring.capacity)
}

pub fn queues_sound(count: usize, places: usize, queues: [Queue; 4]) -> bool
    ensures { result ≡ queues_sound_of count places (queue_in queues) }
{
    (0..count).all(|i| queue_sound(places, queue_of(&queues, i)))
}
