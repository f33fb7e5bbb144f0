// The machine that words are read as; whatever they are, there is one.
ghost use Rattle.std.specs.Prelude.{◌≡◌};
ghost use Rattle.export.specs.Words.{queues_in, thread_in, threads_in, machine_in};

use machine::state::{Machine, Thread};
use parts::queue::Queue;
use parts::stage::Stage;
use ring::RingNumber;
use words::InWords;
use words::slices::{queue_in, stage_in, word};

// By place, queues and threads: a map over the places was tried, and what its closure reads is not known from one item to the next.
fn queues_in(words: &[u64]) -> [Queue; 4]
    ensures { result ≡ queues_in words.now }
{
    [
        Queue::from_words(queue_in(words, 3)),
        Queue::from_words(queue_in(words, 9)),
        Queue::from_words(queue_in(words, 15)),
        Queue::from_words(queue_in(words, 21)),
    ]
}

fn thread_in(words: &[u64], at: usize) -> Thread
    ensures { result ≡ thread_in words.now at }
{
    Thread {
        stage: Stage::from_words(stage_in(words, at)),
    }
}

fn threads_in(words: &[u64]) -> [Thread; 4]
    ensures { result ≡ threads_in words.now }
{
    [
        thread_in(words, 27),
        thread_in(words, 43),
        thread_in(words, 59),
        thread_in(words, 75),
    ]
}

#[tactic(auto, unfolding(crate::specs::Words::machine_in))]
pub fn machine_in(words: &[u64]) -> Machine
    ensures { result ≡ machine_in words.now }
{
    Machine {
        queues: queues_in(words),
        threads: threads_in(words),
        queue_count: word(words, 0, 0) as usize,
        place_count: word(words, 0, 1) as usize,
        next_ring: RingNumber(word(words, 0, 2)),
    }
}
