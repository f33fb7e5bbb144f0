// A machine written as words.
ghost use Rattle.std.specs.Prelude.{◌≡◌, length};
ghost use Rattle.words.specs.Slices.{machine_size};
ghost use Rattle.export.specs.Words.{put_counts, put_queues, QueuesTold, put_threads, ThreadsTold, stored_of, Told};

use machine::state::{Machine, Thread};
use parts::queue::Queue;
use words::InWords;
use words::slices::{MACHINE_WORDS, put_queue, put_stage, put_word};

fn put_counts(words: &mut [u64], queues: usize, places: usize, next: u64)
    ensures { words.new ≡ put_counts words.old queues places next }
{
    put_word(words, 0, 0, queues as u64);
    put_word(words, 0, 1, places as u64);
    put_word(words, 0, 2, next);
}

// By place: a loop would need a definition that recurses and an invariant for these four lines.
fn put_queues(words: &mut [u64], queues: [Queue; 4])
    ensures words_after { words.new ≡ put_queues words.old queues }
    ensures queues_told { QueuesTold queues }
{
    put_queue(words, 3, queues[0].to_words());
    put_queue(words, 9, queues[1].to_words());
    put_queue(words, 15, queues[2].to_words());
    put_queue(words, 21, queues[3].to_words());
}

fn put_threads(words: &mut [u64], threads: [Thread; 4])
    ensures words_after { words.new ≡ put_threads words.old threads }
    ensures threads_told { ThreadsTold threads }
{
    put_stage(words, 27, threads[0].stage.to_words());
    put_stage(words, 43, threads[1].stage.to_words());
    put_stage(words, 59, threads[2].stage.to_words());
    put_stage(words, 75, threads[3].stage.to_words());
}

// Words that are as many as a machine has are its words then, and it is read from them again.
#[tactic(auto, unfolding(crate::specs::Words::machine_put))]
pub fn store(words: &mut [u64], machine: Machine)
    ensures words_after { words.new ≡ stored_of words.old machine }
    ensures told { length words.old ≡ machine_size → Told words.new machine }
{
    if words.len() != MACHINE_WORDS {
        return;
    }
    put_counts(
        words,
        machine.queue_count,
        machine.place_count,
        machine.next_ring.0,
    );
    put_queues(words, machine.queues);
    put_threads(words, machine.threads);
}
