// The words of queues and stages in a longer row of words. Past the row's end a word is 0, and nothing is put. Row and place come as two, since a row is
// lent for one call, whatever its length.
ghost use Rattle.std.specs.Prelude.{◌≡◌, ◌+◌, slice_index, slice_set};
ghost use Rattle.words.specs.Slices.{queue_in, stage_in, put_row, put_queue, put_stage, queues_b, stages_b, machine_b};

use crate::InWords;
use parts::queue::Queue;
use parts::stage::Stage;
use slots::StageWords;
use slots::queue::QueueWords;

// The words of a machine: three counts, six for each queue, sixteen for each thread.
pub const MACHINE_WORDS: usize = 91;

pub fn word(words: &[u64], at: usize, k: usize) -> u64
    ensures { result ≡ slice_index words.now (at + k) }
{
    at.checked_add(k)
        .and_then(|i| words.get(i).copied())
        .unwrap_or(0)
}

// Six words from the place on: one test finds where they begin.
pub fn queue_in(words: &[u64], at: usize) -> QueueWords
    ensures { result ≡ queue_in words.now at }
{
    let row = words.get(at..).unwrap_or(&[]);
    QueueWords {
        flavor: word(row, 0, 0),
        front: word(row, 0, 1),
        back: word(row, 0, 2),
        number: word(row, 0, 3),
        place: word(row, 0, 4),
        capacity: word(row, 0, 5),
    }
}

// As `queue_in`, for sixteen words: what differs is their names.
pub fn stage_in(words: &[u64], at: usize) -> StageWords
    ensures { result ≡ stage_in words.now at }
{
    let row = words.get(at..).unwrap_or(&[]);
    StageWords {
        operation: word(row, 0, 0),
        number: word(row, 0, 1),
        kind: word(row, 0, 2),
        step: word(row, 0, 3),
        f: word(row, 0, 4),
        b: word(row, 0, 5),
        n: word(row, 0, 6),
        i: word(row, 0, 7),
        end: word(row, 0, 8),
        job: word(row, 0, 9),
        far: word(row, 0, 10),
        hand: word(row, 0, 11),
        held: word(row, 0, 12),
        ring: word(row, 0, 13),
        place: word(row, 0, 14),
        capacity: word(row, 0, 15),
    }
}

pub fn put_word(words: &mut [u64], at: usize, k: usize, value: u64)
    ensures { words.new ≡ slice_set words.old (at + k) value }
{
    match at.checked_add(k) {
        Some(i) if i < words.len() => words[i] = value,
        _ => {}
    }
}

// A row of words, put from one place on.
fn put_row(words: &mut [u64], at: usize, row: &[u64])
    ensures { words.new ≡ put_row words.old at row.now }
{
    for (k, &word) in row.iter().enumerate() {
        put_word(words, at, k, word);
    }
}

pub fn put_queue(words: &mut [u64], at: usize, w: QueueWords)
    ensures { words.new ≡ put_queue words.old at w }
{
    put_row(
        words,
        at,
        &[w.flavor, w.front, w.back, w.number, w.place, w.capacity],
    );
}

pub fn put_stage(words: &mut [u64], at: usize, w: StageWords)
    ensures { words.new ≡ put_stage words.old at w }
{
    put_row(
        words,
        at,
        &[
            w.operation,
            w.number,
            w.kind,
            w.step,
            w.f,
            w.b,
            w.n,
            w.i,
            w.end,
            w.job,
            w.far,
            w.hand,
            w.held,
            w.ring,
            w.place,
            w.capacity,
        ],
    );
}

// Words that a T has: those of what they are read as.
fn is_own<T>(words: T::Words) -> bool
where
    T: InWords,
    T::Words: Copy + PartialEq,
    ensures { result ≡ T.Words.eq words (T.words_of (T.read_of words)) }
{
    words == T::from_words(words).to_words()
}

// Words that queues have, where the machine's stand. With stages it is the same, but for what is read: a closure for that would be longer.
fn are_queues(words: &[u64]) -> bool
    ensures { result ≡ queues_b words.now }
{
    [3, 9, 15, 21]
        .iter()
        .all(|&at| is_own::<Queue>(queue_in(words, at)))
}

// Words that stages have, where the machine's stand.
fn are_stages(words: &[u64]) -> bool
    ensures { result ≡ stages_b words.now }
{
    [27, 43, 59, 75]
        .iter()
        .all(|&at| is_own::<Stage>(stage_in(words, at)))
}

// Words that a machine has, sound or not.
#[tactic(auto, unfolding(crate::specs::Slices::machine_b))]
pub fn is_machine(words: &[u64]) -> bool
    ensures { result ≡ machine_b words.now }
{
    words.len() == MACHINE_WORDS && are_queues(words) && are_stages(words)
}
