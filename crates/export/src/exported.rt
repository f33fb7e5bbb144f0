// What firmware calls, through `hub_queues`. The machine is lent as 91 words, the pool as its cells; the answer is put into four words, and where a
// ring lies into two.
ghost use Rattle.std.specs.Prelude.{◌≡◌, length};
ghost use Rattle.kinds.specs.Kinds.{kind_of};
ghost use Rattle.words.specs.Slices.{machine_size};
ghost use Rattle.export.specs.Exported.{unsound_words, left_words, setup_words, SetupTold, asked_words, AskedTold, call_words, CallTold, shown_words};
ghost use Rattle.export.specs.Words.{Told};

use crate::reading::machine_in;
use crate::writing::store;
use gate::Request;
use kinds::{Kind, request_of};
use machine::state::{Called, Machine};
use parts::answer::{Answer, Refusal};
use slots::answer::answer_words;
use slots::queue::flavors_of;
use words::slices::{MACHINE_WORDS, is_machine};

// The kind of an answer to a kind that is no call's: a number, as all that callers in C are told.
pub const NO_CALL: u64 = 11;

// Words that are no machine are refused.
fn no_machine() -> [u64; 4]
    ensures { result ≡ unsound_words }
{
    answer_words(Answer::Refused(Refusal::Unsound))
}

// What a call left, as words: the machine's, and the answer's.
fn leave(machine: &mut [u64], called: Called) -> [u64; 4]
    ensures result_after { (machine.new, result) ≡ left_words machine.old called }
    ensures told { length machine.old ≡ machine_size → Told machine.new called.machine }
{
    store(machine, called.machine);
    answer_words(called.answer)
}

#[tactic(auto, unfolding(crate::specs::Exported::setup_words))]
pub fn setup(
    machine: &mut [u64],
    pool: &[u64],
    queues: usize,
    flavors: u64,
    places: usize,
    answer: &mut [u64; 4],
)
    ensures answer_after { (machine.new, answer.new) ≡ setup_words machine.old pool.now queues flavors places }
    ensures setup_told { SetupTold machine.old pool.now queues flavors places machine.new }
{
    if machine.len() != MACHINE_WORDS {
        *answer = no_machine();
        return;
    }
    let called = Machine::setup(queues, flavors_of(flavors), places, pool);
    *answer = leave(machine, called);
}

// A call that is asked for.
#[tactic(auto, unfolding(crate::specs::Exported::asked_words))]
fn ask(machine: &mut [u64], pool: &mut [u64], thread: usize, request: Request) -> [u64; 4]
    ensures result_after { (machine.new, pool.new, result) ≡ asked_words machine.old pool.old thread request }
    ensures asked_told { AskedTold machine.old pool.old thread request machine.new }
{
    if !is_machine(machine) {
        return no_machine();
    }
    let called = machine_in(machine).call(pool, thread, request);
    leave(machine, called)
}

// kind: 0 step, 1 push (operand: job), 2 pop, 3 length of the own queue, 4 length, 5 steal, 6 batch (operand: limit), 7 batch and pop (operand:
// limit). Numbers that a kind does not use are not looked at.
pub fn call(
    machine: &mut [u64],
    pool: &mut [u64],
    thread: usize,
    kind: u64,
    source: usize,
    operand: u64,
    answer: &mut [u64; 4],
)
    ensures answer_after { (machine.new, pool.new, answer.new) ≡ call_words machine.old pool.old thread (kind_of kind) source operand }
    ensures call_told { CallTold machine.old pool.old thread (kind_of kind) source operand machine.new }
{
    *answer = match Kind::try_from(kind) {
        Ok(known) => ask(
            machine,
            pool,
            thread,
            request_of(thread, known, source, operand),
        ),
        Err(_) => [NO_CALL, 0, 0, 0],
    };
}

// Where the queue's ring starts in a pool of so many cells, and how many cells it has. The cells themselves are not looked at.
#[tactic(auto, unfolding(crate::specs::Exported::shown_words))]
pub fn shown(machine: &[u64], cells: usize, queue: usize, part: &mut [u64; 2])
    ensures { part.new ≡ shown_words machine.now cells queue }
{
    if !is_machine(machine) {
        *part = [0, 0];
        return;
    }
    let shown = machine_in(machine).shown_part(cells, queue);
    *part = [shown.start as u64, shown.count as u64];
}
