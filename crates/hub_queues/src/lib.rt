// The functions that firmware links: the exported ones under names of their own. C hands them numbers: a kind, flavours as bits.
#![tactic(auto)]

ghost use Rattle.std.specs.Prelude.{◌≡◌};
ghost use Rattle.kinds.specs.Kinds.{kind_of};
ghost use Rattle.export.specs.Exported.{setup_words, SetupTold, call_words, CallTold, shown_words};

use export::exported::{call, setup, shown};

#[unsafe(no_mangle)]
pub extern "C" fn hub_queues_setup(
    machine: &mut [u64],
    pool: &[u64],
    queues: usize,
    flavors: u64,
    places: usize,
    answer: &mut [u64; 4],
)
    ensures answer_after { (machine.new, answer.new) ≡ setup_words machine.old pool.now queues flavors places }
    ensures setup_told { SetupTold machine.old pool.now queues flavors places machine.new }
{
    setup(machine, pool, queues, flavors, places, answer);
}

#[unsafe(no_mangle)]
pub extern "C" fn hub_queues_call(
    machine: &mut [u64],
    pool: &mut [u64],
    thread: usize,
    kind: u64,
    source: usize,
    operand: u64,
    answer: &mut [u64; 4],
)
    ensures answer_after { (machine.new, pool.new, answer.new) ≡ call_words machine.old pool.old thread (kind_of kind) source operand }
    ensures call_told { CallTold machine.old pool.old thread (kind_of kind) source operand machine.new }
{
    call(machine, pool, thread, kind, source, operand, answer);
}

#[unsafe(no_mangle)]
pub extern "C" fn hub_queues_shown(machine: &[u64], cells: usize, queue: usize, part: &mut [u64; 2])
    ensures { part.new ≡ shown_words machine.now cells queue }
{
    shown(machine, cells, queue, part);
}
