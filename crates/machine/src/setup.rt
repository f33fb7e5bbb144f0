// A new machine. Count and flavours are setup's own arguments, handed on.
ghost use Rattle.std.specs.Prelude.{◌≡◌, [], slice_index_or};
ghost use Rattle.parts.specs.declared.queue.Flavor.TheVariants.{Fifo};
ghost use Rattle.machine.specs.State.{leaves, after};
ghost use Rattle.machine.specs.Setup.{idle_threads, fresh_queue, fresh_queues, fresh_machine, setup_of};

use crate::state::{Called, Machine, Thread};
use gate::tests::setup_tests;
use index::Index;
use parts::answer::Answer;
use parts::queue::{Flavor, Queue, zero_queue};
use parts::stage::Stage;
use ring::{PlaceNumber, Ring, RingNumber};

// Fifo where no flavour is given.
fn flavor_at(flavors: [Flavor; 4], q: usize) -> Flavor
    ensures { result ≡ slice_index_or flavors q Fifo }
{
    flavors.get(q).copied().unwrap_or(Flavor::Fifo)
}

// Queue q has ring q in place q.
fn fresh_queue(count: usize, flavors: [Flavor; 4], q: usize) -> Queue
    ensures { result ≡ fresh_queue count flavors q }
{
    if q < count {
        return Queue {
            flavor: flavor_at(flavors, q),
            front: Index(0),
            back: Index(0),
            ring: Ring {
                number: RingNumber(q as u64),
                place: PlaceNumber(q),
                capacity: Ring::SMALLEST,
            },
        };
    }
    zero_queue()
}

fn fresh_queues(count: usize, flavors: [Flavor; 4]) -> [Queue; 4]
    ensures { result ≡ fresh_queues count flavors }
{
    std::array::from_fn(|q| fresh_queue(count, flavors, q))
}

fn idle_threads() -> [Thread; 4]
    ensures { result ≡ idle_threads }
{
    [Thread { stage: Stage::Idle }; 4]
}

fn fresh_machine(count: usize, flavors: [Flavor; 4], places: usize) -> Machine
    ensures { result ≡ fresh_machine count flavors places }
{
    Machine {
        queues: fresh_queues(count, flavors),
        threads: idle_threads(),
        queue_count: count,
        place_count: places,
        next_ring: RingNumber(count as u64),
    }
}

fn fresh(count: usize, flavors: [Flavor; 4], places: usize, answer: Answer) -> Called
    ensures { result ≡ (after (fresh_machine count flavors places) answer []).called }
{
    Called {
        machine: fresh_machine(count, flavors, places),
        answer,
    }
}

impl Machine {
    // So many queues, of these flavours, and so many places in the lent pool. No cell is written. Refused, it is the machine of zeros.
    #[tactic(auto, unfolding(crate::specs::Setup::setup_of))]
    pub fn setup(queues: usize, flavors: [Flavor; 4], places: usize, pool: &[u64]) -> Called
        ensures { leaves result pool.now ≡ setup_of queues flavors places pool.now }
    {
        match setup_tests(queues, places, pool.len()) {
            Ok(()) => return fresh(queues, flavors, places, Answer::Done),
            Err(refusal) => return fresh(0, flavors, 0, Answer::Refused(refusal)),
        }
    }
}
