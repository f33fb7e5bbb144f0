// How far a session is played, and what the program does at what was said.
#![tactic(auto)]

ghost use Rattle.std.specs.Prelude.{◌≡◌};
ghost use Rattle.machine.specs.State.{leaves};
ghost use Rattle.stand.specs.Stand.{new_stand, lent_of, ask_of, scene, act_of};

use machine::state::{Called, Machine};
use parts::answer::Answer;
use parts::queue::Flavor;
use player::{Player, Turn};
use session::grammar::Said;
use writing::Page;

// is_over stands beside player and machine, which are told where the program is over too.
#[derive(Clone, Copy)]
pub struct Stand {
    pub player: Player,
    pub machine: Machine,
    pub is_over: bool,
}

// The player lends the machine so many cells of the pool, and no more than it has.
fn lent(player: Player, pool: &[u64]) -> usize
    ensures { result ≡ lent_of player pool.now }
{
    player.cells().min(pool.len())
}

// What the machine does at what was said; where it is asked nothing, it stands as it did. Each arm returns, as in `Machine::call`.
#[tactic(auto, unfolding(crate::specs::Stand::ask_of))]
fn ask(machine: Machine, turn: Turn, pool: &mut [u64]) -> Called
    ensures { leaves result pool.new ≡ ask_of machine turn pool.old }
{
    match turn.said {
        Said::Nothing | Said::Wrong => {
            return Called {
                machine,
                answer: Answer::Working,
            };
        }
        Said::Setup { queues } => {
            let session = turn.player.session;
            return Machine::setup(queues, session.all_flavors(), session.places as usize, pool);
        }
        Said::Call { thread, request } => return machine.call(pool, thread, request),
    }
}

impl Stand {
    // Before the session: the machine of zeros, which a refused setup leaves.
    #[tactic(auto, unfolding(machine::specs::Setup::setup_of))]
    pub fn new() -> Stand
        ensures { result ≡ new_stand }
    {
        let refused = Machine::setup(0, [Flavor::Fifo; 4], 0, &[0u64; 1]);
        Stand {
            player: Player::new(),
            machine: refused.machine,
            is_over: false,
        }
    }

    // What the program does at what was said. What was called is read by its fields: taken apart, its machine would be copied once more, at each number.
    pub fn act(self, turn: Turn, pool: &mut [u64], page: &mut Page) -> Stand
        ensures { scene result pool.new page.new ≡ act_of self turn pool.old page.old }
    {
        let cells = lent(turn.player, pool);
        let called = ask(self.machine, turn, &mut pool[..cells]);
        turn.show(
            called.answer,
            called.machine.queue_count,
            called.machine.queues,
            page,
        );
        Stand {
            player: turn.player,
            machine: called.machine,
            is_over: turn.ends(called.answer),
        }
    }
}
