// What the numbers of a session say: the place count, the queue count, a flavour for each queue; then calls of four numbers.
ghost use Rattle.std.specs.Prelude.{◌≡◌};
ghost use Rattle.kinds.specs.Kinds.{kind_of};
ghost use Rattle.session.specs.Grammar.{flavors_of, new_session, whole_b, to as toOf, wrong as wrongOf, with_places, with_flavor, flavors_read, kind_heard, unused_b, flavor_heard, source_heard, operand_heard, hear_of};

use gate::Request;
use kinds::{Kind, has_operand, has_source, request_of};
use parts::queue::Flavor;
use sound::MOST_QUEUES;

// Which number comes next, and those that came before it.
#[derive(Clone, Copy)]
pub enum Awaiting {
    Places,
    Queues,
    Flavor {
        queues: u64,
        read: u64,
    },
    Thread,
    Kind {
        thread: u64,
    },
    Source {
        thread: u64,
        kind: Kind,
    },
    Operand {
        thread: u64,
        kind: Kind,
        source: u64,
    },
}

// places: the place count, once it is heard. flavors: 0 FIFO, 1 LIFO; those of queues past the last that there may be are not kept. They stay numbers, since
// what `hear` promises holds of a session with any.
#[derive(Clone, Copy)]
pub struct Session {
    pub awaiting: Awaiting,
    pub places: u64,
    pub flavors: [u64; 4],
}

// What a number completes: nothing; a setup; a call; or it is wrong. Each user tells all four apart.
#[derive(Clone, Copy)]
pub enum Said {
    Nothing,
    Setup { queues: usize },
    Call { thread: usize, request: Request },
    Wrong,
}

#[derive(Clone, Copy)]
pub struct Told {
    pub session: Session,
    pub said: Said,
}

// An unused number that is not 0.
fn is_unused(number: u64, used: bool) -> bool
    ensures { result ≡ unused_b number used }
{
    number != 0 && !used
}

impl Session {
    pub fn new() -> Session
        ensures { result ≡ new_session }
    {
        Session {
            awaiting: Awaiting::Places,
            places: 0,
            flavors: [0; 4],
        }
    }

    // The flavours as setup takes them.
    pub fn all_flavors(self) -> [Flavor; 4]
        ensures { result ≡ flavors_of self }
    {
        self.flavors.map(Flavor::from)
    }

    // At a call's beginning: the text may end here.
    pub fn is_whole(self) -> bool
        ensures { result ≡ whole_b self.awaiting }
    {
        matches!(self.awaiting, Awaiting::Thread)
    }

    fn to(self, awaiting: Awaiting, said: Said) -> Told
        ensures { result ≡ toOf self awaiting said }
    {
        Told {
            session: Session { awaiting, ..self },
            said,
        }
    }

    fn wrong(self) -> Told
        ensures { result ≡ wrongOf self }
    {
        Told {
            session: self,
            said: Said::Wrong,
        }
    }

    // So many flavours are read: another one, or the setup.
    fn flavors_read(self, queues: u64, read: u64) -> Told
        ensures { result ≡ flavors_read self queues read }
    {
        if read < queues {
            return self.to(Awaiting::Flavor { queues, read }, Said::Nothing);
        }
        self.to(
            Awaiting::Thread,
            Said::Setup {
                queues: queues as usize,
            },
        )
    }

    fn with_places(self, places: u64) -> Session
        ensures { result ≡ with_places self places }
    {
        Session { places, ..self }
    }

    // By index: through `get_mut` the proof did not close.
    fn with_flavor(mut self, read: u64, number: u64) -> Session
        ensures { result ≡ with_flavor self read number }
    {
        let at = read as usize;
        if at < MOST_QUEUES {
            self.flavors[at] = number;
        }
        self
    }

    fn hear_flavor(self, queues: u64, read: u64, number: u64) -> Told
        ensures { result ≡ flavor_heard self queues read number }
    {
        if 1 < number {
            return self.wrong();
        }
        let next = read.wrapping_add(1);
        self.with_flavor(read, number).flavors_read(queues, next)
    }

    fn hear_kind(self, thread: u64, number: u64) -> Told
        ensures { result ≡ kind_heard self thread (kind_of number) }
    {
        match Kind::try_from(number) {
            Ok(kind) => self.to(Awaiting::Source { thread, kind }, Said::Nothing),
            Err(_) => self.wrong(),
        }
    }

    fn hear_source(self, thread: u64, kind: Kind, number: u64) -> Told
        ensures { result ≡ source_heard self thread kind number }
    {
        if is_unused(number, has_source(kind)) {
            return self.wrong();
        }
        self.to(
            Awaiting::Operand {
                thread,
                kind,
                source: number,
            },
            Said::Nothing,
        )
    }

    fn hear_operand(self, thread: u64, kind: Kind, source: u64, number: u64) -> Told
        ensures { result ≡ operand_heard self thread kind source number }
    {
        if is_unused(number, has_operand(kind)) {
            return self.wrong();
        }
        let thread = thread as usize;
        let request = request_of(thread, kind, source as usize, number);
        self.to(Awaiting::Thread, Said::Call { thread, request })
    }

    // One number more. What is awaited is data, no closure: the session is copied with it.
    #[tactic(auto, unfolding(crate::specs::Grammar::hear_of))]
    pub fn hear(self, number: u64) -> Told
        ensures { result ≡ hear_of self number }
    {
        match self.awaiting {
            Awaiting::Places => self.with_places(number).to(Awaiting::Queues, Said::Nothing),
            Awaiting::Queues => self.flavors_read(number, 0),
            Awaiting::Flavor { queues, read } => self.hear_flavor(queues, read, number),
            Awaiting::Thread => self.to(Awaiting::Kind { thread: number }, Said::Nothing),
            Awaiting::Kind { thread } => self.hear_kind(thread, number),
            Awaiting::Source { thread, kind } => self.hear_source(thread, kind, number),
            Awaiting::Operand {
                thread,
                kind,
                source,
            } => self.hear_operand(thread, kind, source, number),
        }
    }
}
