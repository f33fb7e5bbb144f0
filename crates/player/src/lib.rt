// A session heard from its text: what the next number says, and what is printed then.
#![tactic(auto, using(writing::proofs::WritingLaws::put_none))]

ghost use Rattle.std.specs.Prelude.{◌≡◌};
ghost use Rattle.player.specs.Player.{new_player, heard as heard_of, listen_of, finish_of, cells_of, done_b, show_of, ends_b, close_of};

use cells::PLACE_CELLS;
use line::{put_bad, put_call, put_setup};
use parts::answer::Answer;
use parts::queue::Queue;
use reading::{Reader, Word};
use session::grammar::{Said, Session, Told};
use sound::MOST_PLACES;
use writing::Page;

#[derive(Clone, Copy)]
pub struct Player {
    pub reader: Reader,
    pub session: Session,
}

// used: how many bytes of the part were read.
#[derive(Clone, Copy)]
pub struct Turn {
    pub player: Player,
    pub said: Said,
    pub used: usize,
}

impl Player {
    pub fn new() -> Player
        ensures { result ≡ new_player }
    {
        Player {
            reader: Reader::new(),
            session: Session::new(),
        }
    }

    fn heard(self, reader: Reader, word: Word, used: usize) -> Turn
        ensures { result ≡ heard_of self reader word used }
    {
        let session = self.session;
        let told = match word {
            Word::Nothing => Told {
                session,
                said: Said::Nothing,
            },
            Word::Number(number) => session.hear(number),
            Word::Wrong => Told {
                session,
                said: Said::Wrong,
            },
        };
        Turn {
            player: Player {
                reader,
                session: told.session,
            },
            said: told.said,
            used,
        }
    }

    // Reads a part of the text up to the end of a number, or all of it.
    #[tactic(auto, unfolding(crate::specs::Player::listen_of))]
    pub fn listen(self, part: &[u8]) -> Turn
        ensures { result ≡ listen_of self part.now }
    {
        let read = self.reader.next(part);
        self.heard(read.heard.reader, read.heard.word, read.used)
    }

    // The text is at its end.
    #[tactic(auto, unfolding(crate::specs::Player::finish_of))]
    pub fn finish(self) -> Turn
        ensures { result ≡ finish_of self }
    {
        self.heard(self.reader, self.reader.end(), 0)
    }

    // How many cells the machine is lent.
    pub fn cells(self) -> usize
        ensures { result ≡ cells_of self }
    {
        let places = self.session.places as usize;
        if places <= MOST_PLACES {
            return places * PLACE_CELLS;
        }
        0
    }
}

fn is_done(answer: Answer) -> bool
    ensures { result ≡ done_b answer }
{
    matches!(answer, Answer::Done)
}

impl Turn {
    // Count and queues come as two, as in `put_call`. What is printed: a line for each call, for a setup that is not done, and for what is no session.
    pub fn show(self, answer: Answer, count: usize, queues: [Queue; 4], page: &mut Page)
        ensures { page.new ≡ show_of self answer count queues page.old }
    {
        match self.said {
            Said::Nothing => {}
            Said::Setup { .. } => {
                if !is_done(answer) {
                    put_setup(page, answer);
                }
            }
            Said::Call { .. } => put_call(page, count, queues, answer),
            Said::Wrong => put_bad(page, self.player.reader.start),
        }
    }

    // The program ends at a setup that is not done, and at what is no session.
    pub fn ends(self, answer: Answer) -> bool
        ensures { result ≡ ends_b self.said answer }
    {
        match self.said {
            Said::Nothing | Said::Call { .. } => false,
            Said::Setup { .. } => !is_done(answer),
            Said::Wrong => true,
        }
    }
}

// What the program does at the text's end, after what its last number said: a session that is cut off is none.
pub fn close(player: Player, page: &mut Page)
    ensures { page.new ≡ close_of player page.old }
{
    if !player.session.is_whole() {
        put_bad(page, player.reader.place);
    }
}
