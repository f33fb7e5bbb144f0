// Plays a session, read from standard input, and writes a line for each call. Where a line is put on the page there is room for any, so none is cut off.
#![tactic(auto)]

ghost use Rattle.std.specs.Prelude.{◌≡◌, ◌≤◌, length};
ghost use Rattle.writing.specs.Writing.{whole_on};
ghost use Rattle.line.specs.Line.{longest_line, Room};
ghost use Rattle.player.specs.Player.{end_text};
ghost use Rattle.stand.specs.Stand.{act_text};

use cells::PLACE_CELLS;
use line::LONGEST_LINE;
use player::{Player, Turn, close};
use sound::MOST_PLACES;
use stand::Stand;
use std::io::Read;
use writing::Page;

// How far a session is played, and what it printed that is not yet written: the page has room for a line more.
#[derive(Drop)]
struct Game<'a, 'b> {
    stand: Stand,
    pool: &'a mut [u64],
    page: Page<'b>,
    ghost has_room: { Room page },
}

fn write_page(rt: &impl Print, page: &Page) -> bool {
    let end = page.at.min(page.bytes.len());
    rt.write_all(&page.bytes[..end]).is_ok()
}

// Writes a page that has no room for another line, and begins it anew.
fn turn_page(rt: &impl Print, page: &mut Page)
    requires { longest_line ≤ length page.old.bytes.now }
    ensures { Room page.new }
{
    if page.bytes.len() - LONGEST_LINE < page.at {
        write_page(rt, page);
        page.at = 0;
    }
}

// With room for a line, what is printed is put on the page whole; and so at the text's end. What these ask of the page that they are handed, `Game` has.
fn act_whole(stand: Stand, turn: Turn, pool: &mut [u64], page: &mut Page) -> Stand
    requires { Room page.old }
    ensures { page.new ≡ whole_on page.old (act_text stand turn pool.old) }
{
    stand.act(turn, pool, page)
}

#[tactic(auto, using(player::proofs::PlayerLaws::close_whole))]
fn close_whole(player: Player, page: &mut Page)
    requires { Room page.old }
    ensures { page.new ≡ whole_on page.old (end_text player) }
{
    close(player, page);
}

impl Game<'_, '_> {
    #[tactic(auto, using(line::proofs::LineLaws::still_long))]
    fn close(&mut self, rt: &impl Print) {
        close_whole(self.stand.player, &mut self.page);
        turn_page(rt, &mut self.page);
    }

    // The stand is a variable of its own while a part is played: behind `&mut self` it would be copied twice more at each number.
    #[tactic(auto, using(line::proofs::LineLaws::still_long, player::proofs::PlayerLaws::listen_within, player::proofs::PlayerLaws::listen_some))]
    fn play(&mut self, rt: &impl Print, part: &[u8]) {
        let mut stand = self.stand;
        let mut rest = part;
        while !rest.is_empty() && !stand.is_over {
            let turn = stand.player.listen(rest);
            rest = &rest[turn.used..];
            stand = act_whole(stand, turn, self.pool, &mut self.page);
            turn_page(rt, &mut self.page);
        }
        self.stand = stand;
    }

    // At the text's end its last number may yet say something; then a session that is cut off is none.
    #[tactic(auto, using(line::proofs::LineLaws::still_long))]
    fn end(&mut self, rt: &impl Print) {
        if !self.stand.is_over {
            let turn = self.stand.player.finish();
            self.stand = act_whole(self.stand, turn, self.pool, &mut self.page);
            turn_page(rt, &mut self.page);
        }
        if !self.stand.is_over {
            self.close(rt);
        }
        write_page(rt, &self.page);
    }
}

// A proved loop has to end, and nothing says that a text does: so it has a number of turns that no run uses up. A read that fails ends the text.
fn main(rt: HostRuntime) {
    let mut text = [0u8; 65536];
    let mut bytes = [0u8; 65536];
    let mut pool = [0u64; MOST_PLACES * PLACE_CELLS];
    let mut game = Game {
        stand: Stand::new(),
        pool: &mut pool,
        page: Page {
            bytes: &mut bytes,
            at: 0,
        },
    };
    for _ in 0..u64::MAX {
        let n = rt.stdin().read(&mut text).unwrap_or(0);
        game.play(&rt, &text[..n]);
        if n == 0 || game.stand.is_over {
            game.end(&rt);
            return;
        }
    }
}
