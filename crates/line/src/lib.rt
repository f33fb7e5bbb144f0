// The lines that a session prints: a call's answer and, after a tab for each queue, front, back, ring, place and capacity.
// They are put, not displayed: what Display promises is of Ok alone, and these promise the page also where it cuts a line off.
#![tactic(auto, using(writing::proofs::WritingLaws::put_then, writing::proofs::WritingLaws::put_none))]

ghost use Rattle.std.specs.Prelude.{◌≡◌, ◌++◌};
ghost use Rattle.parts.specs.declared.answer.Answer.TheVariants.{Length};
ghost use Rattle.writing.specs.Writing.{put_on, decimal};
ghost use Rattle.line.specs.Line.{stolen_text, answer_text, ring_text, queue_text, queue_text_if, call_text, setup_text, bad_text};

use parts::answer::Answer;
use parts::queue::{Queue, queue_of};
use ring::Ring;
use steal::Steal;
use writing::Page;

// No line is longer.
pub const LONGEST_LINE: usize = 478;

fn put_told(page: &mut Page, text: &[u8], n: u64)
    ensures { page.new ≡ put_on page.old (text.now ++ decimal n) }
{
    page.put_text(text);
    page.put_number(n);
}

fn put_stolen(page: &mut Page, stolen: Steal)
    ensures { page.new ≡ put_on page.old (stolen_text stolen) }
{
    match stolen {
        Steal::Empty => page.put_text(b"empty"),
        Steal::Success(job) => put_told(page, b"took ", job),
        Steal::Retry => page.put_text(b"retry"),
    }
}

fn put_length(page: &mut Page, difference: i64, length: u64)
    ensures { page.new ≡ put_on page.old (answer_text (Length difference length)) }
{
    page.put_text(b"length ");
    page.put_signed(difference);
    put_told(page, b" ", length);
}

fn put_answer(page: &mut Page, answer: Answer)
    ensures { page.new ≡ put_on page.old (answer_text answer) }
{
    match answer {
        Answer::Working => page.put_text(b"working"),
        Answer::Done => page.put_text(b"done"),
        Answer::Job(job) => put_told(page, b"job ", job),
        Answer::Nothing => page.put_text(b"nothing"),
        Answer::Stolen(stolen) => put_stolen(page, stolen),
        Answer::Moved => page.put_text(b"moved"),
        Answer::Length { difference, length } => put_length(page, difference, length),
        Answer::GaveUp(shortage) => put_told(page, b"gave-up ", shortage.number()),
        Answer::Refused(refusal) => put_told(page, b"refused ", refusal.number()),
    }
}

fn put_ring(page: &mut Page, ring: Ring)
    ensures { page.new ≡ put_on page.old (ring_text ring) }
{
    put_told(page, b" ", ring.number.0);
    put_told(page, b" ", ring.place.0 as u64);
    put_told(page, b" ", ring.capacity as u64);
}

fn put_queue(page: &mut Page, q: Queue)
    ensures { page.new ≡ put_on page.old (queue_text q) }
{
    page.put_text(b"\t");
    page.put_signed(q.front.0);
    page.put_text(b" ");
    page.put_signed(q.back.0);
    put_ring(page, q.ring);
}

// Queue k of so many.
fn put_queue_if(page: &mut Page, count: usize, queues: [Queue; 4], k: usize)
    ensures { page.new ≡ put_on page.old (queue_text_if count queues k) }
{
    if k < count {
        put_queue(page, queue_of(&queues, k));
    }
}

// A call's line: of the queues so many, and four at most whatever the count, which is what keeps a line short (`call_short`). Count and queues are the
// machine's fields; a struct of the two would be made for this call alone. The four stand one by one, as in `call_text`.
pub fn put_call(page: &mut Page, count: usize, queues: [Queue; 4], answer: Answer)
    ensures { page.new ≡ put_on page.old (call_text count queues answer) }
{
    put_answer(page, answer);
    put_queue_if(page, count, queues, 0);
    put_queue_if(page, count, queues, 1);
    put_queue_if(page, count, queues, 2);
    put_queue_if(page, count, queues, 3);
    page.put_text(b"\n");
}

// A refused setup's line.
pub fn put_setup(page: &mut Page, answer: Answer)
    ensures { page.new ≡ put_on page.old (setup_text answer) }
{
    page.put_text(b"setup ");
    put_answer(page, answer);
    page.put_text(b"\n");
}

// The line for what is no session.
pub fn put_bad(page: &mut Page, place: u64)
    ensures { page.new ≡ put_on page.old (bad_text place) }
{
    put_told(page, b"bad input at byte ", place);
    page.put_text(b"\n");
}
