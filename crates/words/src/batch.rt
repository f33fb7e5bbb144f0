// What a batch remembers as words: its kind, what it wants, what it hauls.
ghost use Rattle.std.specs.Prelude.{◌≡◌};
ghost use Rattle.words.specs.Batch.{kind_word, kind_of, hand_word, held_word, hand_of, with_wanted, wanted_of, with_haul, haul_of};

use crate::InWords;
use index::Index;
use parts::stage::{BatchKind, Haul, Wanted};
use slots::StageWords;

impl InWords for BatchKind {
    type Words = u64;

    ghost words_of = { kind_word };

    ghost read_of = { kind_of };

    fn to_words(self) -> u64 {
        self as u64
    }

    fn from_words(words: u64) -> BatchKind {
        match words {
            0 => BatchKind::Batch,
            _ => BatchKind::BatchAndPop,
        }
    }
}

fn hand_word(hand: Option<u64>) -> u64
    ensures { result ≡ hand_word hand }
{
    u64::from(hand.is_some())
}

fn held_word(hand: Option<u64>) -> u64
    ensures { result ≡ held_word hand }
{
    hand.unwrap_or(0)
}

fn hand_of(hand: u64, held: u64) -> Option<u64>
    ensures { result ≡ hand_of hand held }
{
    if hand == 0 {
        return None;
    }
    Some(held)
}

// A wish and a haul are a part of a stage's words, beside its step: they are put into those, and have none of their own.
pub fn with_wanted(w: StageWords, wanted: Wanted) -> StageWords
    ensures value { result ≡ with_wanted wanted w }
    ensures read_again { wanted_of result ≡ wanted }
{
    StageWords {
        kind: wanted.kind.to_words(),
        f: wanted.f.to_words(),
        n: wanted.n,
        ..w
    }
}

pub fn wanted_of(w: StageWords) -> Wanted
    ensures { result ≡ wanted_of w }
{
    Wanted {
        kind: BatchKind::from_words(w.kind),
        f: Index::from_words(w.f),
        n: w.n,
    }
}

pub fn with_haul(w: StageWords, haul: Haul) -> StageWords
    ensures value { result ≡ with_haul haul w }
    ensures read_again { haul_of result ≡ haul }
{
    StageWords {
        f: haul.f.to_words(),
        b: haul.b.to_words(),
        n: haul.n,
        hand: hand_word(haul.in_hand),
        held: held_word(haul.in_hand),
        ..w
    }
    .with_ring(haul.ring)
}

pub fn haul_of(w: StageWords) -> Haul
    ensures { result ≡ haul_of w }
{
    Haul {
        ring: w.ring_of(),
        f: Index::from_words(w.f),
        n: w.n,
        b: Index::from_words(w.b),
        in_hand: hand_of(w.hand, w.held),
    }
}
