// Numbers in a text that comes in parts. White space and comments part them; a comment goes from `#` to the end of its line.
#![tactic(auto)]

ghost use Rattle.std.specs.Prelude.{◌≡◌};
ghost use Rattle.reading.specs.Reading.{class_of, grown_of, new_reader, after as after_of, grew, in_space, in_number, in_comment, heard_of, end_of, read_of};

// What the reader stands in, between two bytes.
#[derive(Clone, Copy)]
pub enum Within {
    Space,
    Number,
    Comment,
}

// place: the bytes read so far; start: the place of the number's first byte; value: the number so far.
#[derive(Clone, Copy)]
pub struct Reader {
    pub within: Within,
    pub place: u64,
    pub start: u64,
    pub value: u64,
}

#[derive(Clone, Copy)]
pub enum Class {
    LineEnd,
    Space,
    Hash,
    Digit(u64),
    Other,
}

// What a byte, or the text's end, ends: nothing; a number; a number that is wrong. Each user tells all three apart, which an Option in a Result would
// only nest.
#[derive(Clone, Copy)]
pub enum Word {
    Nothing,
    Number(u64),
    Wrong,
}

#[derive(Clone, Copy)]
pub struct Heard {
    pub reader: Reader,
    pub word: Word,
}

// used: how many bytes of the part were read.
#[derive(Clone, Copy)]
pub struct Read {
    pub heard: Heard,
    pub used: usize,
}

#[tactic(auto, unfolding(crate::specs::Reading::class_of))]
pub fn class_of(byte: u8) -> Class
    ensures { result ≡ class_of byte }
{
    match byte {
        b'\n' => Class::LineEnd,
        b' ' => Class::Space,
        b'#' => Class::Hash,
        b'\t'..=b'\r' => Class::Space,
        b'0'..=b'9' => Class::Digit(u64::from(byte - b'0')),
        _ => Class::Other,
    }
}

// The number with one digit more, where it stays below 2^64.
#[tactic(auto, unfolding(crate::specs::Reading::grown_of))]
pub fn with_digit(value: u64, digit: u64) -> Option<u64>
    ensures { result ≡ grown_of value digit }
{
    value.checked_mul(10)?.checked_add(digit)
}

impl Reader {
    pub fn new() -> Reader
        ensures { result ≡ new_reader }
    {
        Reader {
            within: Within::Space,
            place: 0,
            start: 0,
            value: 0,
        }
    }

    // After one byte more.
    fn after(self, within: Within, start: u64, value: u64, word: Word) -> Heard
        ensures { result ≡ after_of self within start value word }
    {
        let place = self.place.wrapping_add(1);
        let reader = Reader {
            within,
            place,
            start,
            value,
        };
        Heard { reader, word }
    }

    // One digit more of the number that began at start.
    fn digit(self, start: u64, before: u64, digit: u64) -> Heard
        ensures { result ≡ grew self start (grown_of before digit) }
    {
        match with_digit(before, digit) {
            Some(value) => self.after(Within::Number, start, value, Word::Nothing),
            None => self.after(Within::Number, start, 0, Word::Wrong),
        }
    }

    fn in_space(self, class: Class) -> Heard
        ensures { result ≡ in_space self class }
    {
        match class {
            Class::LineEnd | Class::Space => self.after(Within::Space, 0, 0, Word::Nothing),
            Class::Hash => self.after(Within::Comment, 0, 0, Word::Nothing),
            Class::Digit(digit) => self.digit(self.place, 0, digit),
            Class::Other => self.after(Within::Number, self.place, 0, Word::Wrong),
        }
    }

    // The start is kept past the number's end: the number may yet turn out wrong.
    fn in_number(self, class: Class) -> Heard
        ensures { result ≡ in_number self class }
    {
        match class {
            Class::LineEnd | Class::Space => self.after(
                Within::Space,
                self.start,
                0,
                Word::Number(self.value),
            ),
            Class::Hash => self.after(Within::Comment, self.start, 0, Word::Number(self.value)),
            Class::Digit(digit) => self.digit(self.start, self.value, digit),
            Class::Other => self.after(Within::Number, self.start, 0, Word::Wrong),
        }
    }

    fn in_comment(self, class: Class) -> Heard
        ensures { result ≡ in_comment self class }
    {
        match class {
            Class::LineEnd => self.after(Within::Space, 0, 0, Word::Nothing),
            _ => self.after(Within::Comment, 0, 0, Word::Nothing),
        }
    }

    // One byte more. What the reader stands in is data, no closure: the reader is copied with it.
    #[tactic(auto, unfolding(crate::specs::Reading::heard_of))]
    pub fn byte(self, byte: u8) -> Heard
        ensures { result ≡ heard_of self byte }
    {
        let class = class_of(byte);
        match self.within {
            Within::Space => self.in_space(class),
            Within::Number => self.in_number(class),
            Within::Comment => self.in_comment(class),
        }
    }

    // The text's end ends a number too.
    pub fn end(self) -> Word
        ensures { result ≡ end_of self }
    {
        match self.within {
            Within::Number => Word::Number(self.value),
            Within::Space | Within::Comment => Word::Nothing,
        }
    }

    // Reads a part of the text up to the byte that ends a number, or all of it.
    #[tactic(auto, using(crate::proofs::ReadingLaws::read_all, crate::proofs::ReadingLaws::read_on, crate::proofs::ReadingLaws::read_number, crate::proofs::ReadingLaws::read_wrong))]
    pub fn next(self, part: &[u8]) -> Read
        ensures { result ≡ read_of self part.now }
    {
        let mut reader = self;
        for (i, &byte) in part.iter().enumerate() {
            let heard = reader.byte(byte);
            match heard.word {
                Word::Nothing => reader = heard.reader,
                Word::Number(_) | Word::Wrong => return Read { heard, used: i + 1 },
            }
        }
        Read {
            heard: Heard {
                reader,
                word: Word::Nothing,
            },
            used: part.len(),
        }
    }
}
