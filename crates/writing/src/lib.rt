// Text put on a lent page, from a place on. What lies behind the page's end is left out, and no put fails: so none goes by Display, which says what is
// written only where it succeeds.
#![tactic(auto)]

ghost use Rattle.std.specs.Prelude.{◌≡◌, ◌∷◌, []};
ghost use Rattle.writing.specs.Writing.{put_on, decimal, signed};

// at: the place behind what was put on it.
#[derive(Drop)]
pub struct Page<'a> {
    pub bytes: &'a mut [u8],
    pub at: usize,
}

impl Page<'_> {
    #[tactic(auto, using(crate::proofs::WritingLaws::byte_on, crate::proofs::WritingLaws::byte_off))]
    pub fn put_byte(&mut self, byte: u8)
        ensures { self.new ≡ put_on self.old (byte ∷ []) }
    {
        if self.at < self.bytes.len() {
            self.bytes[self.at] = byte;
            self.at += 1;
        } else {
            self.at = self.bytes.len();
        }
    }

    #[tactic(auto, using(crate::proofs::WritingLaws::put_none, crate::proofs::WritingLaws::put_next))]
    pub fn put_text(&mut self, text: &[u8])
        ensures { self.new ≡ put_on self.old text.now }
    {
        for &byte in text {
            self.put_byte(byte);
        }
    }

    #[tactic(auto, using(crate::proofs::WritingLaws::decimal_one, crate::proofs::WritingLaws::decimal_next, crate::proofs::WritingLaws::put_then))]
    pub fn put_number(&mut self, n: u64)
        ensures { self.new ≡ put_on self.old (decimal n) }
    {
        if n < 10 {
            self.put_byte(b'0' + n as u8);
            return;
        }
        self.put_number(n / 10);
        self.put_byte(b'0' + (n % 10) as u8);
    }

    #[tactic(auto, using(crate::proofs::WritingLaws::put_then))]
    pub fn put_signed(&mut self, z: i64)
        ensures { self.new ≡ put_on self.old (signed z) }
    {
        if z < 0 {
            self.put_byte(b'-');
        }
        self.put_number(z.unsigned_abs());
    }
}
