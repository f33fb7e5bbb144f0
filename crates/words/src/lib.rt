// What is kept as 64-bit words: indices, queues and the stages of threads; and the words of a machine in a row.
#![tactic(auto)]

ghost use Rattle.std.specs.Prelude.{◌≡◌};

pub mod batch;
pub mod batch_own;
pub mod batch_source;
pub mod length;
pub mod pop;
pub mod push;
pub mod queue;
pub mod resize;
pub mod slices;
pub mod stage;
pub mod stealing;

// What is kept as words. No From: none could promise that what is written is read again.
pub trait InWords: Sized {
    type Words;

    ghost words_of: { Self → Self.Words };

    ghost read_of: { Self.Words → Self };

    // What is written is read again.
    fn to_words(self) -> Self::Words
        ensures value { result ≡ words_of self }
        ensures read_again { read_of result ≡ self };

    // All words are read as something.
    fn from_words(words: Self::Words) -> Self
        ensures { result ≡ read_of words };
}
