// The answer of an attempt to steal, as the crate has it with three outcomes, and its helpers.
#![tactic(auto)]

ghost use Rattle.std.specs.Prelude.{◌≡◌};
ghost use Rattle.steal.specs.Steal.{number_of, value_of, is_empty_b, is_success_b, is_retry_b, success_of, or_else, of_number, collected, answers};

#[derive(Clone, Copy, PartialEq, Eq)]
pub enum Steal {
    // The queue was empty.
    Empty,
    // One job was taken.
    Success(u64),
    // The attempt lost against another thread, and may be made again.
    Retry,
}

impl Steal {
    pub fn is_empty(self) -> bool
        ensures { result ≡ is_empty_b self }
    {
        matches!(self, Steal::Empty)
    }

    pub fn is_success(self) -> bool
        ensures { result ≡ is_success_b self }
    {
        matches!(self, Steal::Success(_))
    }

    pub fn is_retry(self) -> bool
        ensures { result ≡ is_retry_b self }
    {
        matches!(self, Steal::Retry)
    }

    // The job, if there is one.
    pub fn success(self) -> Option<u64>
        ensures { result ≡ success_of self }
    {
        match self {
            Steal::Success(job) => Some(job),
            Steal::Empty | Steal::Retry => None,
        }
    }

    // The second answer where the first is no success; a lost attempt stays one unless the second is a success.
    pub fn or_else(self, second: Steal) -> Steal
        ensures { result ≡ or_else self second }
    {
        match self {
            Steal::Empty => second,
            Steal::Success(_) => self,
            Steal::Retry => match second {
                Steal::Empty => Steal::Retry,
                Steal::Success(_) => second,
                Steal::Retry => Steal::Retry,
            },
        }
    }

    // The number of each answer: its kind among the answers of all calls, which callers in C are told.
    pub fn number(self) -> u64
        ensures { result ≡ number_of self }
    {
        match self {
            Steal::Empty => 4,
            Steal::Success(_) => 5,
            Steal::Retry => 6,
        }
    }

    // The value of each answer: the job, and otherwise 0.
    pub fn value(self) -> u64
        ensures { result ≡ value_of self }
    {
        self.success().unwrap_or(0)
    }

    // The answer with this number and value; Empty where no answer has the number.
    #[tactic(auto, unfolding(crate::specs::Steal::of_number))]
    pub fn of(number: u64, value: u64) -> Steal
        ensures { result ≡ of_number number value }
    {
        match number {
            5 => Steal::Success(value),
            6 => Steal::Retry,
            _ => Steal::Empty,
        }
    }
}

// A list of answers, lent as their numbers and their values, put together: the first success; otherwise Retry if there is one; otherwise
// Empty. Where one of the two is longer its rest is not looked at. Two slices of numbers, not one of answers: a number that is no answer's is Empty.
pub fn collect(numbers: &[u64], values: &[u64]) -> Steal
    ensures { result ≡ collected (answers numbers.now values.now) }
{
    numbers
        .iter()
        .zip(values)
        .fold(Steal::Empty, |found, (&number, &value)| {
            found.or_else(Steal::of(number, value))
        })
}
