// The refusals of document 01, by name and number; the numbers are what C, a listing and a stored call tell.
ghost use Rattle.std.specs.Prelude.{◌≡◌};
ghost use Rattle.rules.specs.Refusal.{number, row};

#[derive(Clone, Copy, Debug, PartialEq, Eq)]
pub enum Refusal {
    // A count N is 0 or above 1,000.
    Count = 1,
    // A width n is 0 or above 32.
    Width = 2,
    // A trace has more than 2,048 samples.
    TooLong = 3,
    // The lent slices of one run differ in length, or one lent to the reader has not 2,048 places.
    Lengths = 4,
    // The initial word has a bit at n or above.
    Word = 5,
    // A sample has such a bit.
    Sample = 6,
    // The state is not one that a step takes.
    State = 7,
    // The gaps between samples, or the delay, are out of range.
    Times = 9,
    // The count that the gaps and the delay ask for would exceed 1,000.
    TooMany = 10,
    // A reading or the tolerance is not finite, or the tolerance is below zero.
    Reading = 11,
    // The bytes are not a recording.
    NotRecording = 12,
}

// Document 01's number, from 1 on.
impl From<Refusal> for u32 {
    ghost from_gives = { λ refusal k. k ≡ number refusal };

    fn from(refusal: Refusal) -> u32 {
        refusal as u32
    }
}

impl Refusal {
    // One row of a table: refused where its test is true.
    pub fn when(self, bad: bool) -> Result<(), Refusal>
        ensures { result ≡ row self bad }
    {
        if bad { Err(self) } else { Ok(()) }
    }
}
