// Limits, words and refusals: what every other room tests and answers by.
#![tactic(auto)]

mod answers;
mod refusal;

ghost use Rattle.std.specs.Prelude.{◌≡◌, true, ◌-◌};
ghost use Rattle.rules.specs.Limits.{bad_count, bad_width, outside, default_word};
ghost use Rattle.rules.specs.Table.{first, or_else};
ghost use Rattle.rules.specs.Refusal.{refusal_of, told};
ghost use Rattle.rules.specs.Refusals.{make_rows, step_rows, counted, admits};

pub use answers::{Made, Step};
pub use refusal::Refusal;

// The limits: of a count N, of a width n, and of a trace's samples.
#[derive(Clone, Copy)]
pub struct Limits {}

impl Limits {
    pub const COUNT: u32 = 1000;

    pub const WIDTH: u32 = 32;

    pub const SAMPLES: usize = 2048;
}

// 1: the count is 0 or above 1,000.
pub fn bad_count(need: u32) -> bool
    ensures { result ≡ bad_count need }
{
    (need == 0) | (need > Limits::COUNT)
}

// 2: the width is 0 or above 32.
pub fn bad_width(n: u32) -> bool
    ensures { result ≡ bad_width n }
{
    (n == 0) | (n > Limits::WIDTH)
}

// 5, 6, 7: the word has a bit at n or above.
pub fn outside(n: u32, w: u32) -> bool
    ensures { result ≡ outside n w }
{
    if n >= Limits::WIDTH {
        false
    } else {
        w >> n != 0
    }
}

// The word of a constructor that takes none: all ones within the width, and zero where the width is refused.
pub fn default_word(n: u32) -> u32
    ensures { result ≡ default_word n }
{
    if bad_width(n) {
        return 0;
    }
    // In 64 bits, so that a shift by 32 is one like any other.
    let above = 1u64 << n;
    (above - 1) as u32
}

// N-1, the greatest count: 0 of 0.
pub fn last(need: u32) -> u32
    ensures { result ≡ need - 1 }
{
    need.saturating_sub(1)
}

// One row of a table whose numbers are no names: what is refused already stays.
pub fn or_else(refusal: u32, number: u32, bad: bool) -> u32
    ensures { result ≡ or_else refusal number bad }
{
    if refusal != 0 {
        return refusal;
    }
    if bad { number } else { 0 }
}

// The table of every constructor: a bad count, the width, the initial word.
#[tactic(auto, unfolding(crate::specs::Table::first, crate::specs::Refusal::refusal_of, crate::specs::Refusal::told))]
pub fn make_refusal(miscounted: bool, n: u32, word: u32) -> Result<(), Refusal>
    ensures { result ≡ told (first (make_rows miscounted n word)) }
{
    Refusal::Count.when(miscounted)?;
    Refusal::Width.when(bad_width(n))?;
    Refusal::Word.when(outside(n, word))
}

// Rows 1 and 7, of a count: N is one that is taken, and the running count is below it.
pub fn counted(need: u32, count: u32) -> bool
    ensures { result ≡ counted need count }
{
    (count < need) & (need <= Limits::COUNT)
}

// Whether a step is taken, by one test: every count of its state is counted, and the words of its sample and its state, in one,
// are inside.
pub fn admits(counts: bool, n: u32, words: u32) -> bool
    ensures { result ≡ admits counts n words }
{
    if bad_width(n) {
        return false;
    }
    // In 64 bits, so that a shift by 32 is one like any other.
    let above = u64::from(words) >> n;
    counts & (above == 0)
}

// The table of a step that is not taken, its sample's words in one: what no row before refuses is the state's.
#[tactic(auto, unfolding(crate::specs::Table::first, crate::specs::Refusal::refusal_of))]
pub fn step_refusal(miscounted: bool, n: u32, sample: u32) -> Refusal
    ensures { result ≡ refusal_of (first (step_rows miscounted n (outside n sample) true)) }
{
    if miscounted {
        return Refusal::Count;
    }
    if bad_width(n) {
        return Refusal::Width;
    }
    if outside(n, sample) {
        return Refusal::Sample;
    }
    Refusal::State
}

// The number of a step that is not taken.
#[tactic(auto, using(crate::proofs::OneTest::step_own))]
pub fn step_number(miscounted: bool, n: u32, sample: u32) -> u32
    ensures { result ≡ first (step_rows miscounted n (outside n sample) true) }
{
    step_refusal(miscounted, n, sample).into()
}
