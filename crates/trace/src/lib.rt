// A run over a trace: its answer, its refusals, and the search for a sample outside the width. What a run is, for any kind of
// state, sample and answer, stands in specs/; the laws by which a loop that fills lent slices is shown to be one, in proofs/.
#![tactic(auto)]

ghost use Rattle.std.specs.Prelude.{◌≡◌, false, ◌<◌, ◌^◌, length, position, MatchOption};
ghost use Rattle.rules.specs.Limits.{too_long, outside};
ghost use Rattle.rules.specs.Refusal.{told};
ghost use Rattle.rules.specs.Refusals.{run_rows};
ghost use Rattle.rules.specs.Table.{first};
ghost use Rattle.trace.specs.Samples.{somewhere};
ghost use Rattle.trace.specs.Answers.{at_once, run_number, run_sample, run_answer, sampled_of, pair_answer, four_answer};
ghost use Rattle.trace.specs.Columns.{some_long, some_apart, earliest, columns_answer};

use rules::{Limits, Refusal};

// What refuses a run, and the number of the sample that it is about, 0 except with `Sample`.
#[derive(Clone, Copy, Debug, PartialEq, Eq)]
pub struct Refused {
    pub refusal: Refusal,
    pub sample: u32,
}

// The answer of every run.
pub type RunAnswer = Result<(), Refused>;

// What is known before a sample is read refuses at sample 0.
impl From<Refusal> for Refused {
    ghost from_gives = { λ refusal refused. refused ≡ at_once refusal };

    fn from(refusal: Refusal) -> Refused {
        Refused { refusal, sample: 0 }
    }
}

// The refusal's number, 0 for none.
pub fn number(answer: RunAnswer) -> u32
    ensures { result ≡ run_number answer }
{
    match answer {
        Ok(()) => 0,
        Err(refused) => refused.refusal.into(),
    }
}

// The sample that the refusal is about.
pub fn sample(answer: RunAnswer) -> u32
    ensures { result ≡ run_sample answer }
{
    match answer {
        Ok(()) => 0,
        Err(refused) => refused.sample,
    }
}

// The table of every run but for its last row: no sample has been read yet.
#[tactic(auto, unfolding(rules::specs::Table::first, rules::specs::Refusal::refusal_of, rules::specs::Refusal::told))]
fn run_refusal(
    miscounted: bool,
    n: u32,
    word: u32,
    long: bool,
    unequal: bool,
) -> Result<(), Refusal>
    ensures { result ≡ told (first (run_rows miscounted n word long unequal false)) }
{
    Refusal::Count.when(miscounted)?;
    Refusal::Width.when(rules::bad_width(n))?;
    Refusal::TooLong.when(long)?;
    Refusal::Lengths.when(unequal)?;
    Refusal::Word.when(rules::outside(n, word))
}

// Some sample is outside the width exactly when the OR of all is; a loop without a branch becomes wide code.
fn some_outside(n: u32, samples: &[u32]) -> bool
    ensures { result ≡ somewhere (outside n) samples.now }
{
    let mut union = 0;
    for sample in samples {
        union |= *sample;
    }
    rules::outside(n, union)
}

// The number of the first sample outside the width, searched only where the OR of all samples says that there is one.
fn outsider(n: u32, samples: &[u32]) -> Option<usize>
    ensures { result ≡ position (outside n) samples.now }
{
    if !some_outside(n, samples) {
        return None;
    }
    samples.iter().position(|sample| rules::outside(n, *sample))
}

// Some column has too many samples.
fn some_long(columns: &[&[u32]]) -> bool
    ensures { result ≡ some_long columns.now }
{
    columns.iter().any(|column| column.len() > Limits::SAMPLES)
}

// Some column has another length than the first.
fn some_apart(columns: &[&[u32]]) -> bool
    ensures { result ≡ some_apart columns.now }
{
    let Some((first, others)) = columns.split_first() else {
        return false;
    };
    others.iter().any(|column| first.len() != column.len())
}

// The number of the first sample outside the width in any column.
fn earliest(n: u32, columns: &[&[u32]]) -> Option<usize>
    ensures { result ≡ earliest n columns.now }
{
    columns
        .iter()
        .filter_map(|column| outsider(n, column))
        .min()
}

// The last row of a run's table: a sample outside the width, if there is one.
fn sampled(outsider: Option<usize>) -> RunAnswer
    requires { MatchOption outsider (Unit {0}) (λ i. i < 2 ^ 32) }
    ensures { result ≡ sampled_of outsider }
{
    match outsider {
        Some(i) => Err(Refused {
            refusal: Refusal::Sample,
            sample: i as u32,
        }),
        None => Ok(()),
    }
}

// A run over columns, whose lengths are compared here. A trace that is refused by a lower number is not read.
fn judge_columns(
    miscounted: bool,
    n: u32,
    word: u32,
    columns: &[&[u32]],
    unequal: bool,
) -> RunAnswer
    ensures { result ≡ columns_answer miscounted n word columns.now unequal }
{
    let long = some_long(columns);
    let apart = some_apart(columns) | unequal;
    run_refusal(miscounted, n, word, long, apart)?;
    sampled(earliest(n, columns))
}

// A run over one column.
#[tactic(auto, using(crate::proofs::Pairs::one_column))]
pub fn judge(miscounted: bool, n: u32, word: u32, samples: &[u32], unequal: bool) -> RunAnswer
    ensures { result ≡ run_answer outside miscounted n word (too_long (length samples.now))
        unequal samples.now }
{
    judge_columns(miscounted, n, word, &[samples], unequal)
}

// A run over two columns.
#[tactic(auto, using(crate::proofs::Pairs::two_columns))]
pub fn judge_pair(
    miscounted: bool,
    n: u32,
    word: u32,
    a: &[u32],
    b: &[u32],
    unequal: bool,
) -> RunAnswer
    ensures { result ≡ pair_answer miscounted n word a.now b.now unequal }
{
    judge_columns(miscounted, n, word, &[a, b], unequal)
}

// A run over four columns, two pairs.
#[tactic(auto, using(crate::proofs::Pairs::four_columns))]
pub fn judge_four(
    miscounted: bool,
    n: u32,
    word: u32,
    a: &[u32],
    b: &[u32],
    c: &[u32],
    d: &[u32],
    unequal: bool,
) -> RunAnswer
    ensures { result ≡ four_answer miscounted n word a.now b.now c.now d.now unequal }
{
    judge_columns(miscounted, n, word, &[a, b, c, d], unequal)
}
