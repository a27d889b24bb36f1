// The boundary for C: the calls that a dispatcher makes, on numbers and lent arrays. A refused call returns its number and writes
// nothing; only the number of the sample is told with every run and every reading.
#![tactic(auto)]

mod confirms;
mod lent;
mod others;
mod reserves;
mod tuples;
mod version;
mod votes;

ghost use Rattle.scorvemaglio.specs.Lent.{Tells};

use trace::RunAnswer;

pub(crate) fn tell(sample: &mut u32, answer: RunAnswer) -> u32
    ensures { Tells answer result sample.new }
{
    *sample = trace::sample(answer);
    trace::number(answer)
}
