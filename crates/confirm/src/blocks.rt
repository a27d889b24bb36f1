// Steps of a confirmation over a lent trace: the loops of its run. Samples are taken in blocks, and a block that changes nothing
// is written in one go, so that quiet traces are fast.
ghost use Rattle.std.specs.Prelude.{◌≡◌};
ghost use Rattle.rules.specs.Limits.{differ};
ghost use Rattle.trace.specs.Samples.{somewhere};
ghost use Rattle.confirm.specs.Parts.{AsLong, Wrote, left_by};

use crate::Confirm;

// Some sample is another word than this one; a loop without a branch becomes wide code.
fn some_other(word: u32, samples: &[u32]) -> bool
    ensures { result ≡ somewhere (differ word) samples.now }
{
    let mut other = false;
    for sample in samples {
        other |= word != *sample;
    }
    other
}

// A step for each sample, from a state: what each shows is written.
fn take_steps(
    start: Confirm,
    samples: &[u32],
    words: &mut [u32],
    marks: &mut [u8],
    counts: &mut [u32],
) -> Confirm
    requires { AsLong samples.now words.old marks.old counts.old }
    ensures value { result ≡ left_by start samples.now }
    ensures wrote { Wrote start samples.now words.new marks.new counts.new }
{
    let mut state = start;
    for (i, sample) in samples.iter().enumerate() {
        let taken = state.clauses(*sample);
        let answer = taken.answer;
        state = taken.state;
        words[i] = answer.word();
        marks[i] = answer.mark();
        counts[i] = state.count;
    }
    state
}

// The same. Where the input is confirmed already, and every sample is that word, all steps are the third clause and alike.
fn write_block(
    start: Confirm,
    samples: &[u32],
    words: &mut [u32],
    marks: &mut [u8],
    counts: &mut [u32],
) -> Confirm
    requires { AsLong samples.now words.old marks.old counts.old }
    ensures value { result ≡ left_by start samples.now }
    ensures wrote { Wrote start samples.now words.new marks.new counts.new }
{
    let waiting = start.count < rules::last(start.need);
    let unsettled = waiting | (start.output != start.input);
    let moving = unsettled | some_other(start.input, samples);
    if moving {
        return take_steps(start, samples, words, marks, counts);
    }
    words.fill(start.input);
    marks.fill(0);
    counts.fill(start.count);
    start
}

// The same, block by block, and what is left of a block at the end.
pub(crate) fn write_steps(
    start: Confirm,
    samples: &[u32],
    words: &mut [u32],
    marks: &mut [u8],
    counts: &mut [u32],
)
    requires { AsLong samples.now words.old marks.old counts.old }
    ensures { Wrote start samples.now words.new marks.new counts.new }
{
    let mut state = start;
    let blocks = samples.len() / 8;
    for block in 0..blocks {
        let done = 8 * block;
        let end = done + 8;
        state = write_block(
            state,
            &samples[done..end],
            &mut words[done..end],
            &mut marks[done..end],
            &mut counts[done..end],
        );
    }
    let done = 8 * blocks;
    take_steps(
        state,
        &samples[done..],
        &mut words[done..],
        &mut marks[done..],
        &mut counts[done..],
    );
}
