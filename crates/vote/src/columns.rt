// Steps of a vote over two lent columns: the loops of its run, and of the reserve vote's.
ghost use Rattle.std.specs.Prelude.{◌≡◌, ◌<◌, true, eqb, length};
ghost use mathlib.Core.List.{zip};
ghost use Rattle.vote.specs.Answers.{mark_of};
ghost use Rattle.vote.specs.Parts.{lent, stored, AsLong, Taken, Parts};

use crate::{Vote, VoteAnswer, VotePart};

impl VoteAnswer {
    fn is_alarm(self) -> bool
        ensures { result ≡ eqb (mark_of self) 2 }
    {
        matches!(self, VoteAnswer::Alarm(_, _))
    }
}

// What an answer shows, at place i of each slice.
fn store(answer: VoteAnswer, i: usize, words: &mut [u32], marks: &mut [u8], which: &mut [u8])
    requires { (i < length words.old) × (i < length marks.old) × (i < length which.old) }
    ensures { lent words.new marks.new which.new ≡ stored (lent words.old marks.old which.old) i answer }
{
    words[i] = answer.word();
    marks[i] = answer.mark();
    which[i] = answer.which();
}

// A step for each sample, from a state, without resets: what each shows is written, up to the end or, with `once`, to the
// first alarm.
pub(crate) fn take_steps(
    start: Vote,
    once: bool,
    a: &[u32],
    b: &[u32],
    words: &mut [u32],
    marks: &mut [u8],
    which: &mut [u8],
) -> VotePart
    requires { AsLong a.now b.now (lent words.old marks.old which.old) }
    ensures { Taken once start (zip a.now b.now) (lent words.old marks.old which.old)
        result.end result.state true (lent words.new marks.new which.new) }
{
    let mut state = start;
    for (i, first) in a.iter().enumerate() {
        let taken = state.clauses(*first, b[i], false);
        state = taken.state;
        store(taken.answer, i, words, marks, which);
        let alarm = taken.answer.is_alarm();
        let over = once & alarm;
        if over {
            return VotePart { state, end: i + 1 };
        }
    }
    VotePart {
        state,
        end: a.len(),
    }
}

// The same for rooms above, whatever is lent: where a length differs no step is taken.
pub fn write_steps(
    start: Vote,
    once: bool,
    a: &[u32],
    b: &[u32],
    words: &mut [u32],
    marks: &mut [u8],
    which: &mut [u8],
) -> VotePart
    ensures { Parts once start a.now b.now words.old marks.old which.old
        result words.new marks.new which.new }
{
    let len = a.len();
    let unequal = (len != words.len()) | (len != marks.len()) | (len != which.len());
    let apart = (len != b.len()) | unequal;
    if apart {
        return VotePart {
            state: start,
            end: 0,
        };
    }
    take_steps(start, once, a, b, words, marks, which)
}
