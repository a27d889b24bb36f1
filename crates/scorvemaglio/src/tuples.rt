// The tuple vote, for C: its state is the voters' count, the confirmation's five numbers, the agreed signals and a count for each
// place.
ghost use Rattle.std.specs.Prelude.{◌≡◌};
ghost use Rattle.rules.specs.Limits.{default_word};
ghost use Rattle.tuple.specs.Answers.{number_of};
ghost use Rattle.tuple.specs.Tuple.{made_of, step_of};
ghost use Rattle.scorvemaglio.specs.Runs.{RunsTuple};
ghost use Rattle.scorvemaglio.specs.States.{tuple_of, tuple_numbers};
ghost use Rattle.scorvemaglio.specs.Voters.{MakesTuple, StepsTuple, tuple_shown};

use crate::lent::{State, Taken, put_made, put_step};
use confirm::Confirm;
use tuple::{Tuple, TupleStep};

// The numbers of a state before its counts, and all of them.
const COUNTS_AT: usize = 7;

const NUMBERS: usize = COUNTS_AT + 32;

impl State<NUMBERS> for Tuple {
    ghost of = { tuple_of };

    ghost numbers = { tuple_numbers };

    fn of(s: &[u32; NUMBERS]) -> Tuple {
        let [votes, n, need, input, output, count, agreed, ..] = *s;
        let mut counts = [0; 32];
        counts.copy_from_slice(&s[COUNTS_AT..]);
        Tuple {
            votes,
            confirm: Confirm {
                n,
                need,
                input,
                output,
                count,
            },
            agreed,
            counts,
        }
    }

    fn numbers(self) -> [u32; NUMBERS] {
        let c = self.confirm;
        let mut s = [0; NUMBERS];
        s[..COUNTS_AT].copy_from_slice(&[
            self.votes,
            c.n,
            c.need,
            c.input,
            c.output,
            c.count,
            self.agreed,
        ]);
        s[COUNTS_AT..].copy_from_slice(&self.counts);
        s
    }
}

impl Taken<NUMBERS, 4> for TupleStep {
    ghost refusal = { λ t. number_of t.answer };

    ghost left = { λ t. tuple_numbers t.state };

    ghost shown = { tuple_shown };

    fn refusal(self) -> u32 {
        self.answer.number()
    }

    fn left(self) -> [u32; NUMBERS] {
        self.state.numbers()
    }

    fn shown(self) -> [u32; 4] {
        let word = self.answer.word();
        let mark = u32::from(self.answer.mark());
        let mask = self.answer.mask();
        [word, mark, mask, self.second]
    }
}

#[unsafe(no_mangle)]
pub extern "C" fn scorve_tuple_from_word(
    state: &mut [u32; NUMBERS],
    n: u32,
    votes: u32,
    need: u32,
    word: u32,
) -> u32
    ensures { MakesTuple (made_of n votes need word) state.old result state.new }
{
    put_made(state, Tuple::from_word(n, votes, need, word))
}

#[unsafe(no_mangle)]
pub extern "C" fn scorve_tuple_new(state: &mut [u32; NUMBERS], n: u32, votes: u32, need: u32) -> u32
    ensures { MakesTuple (made_of n votes need (default_word n)) state.old result state.new }
{
    put_made(state, Tuple::new(n, votes, need))
}

#[unsafe(no_mangle)]
pub extern "C" fn scorve_tuple_step(
    state: &mut [u32; NUMBERS],
    a: u32,
    b: u32,
    answer: &mut [u32; 4],
) -> u32
    ensures { StepsTuple (step_of (tuple_of state.old) a b) state.old answer.old
        result state.new answer.new }
{
    let s = Tuple::of(state);
    put_step(state, answer, s.step(a, b))
}

#[unsafe(no_mangle)]
pub extern "C" fn scorve_tuple_run(
    n: u32,
    votes: u32,
    need: u32,
    word: u32,
    a: &[u32],
    b: &[u32],
    words: &mut [u32],
    masks: &mut [u32],
    marks: &mut [u8],
    seconds: &mut [u32],
    sample: &mut u32,
) -> u32
    ensures { RunsTuple n votes need word a.now b.now
        words.old masks.old marks.old seconds.old
        result sample.new words.new masks.new marks.new seconds.new }
{
    crate::tell(
        sample,
        tuple::run(n, votes, need, word, a, b, words, masks, marks, seconds),
    )
}
