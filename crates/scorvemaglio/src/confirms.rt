// Confirmation, for C: its state is n, N, the previous input, the previous output and the count.
ghost use Rattle.std.specs.Prelude.{◌≡◌};
ghost use Rattle.rules.specs.Limits.{default_word};
ghost use Rattle.confirm.specs.Answers.{number_of};
ghost use Rattle.confirm.specs.Confirm.{made_of, step_of};
ghost use Rattle.scorvemaglio.specs.Runs.{RunsConfirm};
ghost use Rattle.scorvemaglio.specs.States.{confirm_of, confirm_numbers};
ghost use Rattle.scorvemaglio.specs.Voters.{MakesConfirm, StepsConfirm, confirm_shown};

use crate::lent::{State, Taken, put_made, put_step};
use confirm::{Confirm, ConfirmStep};

impl State<5> for Confirm {
    ghost of = { confirm_of };

    ghost numbers = { confirm_numbers };

    fn of(s: &[u32; 5]) -> Confirm {
        let [n, need, input, output, count] = *s;
        Confirm {
            n,
            need,
            input,
            output,
            count,
        }
    }

    fn numbers(self) -> [u32; 5] {
        [self.n, self.need, self.input, self.output, self.count]
    }
}

impl Taken<5, 2> for ConfirmStep {
    ghost refusal = { λ t. number_of t.answer };

    ghost left = { λ t. confirm_numbers t.state };

    ghost shown = { confirm_shown };

    fn refusal(self) -> u32 {
        self.answer.number()
    }

    fn left(self) -> [u32; 5] {
        self.state.numbers()
    }

    fn shown(self) -> [u32; 2] {
        [self.answer.word(), u32::from(self.answer.mark())]
    }
}

#[unsafe(no_mangle)]
pub extern "C" fn scorve_confirm_from_word(
    state: &mut [u32; 5],
    n: u32,
    need: u32,
    word: u32,
) -> u32
    ensures { MakesConfirm (made_of n need word) state.old result state.new }
{
    put_made(state, Confirm::from_word(n, need, word))
}

#[unsafe(no_mangle)]
pub extern "C" fn scorve_confirm_new(state: &mut [u32; 5], n: u32, need: u32) -> u32
    ensures { MakesConfirm (made_of n need (default_word n)) state.old result state.new }
{
    put_made(state, Confirm::new(n, need))
}

#[unsafe(no_mangle)]
pub extern "C" fn scorve_confirm_step(
    state: &mut [u32; 5],
    input: u32,
    answer: &mut [u32; 2],
) -> u32
    ensures { StepsConfirm (step_of (confirm_of state.old) input) state.old answer.old
        result state.new answer.new }
{
    let s = Confirm::of(state);
    put_step(state, answer, s.step(input))
}

#[unsafe(no_mangle)]
pub extern "C" fn scorve_confirm_run(
    n: u32,
    need: u32,
    word: u32,
    samples: &[u32],
    words: &mut [u32],
    marks: &mut [u8],
    counts: &mut [u32],
    sample: &mut u32,
) -> u32
    ensures { RunsConfirm n need word samples.now words.old marks.old counts.old
        result sample.new words.new marks.new counts.new }
{
    crate::tell(
        sample,
        confirm::run(n, need, word, samples, words, marks, counts),
    )
}
