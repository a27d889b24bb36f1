// The vote of two words, for C: its state is n, N, the last agreed word and the count.
ghost use Rattle.std.specs.Prelude.{◌≡◌, not, eqb};
ghost use Rattle.rules.specs.Limits.{default_word};
ghost use Rattle.vote.specs.Answers.{number_of};
ghost use Rattle.vote.specs.Vote.{made_of, step_of};
ghost use Rattle.scorvemaglio.specs.Runs.{RunsVote};
ghost use Rattle.scorvemaglio.specs.States.{vote_of, vote_numbers};
ghost use Rattle.scorvemaglio.specs.Voters.{MakesVote, StepsVote, vote_shown};

use crate::lent::{State, Taken, put_made, put_step};
use vote::{Vote, VoteStep};

impl State<4> for Vote {
    ghost of = { vote_of };

    ghost numbers = { vote_numbers };

    fn of(s: &[u32; 4]) -> Vote {
        let [n, need, word, count] = *s;
        Vote {
            n,
            need,
            word,
            count,
        }
    }

    fn numbers(self) -> [u32; 4] {
        [self.n, self.need, self.word, self.count]
    }
}

impl Taken<4, 3> for VoteStep {
    ghost refusal = { λ t. number_of t.answer };

    ghost left = { λ t. vote_numbers t.state };

    ghost shown = { vote_shown };

    fn refusal(self) -> u32 {
        self.answer.number()
    }

    fn left(self) -> [u32; 4] {
        self.state.numbers()
    }

    fn shown(self) -> [u32; 3] {
        let word = self.answer.word();
        let mark = u32::from(self.answer.mark());
        let which = u32::from(self.answer.which());
        [word, mark, which]
    }
}

#[unsafe(no_mangle)]
pub extern "C" fn scorve_vote_from_word(state: &mut [u32; 4], n: u32, need: u32, word: u32) -> u32
    ensures { MakesVote (made_of n need word) state.old result state.new }
{
    put_made(state, Vote::from_word(n, need, word))
}

#[unsafe(no_mangle)]
pub extern "C" fn scorve_vote_new(state: &mut [u32; 4], n: u32, need: u32) -> u32
    ensures { MakesVote (made_of n need (default_word n)) state.old result state.new }
{
    put_made(state, Vote::new(n, need))
}

#[unsafe(no_mangle)]
pub extern "C" fn scorve_vote_step(
    state: &mut [u32; 4],
    a: u32,
    b: u32,
    reset: u32,
    answer: &mut [u32; 3],
) -> u32
    ensures { StepsVote (step_of (vote_of state.old) a b (not (eqb reset 0))) state.old answer.old
        result state.new answer.new }
{
    let s = Vote::of(state);
    put_step(state, answer, s.step(a, b, reset != 0))
}

#[unsafe(no_mangle)]
pub extern "C" fn scorve_vote_run(
    n: u32,
    need: u32,
    word: u32,
    a: &[u32],
    b: &[u32],
    words: &mut [u32],
    marks: &mut [u8],
    which: &mut [u8],
    sample: &mut u32,
) -> u32
    ensures { RunsVote n need word a.now b.now words.old marks.old which.old
        result sample.new words.new marks.new which.new }
{
    crate::tell(sample, vote::run(n, need, word, a, b, words, marks, which))
}
