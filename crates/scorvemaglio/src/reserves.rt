// The reserve vote, for C: its state is the phase, and the vote's n, N, last agreed word and count.
ghost use Rattle.std.specs.Prelude.{◌≡◌};
ghost use Rattle.rules.specs.Limits.{default_word};
ghost use Rattle.reserve.specs.Reserve.{made_of, step_of};
ghost use Rattle.scorvemaglio.specs.Runs.{RunsReserve};
ghost use Rattle.scorvemaglio.specs.States.{phase_of, phase_number, reserve_of, reserve_numbers};
ghost use Rattle.scorvemaglio.specs.Voters.{MakesReserve, StepsReserve, reserve_kept};

use crate::lent::{State, put_made};
use reserve::{Phase, Reserve, ReserveStep};
use vote::Vote;

fn phase_of(p: u32) -> Phase
    ensures { result ≡ phase_of p }
{
    match p {
        0 => Phase::Primary,
        1 => Phase::TakingOver,
        _ => Phase::Reserve,
    }
}

fn phase_number(p: Phase) -> u32
    ensures { result ≡ phase_number p }
{
    match p {
        Phase::Primary => 0,
        Phase::TakingOver => 1,
        Phase::Reserve => 2,
    }
}

impl State<5> for Reserve {
    ghost of = { reserve_of };

    ghost numbers = { reserve_numbers };

    fn of(s: &[u32; 5]) -> Reserve {
        let [phase, n, need, word, count] = *s;
        Reserve {
            phase: phase_of(phase),
            vote: Vote {
                n,
                need,
                word,
                count,
            },
        }
    }

    fn numbers(self) -> [u32; 5] {
        let vote = self.vote;
        [
            phase_number(self.phase),
            vote.n,
            vote.need,
            vote.word,
            vote.count,
        ]
    }
}

// The state that a step leaves and what it shows are written. The word shown is the one that its vote keeps: so it need not be
// taken out of the answer.
fn put_step(state: &mut [u32; 5], answer: &mut [u32; 4], taken: ReserveStep)
    ensures state_after { state.new ≡ reserve_numbers taken.state }
    ensures answer_after { answer.new ≡ reserve_kept taken }
{
    let left = taken.state;
    let vote = left.vote;
    let shown = taken.answer;
    *state = left.numbers();
    let mark = u32::from(shown.mark());
    let which = u32::from(shown.which());
    *answer = [vote.word, mark, taken.pair, which];
}

#[unsafe(no_mangle)]
pub extern "C" fn scorve_reserve_from_word(
    state: &mut [u32; 5],
    n: u32,
    need: u32,
    word: u32,
) -> u32
    ensures { MakesReserve (made_of n need word) state.old result state.new }
{
    put_made(state, Reserve::from_word(n, need, word))
}

#[unsafe(no_mangle)]
pub extern "C" fn scorve_reserve_new(state: &mut [u32; 5], n: u32, need: u32) -> u32
    ensures { MakesReserve (made_of n need (default_word n)) state.old result state.new }
{
    put_made(state, Reserve::new(n, need))
}

#[unsafe(no_mangle)]
pub extern "C" fn scorve_reserve_step(
    state: &mut [u32; 5],
    a: u32,
    b: u32,
    c: u32,
    d: u32,
    answer: &mut [u32; 4],
) -> u32
    ensures { StepsReserve (step_of (reserve_of state.old) a b c d) state.old answer.old
        result state.new answer.new }
{
    let s = Reserve::of(state);
    let vote = s.vote;
    let sample = (a | b) | (c | d);
    let counted = rules::counted(vote.need, vote.count);
    let admitted = rules::admits(counted, vote.n, sample | vote.word);
    let refused = (state[0] > 2) | !admitted;
    if refused {
        return rules::step_refusal(rules::bad_count(vote.need), vote.n, sample).into();
    }
    // Nothing is refused, so the clauses answer as the step does.
    put_step(state, answer, s.clauses(a, b, c, d));
    0
}

#[unsafe(no_mangle)]
pub extern "C" fn scorve_reserve_run(
    n: u32,
    need: u32,
    word: u32,
    a: &[u32],
    b: &[u32],
    c: &[u32],
    d: &[u32],
    words: &mut [u32],
    marks: &mut [u8],
    which: &mut [u8],
    sample: &mut u32,
) -> u32
    ensures { RunsReserve n need word a.now b.now c.now d.now
        words.old marks.old which.old
        result sample.new words.new marks.new which.new }
{
    crate::tell(
        sample,
        reserve::run(n, need, word, a, b, c, d, words, marks, which),
    )
}
