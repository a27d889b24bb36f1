// The reserve vote over two pairs of units (document 000, definition 17): a state, one step on it, and a run over four lent columns.
#![tactic(auto)]

pub mod pairs;

ghost use Rattle.std.specs.Prelude.{◌≡◌, ◌<◌, length};
ghost use Rattle.rules.specs.Limits.{default_word};
ghost use Rattle.vote.specs.Parts.{lent, AsLong};
ghost use Rattle.vote.specs.Which.{NotNeither};
ghost use Rattle.reserve.specs.Parts.{TookOver, Wrote};
ghost use Rattle.reserve.specs.Reserve.{phase_after, first_pair, second_pair, clauses, made_of, step_of};
ghost use Rattle.reserve.specs.Run.{Ran, shown_which};

use rules::Made;
use trace::RunAnswer;
use vote::{Vote, VoteAnswer, VoteStep};

// Which pair is in force: units 1 and 2; units 3 and 4 with a reset, for one step; units 3 and 4 for ever.
#[derive(Clone, Copy, Debug, PartialEq, Eq)]
pub enum Phase {
    Primary,
    TakingOver,
    Reserve,
}

// The state of a reserve vote: the phase, and the state of the vote, whichever pair it is on.
#[derive(Clone, Copy, Debug, PartialEq, Eq)]
pub struct Reserve {
    pub phase: Phase,
    pub vote: Vote,
}

// A step's answer, whose unit is one of the pair that was voted on, and that pair, 1 or 2, beside the state that it leaves. A
// refused step votes on none, 0.
#[derive(Clone, Copy, Debug, PartialEq, Eq)]
pub struct ReserveStep {
    pub state: Reserve,
    pub answer: VoteAnswer,
    pub pair: u32,
}

// An alarm of the primary pair hands over.
fn phase_after(answer: VoteAnswer) -> Phase
    ensures { result ≡ phase_after answer }
{
    match answer {
        VoteAnswer::Agreed(_) => Phase::Primary,
        VoteAnswer::Held(_, _) => Phase::Primary,
        VoteAnswer::Alarm(_, _) => Phase::TakingOver,
        VoteAnswer::Refused(_) => Phase::Primary,
    }
}

fn first_pair(taken: VoteStep) -> ReserveStep
    ensures { result ≡ first_pair taken }
{
    let vote = taken.state;
    let answer = taken.answer;
    let phase = phase_after(answer);
    ReserveStep {
        state: Reserve { phase, vote },
        answer,
        pair: 1,
    }
}

fn second_pair(taken: VoteStep) -> ReserveStep
    ensures { result ≡ second_pair taken }
{
    let vote = taken.state;
    let answer = taken.answer;
    ReserveStep {
        state: Reserve {
            phase: Phase::Reserve,
            vote,
        },
        answer,
        pair: 2,
    }
}

impl Reserve {
    // A fresh state from a width, a count and an initial word.
    pub fn from_word(n: u32, need: u32, word: u32) -> Made<Reserve>
        ensures { result ≡ made_of n need word }
    {
        let made = Vote::from_word(n, need, word);
        Made {
            state: Reserve {
                phase: Phase::Primary,
                vote: made.state,
            },
            refusal: made.refusal,
        }
    }

    // A fresh state from all ones within the width.
    pub fn new(n: u32, need: u32) -> Made<Reserve>
        ensures { result ≡ made_of n need (default_word n) }
    {
        Reserve::from_word(n, need, rules::default_word(n))
    }

    // The core, for rooms that have tested the state and the words themselves: the vote of the pair in force.
    pub fn clauses(self, a: u32, b: u32, c: u32, d: u32) -> ReserveStep
        ensures { result ≡ clauses self a b c d }
    {
        let vote = self.vote;
        let phase = self.phase;
        match phase {
            Phase::Primary => first_pair(vote.clauses(a, b, false)),
            Phase::TakingOver => second_pair(vote.clauses(c, d, true)),
            Phase::Reserve => second_pair(vote.clauses(c, d, false)),
        }
    }

    // One step. A refused one returns the state it got. The words of all four units are inside the width, or it is refused.
    pub fn step(self, a: u32, b: u32, c: u32, d: u32) -> ReserveStep
        ensures value { result ≡ step_of self a b c d }
        ensures not_neither { NotNeither self.vote.n (shown_which result) }
    {
        let vote = self.vote;
        let sample = (a | b) | (c | d);
        let counted = rules::counted(vote.need, vote.count);
        let refused = !rules::admits(counted, vote.n, sample | vote.word);
        if refused {
            let refusal = rules::step_refusal(rules::bad_count(vote.need), vote.n, sample);
            return ReserveStep {
                state: self,
                answer: VoteAnswer::Refused(refusal),
                pair: 0,
            };
        }
        self.clauses(a, b, c, d)
    }
}

// A step for each sample from a hand-over on, at sample `over`: what each shows is written. The first is with a reset.
fn take_over(
    alarmed: Vote,
    over: usize,
    c: &[u32],
    d: &[u32],
    words: &mut [u32],
    marks: &mut [u8],
    which: &mut [u8],
)
    requires over_in_bounds { over < length c.now }
    requires as_long { AsLong c.now d.now (lent words.old marks.old which.old) }
    ensures { TookOver alarmed over c.now d.now words.old marks.old which.old
        words.new marks.new which.new }
{
    let taken = alarmed.clauses(c[over], d[over], true);
    let answer = taken.answer;
    words[over] = answer.word();
    marks[over] = answer.mark();
    which[over] = answer.which();
    let rest = over + 1;
    vote::columns::write_steps(
        taken.state,
        false,
        &c[rest..],
        &d[rest..],
        &mut words[rest..],
        &mut marks[rest..],
        &mut which[rest..],
    );
}

// A step for each sample, from a state that is primary: what each shows is written. Units 1 and 2 up to their first alarm, then
// units 3 and 4: two parts, so that no sample asks for the phase.
fn write_steps(
    start: Reserve,
    a: &[u32],
    b: &[u32],
    c: &[u32],
    d: &[u32],
    words: &mut [u32],
    marks: &mut [u8],
    which: &mut [u8],
)
    requires as_long { AsLong a.now b.now (lent words.old marks.old which.old) }
    requires a_len { (length a.now ≡ length c.now) × (length a.now ≡ length d.now) }
    requires phase_value { start.phase ≡ Phase.Primary }
    ensures { Wrote start a.now b.now c.now d.now
        words.new marks.new which.new }
{
    let primary = vote::columns::write_steps(start.vote, true, a, b, words, marks, which);
    let over = primary.end;
    if over < a.len() {
        take_over(primary.state, over, c, d, words, marks, which);
    }
}

// A run over four lent columns, from a fresh state.
pub fn run(
    n: u32,
    need: u32,
    word: u32,
    a: &[u32],
    b: &[u32],
    c: &[u32],
    d: &[u32],
    words: &mut [u32],
    marks: &mut [u8],
    which: &mut [u8],
) -> RunAnswer
    ensures { Ran n need word a.now b.now c.now d.now
        words.old marks.old which.old result words.new marks.new which.new }
{
    let len = a.len();
    let unequal = (len != words.len()) | (len != marks.len()) | (len != which.len());
    trace::judge_four(rules::bad_count(need), n, word, a, b, c, d, unequal)?;
    let start = Reserve::from_word(n, need, word).state;
    write_steps(start, a, b, c, d, words, marks, which);
    Ok(())
}
