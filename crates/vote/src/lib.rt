// The vote of two words (document 000, definitions 14 and 16): a state, one step on it, and a run over two lent columns.
#![tactic(auto)]

pub mod columns;

ghost use Rattle.std.specs.Prelude.{◌≡◌};
ghost use Rattle.rules.specs.Limits.{default_word};
ghost use Rattle.vote.specs.Answers.{number_of, word_of, mark_of, byte_of, which_of};
ghost use Rattle.vote.specs.Vote.{fresh, agreed, still, held, clauses, made_of, step_of};
ghost use Rattle.vote.specs.Run.{Ran, shown_which};
ghost use Rattle.vote.specs.Which.{NotNeither};

use rules::{Made, Refusal, Step};
use trace::RunAnswer;

// The state of a vote, with its width n and its count N (`need`).
#[derive(Clone, Copy, Debug, PartialEq, Eq)]
pub struct Vote {
    pub n: u32,
    pub need: u32,
    // The last agreed word.
    pub word: u32,
    pub count: u32,
}

// Which unit still shows the last agreed word, where the two differ.
#[derive(Clone, Copy, Debug, PartialEq, Eq)]
pub enum Which {
    First,
    Second,
    Neither,
}

// The word that is shown, on hold and alarm the last agreed one with the unit that still shows it, or a refusal.
#[derive(Clone, Copy, Debug, PartialEq, Eq)]
pub enum VoteAnswer {
    Agreed(u32),
    Held(u32, Which),
    Alarm(u32, Which),
    Refused(Refusal),
}

pub type VoteStep = Step<Vote, VoteAnswer>;

// Steps over a part of two columns: the state that they leave, and the number of the sample after them.
#[derive(Clone, Copy, Debug, PartialEq, Eq)]
pub struct VotePart {
    pub state: Vote,
    pub end: usize,
}

impl Which {
    // The byte where no unit is told: the units agree, or the step is refused.
    pub const UNTOLD: u8 = 0;

    // 1 first, 2 second, 3 neither.
    pub fn byte(self) -> u8
        ensures { result ≡ byte_of self }
    {
        match self {
            Which::First => 1,
            Which::Second => 2,
            Which::Neither => 3,
        }
    }
}

impl VoteAnswer {
    // The refusal's number, 0 for none.
    pub fn number(self) -> u32
        ensures { result ≡ number_of self }
    {
        match self {
            VoteAnswer::Agreed(_) => 0,
            VoteAnswer::Held(_, _) => 0,
            VoteAnswer::Alarm(_, _) => 0,
            VoteAnswer::Refused(refusal) => refusal.into(),
        }
    }

    // The word that is shown, 0 with a refusal.
    pub fn word(self) -> u32
        ensures { result ≡ word_of self }
    {
        match self {
            VoteAnswer::Agreed(w) => w,
            VoteAnswer::Held(w, _) => w,
            VoteAnswer::Alarm(w, _) => w,
            VoteAnswer::Refused(_) => 0,
        }
    }

    // The mark byte: 0 agreed, 1 held, 2 alarm, 255 with a refusal.
    pub fn mark(self) -> u8
        ensures { result ≡ mark_of self }
    {
        match self {
            VoteAnswer::Agreed(_) => 0,
            VoteAnswer::Held(_, _) => 1,
            VoteAnswer::Alarm(_, _) => 2,
            VoteAnswer::Refused(_) => 255,
        }
    }

    // The byte that tells which unit still shows the last agreed word: 0 agreed, 1 first, 2 second, 3 neither.
    pub fn which(self) -> u8
        ensures { result ≡ which_of self }
    {
        match self {
            VoteAnswer::Agreed(_) => Which::UNTOLD,
            VoteAnswer::Held(_, which) => which.byte(),
            VoteAnswer::Alarm(_, which) => which.byte(),
            VoteAnswer::Refused(_) => Which::UNTOLD,
        }
    }
}

// The unit that still shows the last agreed word. Two words that differ cannot both be it, so the order decides nothing.
fn still(word: u32, a: u32, b: u32) -> Which
    ensures { result ≡ still word a b }
{
    if a == word {
        return Which::First;
    }
    if b == word {
        return Which::Second;
    }
    Which::Neither
}

impl Vote {
    fn fresh(n: u32, need: u32, word: u32) -> Vote
        ensures { result ≡ fresh n need word }
    {
        Vote {
            n,
            need,
            word,
            count: 0,
        }
    }

    // A fresh state from a width, a count and an initial word.
    pub fn from_word(n: u32, need: u32, word: u32) -> Made<Vote>
        ensures { result ≡ made_of n need word }
    {
        match rules::make_refusal(rules::bad_count(need), n, word) {
            Ok(()) => Made {
                state: Vote::fresh(n, need, word),
                refusal: None,
            },
            Err(refusal) => Made {
                state: Vote::fresh(1, 1, 0),
                refusal: Some(refusal),
            },
        }
    }

    // A fresh state from all ones within the width.
    pub fn new(n: u32, need: u32) -> Made<Vote>
        ensures { result ≡ made_of n need (default_word n) }
    {
        Vote::from_word(n, need, rules::default_word(n))
    }

    fn agreed(self, word: u32) -> VoteStep
        ensures { result ≡ agreed self word }
    {
        Step {
            state: Vote {
                word,
                count: 0,
                ..self
            },
            answer: VoteAnswer::Agreed(word),
        }
    }

    fn held(self, count: u32, which: Which) -> VoteStep
        ensures { result ≡ held self count which }
    {
        Step {
            state: Vote { count, ..self },
            answer: VoteAnswer::Held(self.word, which),
        }
    }

    // The core, for rooms that have tested the state and the words themselves: the clauses, in order; the first that applies is
    // taken, and nothing is refused. The reset stands above the alarm, as document 01 decides against definition 16.
    pub fn clauses(self, a: u32, b: u32, reset: bool) -> VoteStep
        ensures { result ≡ clauses self a b reset }
    {
        let equal = a == b;
        let waiting = self.count < rules::last(self.need);
        if equal {
            return self.agreed(a);
        }
        let which = still(self.word, a, b);
        if reset {
            return self.held(0, which);
        }
        if waiting {
            return self.held(self.count + 1, which);
        }
        Step {
            state: self,
            answer: VoteAnswer::Alarm(self.word, which),
        }
    }

    // One step. A refused one returns the state it got.
    pub fn step(self, a: u32, b: u32, reset: bool) -> VoteStep
        ensures value { result ≡ step_of self a b reset }
        ensures not_neither { NotNeither self.n (shown_which result) }
    {
        let sample = a | b;
        let counted = rules::counted(self.need, self.count);
        let refused = !rules::admits(counted, self.n, sample | self.word);
        if refused {
            let refusal = rules::step_refusal(rules::bad_count(self.need), self.n, sample);
            return Step {
                state: self,
                answer: VoteAnswer::Refused(refusal),
            };
        }
        self.clauses(a, b, reset)
    }
}

// A run over two lent columns, from a fresh state, without resets.
pub fn run(
    n: u32,
    need: u32,
    word: u32,
    a: &[u32],
    b: &[u32],
    words: &mut [u32],
    marks: &mut [u8],
    which: &mut [u8],
) -> RunAnswer
    ensures { Ran n need word a.now b.now words.old marks.old which.old
        result words.new marks.new which.new }
{
    let len = a.len();
    let unequal = (len != words.len()) | (len != marks.len()) | (len != which.len());
    trace::judge_pair(rules::bad_count(need), n, word, a, b, unequal)?;
    columns::take_steps(Vote::fresh(n, need, word), false, a, b, words, marks, which);
    Ok(())
}
