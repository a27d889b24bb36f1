// Confirmation of a tuple (document 000, definition 6): a state, one step on it, and a run over a lent trace.
#![tactic(auto)]

mod blocks;

ghost use Rattle.std.specs.Prelude.{◌≡◌};
ghost use Rattle.rules.specs.Limits.{default_word};
ghost use Rattle.confirm.specs.Answers.{number_of, word_of, mark_of};
ghost use Rattle.confirm.specs.Confirm.{fresh, held, confirmed, clauses, made_of, step_of};
ghost use Rattle.confirm.specs.Run.{Ran};

use rules::{Made, Refusal, Step};
use trace::RunAnswer;

// The state of a confirmation, with its width n and its count N (`need`).
#[derive(Clone, Copy, Debug, PartialEq, Eq)]
pub struct Confirm {
    pub n: u32,
    pub need: u32,
    // The previous input and the previous output.
    pub input: u32,
    pub output: u32,
    pub count: u32,
}

// The word that is shown, or a refusal.
#[derive(Clone, Copy, Debug, PartialEq, Eq)]
pub enum ConfirmAnswer {
    Confirmed(u32),
    Held(u32),
    Refused(Refusal),
}

pub type ConfirmStep = Step<Confirm, ConfirmAnswer>;

impl ConfirmAnswer {
    // The refusal's number, 0 for none.
    pub fn number(self) -> u32
        ensures { result ≡ number_of self }
    {
        match self {
            ConfirmAnswer::Confirmed(_) => 0,
            ConfirmAnswer::Held(_) => 0,
            ConfirmAnswer::Refused(refusal) => refusal.into(),
        }
    }

    // The word that is shown, 0 with a refusal.
    pub fn word(self) -> u32
        ensures { result ≡ word_of self }
    {
        match self {
            ConfirmAnswer::Confirmed(w) => w,
            ConfirmAnswer::Held(w) => w,
            ConfirmAnswer::Refused(_) => 0,
        }
    }

    // The mark byte: 0 confirmed, 1 held, 255 with a refusal.
    pub fn mark(self) -> u8
        ensures { result ≡ mark_of self }
    {
        match self {
            ConfirmAnswer::Confirmed(_) => 0,
            ConfirmAnswer::Held(_) => 1,
            ConfirmAnswer::Refused(_) => 255,
        }
    }
}

impl Confirm {
    fn fresh(n: u32, need: u32, word: u32) -> Confirm
        ensures { result ≡ fresh n need word }
    {
        Confirm {
            n,
            need,
            input: word,
            output: word,
            count: 0,
        }
    }

    // A fresh state from a width, a count and an initial word.
    pub fn from_word(n: u32, need: u32, word: u32) -> Made<Confirm>
        ensures { result ≡ made_of n need word }
    {
        match rules::make_refusal(rules::bad_count(need), n, word) {
            Ok(()) => Made {
                state: Confirm::fresh(n, need, word),
                refusal: None,
            },
            Err(refusal) => Made {
                state: Confirm::fresh(1, 1, 0),
                refusal: Some(refusal),
            },
        }
    }

    // A fresh state from all ones within the width.
    pub fn new(n: u32, need: u32) -> Made<Confirm>
        ensures { result ≡ made_of n need (default_word n) }
    {
        Confirm::from_word(n, need, rules::default_word(n))
    }

    fn held(self, input: u32, count: u32) -> ConfirmStep
        ensures { result ≡ held self input count }
    {
        Step {
            state: Confirm {
                input,
                count,
                ..self
            },
            answer: ConfirmAnswer::Held(self.output),
        }
    }

    fn confirmed(self, input: u32) -> ConfirmStep
        ensures { result ≡ confirmed self input }
    {
        Step {
            state: Confirm {
                input,
                output: input,
                ..self
            },
            answer: ConfirmAnswer::Confirmed(input),
        }
    }

    // The core, for rooms that have tested the state and the input themselves: the clauses, in order; the first that applies
    // is taken, and nothing is refused.
    pub fn clauses(self, input: u32) -> ConfirmStep
        ensures { result ≡ clauses self input }
    {
        let changed = input != self.input;
        let waiting = self.count < rules::last(self.need);
        if changed {
            return self.held(input, 0);
        }
        if waiting {
            return self.held(input, self.count + 1);
        }
        self.confirmed(input)
    }

    // One step. A refused one returns the state it got.
    pub fn step(self, input: u32) -> ConfirmStep
        ensures { result ≡ step_of self input }
    {
        let words = input | (self.input | self.output);
        let counted = rules::counted(self.need, self.count);
        let refused = !rules::admits(counted, self.n, words);
        if refused {
            let refusal = rules::step_refusal(rules::bad_count(self.need), self.n, input);
            return Step {
                state: self,
                answer: ConfirmAnswer::Refused(refusal),
            };
        }
        self.clauses(input)
    }
}

// A run over a lent trace, from a fresh state.
pub fn run(
    n: u32,
    need: u32,
    word: u32,
    samples: &[u32],
    words: &mut [u32],
    marks: &mut [u8],
    counts: &mut [u32],
) -> RunAnswer
    ensures { Ran n need word samples.now words.old marks.old counts.old
        result words.new marks.new counts.new }
{
    let len = samples.len();
    let unequal = (len != words.len()) | (len != marks.len()) | (len != counts.len());
    trace::judge(rules::bad_count(need), n, word, samples, unequal)?;
    blocks::write_steps(Confirm::fresh(n, need, word), samples, words, marks, counts);
    Ok(())
}
