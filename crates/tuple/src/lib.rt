// The tuple vote (document 000, definition 15; T-02, T-09): a plain vote for each signal, and a confirmation of the voted word,
// each with a count of its own.
#![tactic(auto)]

mod signals;
mod steps;

ghost use Rattle.std.specs.Prelude.{◌≡◌, eqb};
ghost use Rattle.rules.specs.Limits.{default_word};
ghost use Rattle.rules.specs.Table.{first};
ghost use Rattle.tuple.specs.Answers.{number_of, word_of, mask_of, mark_of};
ghost use Rattle.tuple.specs.Tuple.{bad_counts, miscounted, fresh, voters_of, confirmed_as, decided, made_of, rows_of, step_of};
ghost use Rattle.tuple.specs.Parts.{Decides};
ghost use Rattle.tuple.specs.Run.{Ran};
ghost use Rattle.tuple.specs.Second.{Tells};

use confirm::{Confirm, ConfirmAnswer};
use rules::{Made, Refusal};
use trace::RunAnswer;

// The state of a tuple vote: the voters' N, the confirmation's state, which has n and its own N, the agreed signals as one word,
// and a count for each signal; places at n and above are zero.
#[derive(Clone, Copy, Debug, PartialEq, Eq)]
pub struct Tuple {
    pub votes: u32,
    pub confirm: Confirm,
    pub agreed: u32,
    pub counts: [u32; 32],
}

// The word that is shown, on alarm the previous output beside the alarm mask, or a refusal.
#[derive(Clone, Copy, Debug, PartialEq, Eq)]
pub enum TupleAnswer {
    Confirmed(u32),
    Held(u32),
    Alarm { word: u32, mask: u32 },
    Refused(Refusal),
}

// A step's answer, beside the state that it leaves. Whatever the mark, `second` has a one where the signals differ and the second
// unit shows the agreed bit; where they differ and it has none, the first does. A refused step has none.
#[derive(Clone, Copy, Debug, PartialEq, Eq)]
pub struct TupleStep {
    pub state: Tuple,
    pub answer: TupleAnswer,
    pub second: u32,
}

// What the voters of all signals leave at one sample: what the definitions of a step speak of, so other rooms can name it.
#[derive(Clone, Copy, Debug, PartialEq, Eq)]
pub struct Voters {
    pub word: u32,
    pub mask: u32,
    pub second: u32,
    pub counts: [u32; 32],
}

impl TupleAnswer {
    // The refusal's number, 0 for none.
    pub fn number(self) -> u32
        ensures { result ≡ number_of self }
    {
        match self {
            TupleAnswer::Confirmed(_) => 0,
            TupleAnswer::Held(_) => 0,
            TupleAnswer::Alarm { word: _, mask: _ } => 0,
            TupleAnswer::Refused(refusal) => refusal.into(),
        }
    }

    // The word that is shown, 0 with a refusal.
    pub fn word(self) -> u32
        ensures { result ≡ word_of self }
    {
        match self {
            TupleAnswer::Confirmed(w) => w,
            TupleAnswer::Held(w) => w,
            TupleAnswer::Alarm { word, mask: _ } => word,
            TupleAnswer::Refused(_) => 0,
        }
    }

    // The signals that alarm, 0 for none.
    pub fn mask(self) -> u32
        ensures { result ≡ mask_of self }
    {
        match self {
            TupleAnswer::Confirmed(_) => 0,
            TupleAnswer::Held(_) => 0,
            TupleAnswer::Alarm { word: _, mask } => mask,
            TupleAnswer::Refused(_) => 0,
        }
    }

    // The mark byte: 0 confirmed, 1 held, 2 alarm, 255 with a refusal.
    pub fn mark(self) -> u8
        ensures { result ≡ mark_of self }
    {
        match self {
            TupleAnswer::Confirmed(_) => 0,
            TupleAnswer::Held(_) => 1,
            TupleAnswer::Alarm { word: _, mask: _ } => 2,
            TupleAnswer::Refused(_) => 255,
        }
    }
}

fn confirmed_as(answer: ConfirmAnswer) -> TupleAnswer
    ensures { result ≡ confirmed_as answer }
{
    match answer {
        ConfirmAnswer::Confirmed(w) => TupleAnswer::Confirmed(w),
        ConfirmAnswer::Held(w) => TupleAnswer::Held(w),
        ConfirmAnswer::Refused(refusal) => TupleAnswer::Refused(refusal),
    }
}

// If any voter alarms, the mask with the previous output, and confirmation takes no step; otherwise the voted word takes one.
fn decide(confirm: &mut Confirm, voted: u32, mask: u32) -> TupleAnswer
    ensures { Decides confirm.old voted mask confirm.new result }
{
    if mask != 0 {
        let word = confirm.output;
        return TupleAnswer::Alarm { word, mask };
    }
    let taken = confirm.clauses(voted);
    *confirm = taken.state;
    confirmed_as(taken.answer)
}

// 1: either count is 0 or above 1,000.
fn bad_counts(votes: u32, need: u32) -> bool
    ensures { result ≡ bad_counts votes need }
{
    rules::bad_count(votes) | rules::bad_count(need)
}

impl Tuple {
    fn fresh(n: u32, votes: u32, need: u32, word: u32) -> Tuple
        ensures { result ≡ fresh n votes need word }
    {
        let confirm = Confirm {
            n,
            need,
            input: word,
            output: word,
            count: 0,
        };
        let counts = [0u32; 32];
        Tuple {
            votes,
            confirm,
            agreed: word,
            counts,
        }
    }

    // A fresh state from a width, the voters' count, the confirmation's and an initial word.
    pub fn from_word(n: u32, votes: u32, need: u32, word: u32) -> Made<Tuple>
        ensures { result ≡ made_of n votes need word }
    {
        match rules::make_refusal(bad_counts(votes, need), n, word) {
            Ok(()) => Made {
                state: Tuple::fresh(n, votes, need, word),
                refusal: None,
            },
            Err(refusal) => Made {
                state: Tuple::fresh(1, 1, 1, 0),
                refusal: Some(refusal),
            },
        }
    }

    // A fresh state from all ones within the width.
    pub fn new(n: u32, votes: u32, need: u32) -> Made<Tuple>
        ensures { result ≡ made_of n votes need (default_word n) }
    {
        Tuple::from_word(n, votes, need, rules::default_word(n))
    }

    // All voters have stepped: the alarm or the confirmation.
    fn decided(self, v: Voters) -> TupleStep
        ensures { result ≡ decided self v }
    {
        let counts = v.counts;
        let mut state = Tuple {
            agreed: v.word,
            counts,
            ..self
        };
        let answer = decide(&mut state.confirm, v.word, v.mask);
        TupleStep {
            state,
            answer,
            second: v.second,
        }
    }

    // 1, of the state.
    fn miscounted(self) -> bool
        ensures { result ≡ miscounted self }
    {
        bad_counts(self.votes, self.confirm.need)
    }

    // The signals that disagree, as one word, and the voters, which look at it.
    fn voters(self, a: u32, b: u32) -> Voters
        requires { first (rows_of self a b) ≡ 0 }
        ensures { result ≡ voters_of self a b }
    {
        let disagreeing = signals::disagreement(a, b);
        let mut counts = self.counts;
        let mask = signals::step_voters(self.votes, &mut counts, disagreeing);
        let word = signals::voted_word(a, self.agreed, disagreeing);
        let second = signals::second_word(a, self.agreed, disagreeing);
        Voters {
            word,
            mask,
            second,
            counts,
        }
    }

    // Whether a step is taken, by one test: its table gives no number. Rows 1 and 7 ask of the voters' counts and of the
    // confirmation's, each with its own N. The places that count are one more word: it is inside the width exactly where none at n
    // or above counts.
    fn admits(self, a: u32, b: u32) -> bool
        ensures { result ≡ eqb (first (rows_of self a b)) 0 }
    {
        let confirm = self.confirm;
        let counts = self.counts;
        let votes = self.votes;
        let counting = signals::places_above(0, &counts);
        let over = signals::places_above(rules::last(votes), &counts);
        let stored = counting | (self.agreed | (confirm.input | confirm.output));
        let votes_counted = !(rules::bad_count(votes) | (over != 0));
        let counted = votes_counted & rules::counted(confirm.need, confirm.count);
        rules::admits(counted, confirm.n, (a | b) | stored)
    }

    // One step. A refused one returns the state it got.
    pub fn step(self, a: u32, b: u32) -> TupleStep
        ensures value { result ≡ step_of self a b }
        ensures tells { Tells self a b result }
    {
        let confirm = self.confirm;
        let refused = !self.admits(a, b);
        if refused {
            let refusal = rules::step_refusal(self.miscounted(), confirm.n, a | b);
            return TupleStep {
                state: self,
                answer: TupleAnswer::Refused(refusal),
                second: 0,
            };
        }
        self.decided(self.voters(a, b))
    }
}

// A run over two lent columns, from a fresh state.
pub fn run(
    n: u32,
    votes: u32,
    need: u32,
    word: u32,
    a: &[u32],
    b: &[u32],
    words: &mut [u32],
    masks: &mut [u32],
    marks: &mut [u8],
    seconds: &mut [u32],
) -> RunAnswer
    ensures { Ran n votes need word a.now b.now
        words.old masks.old marks.old seconds.old
        result words.new masks.new marks.new seconds.new }
{
    let len = a.len();
    let some_unequal = (len != words.len()) | (len != masks.len()) | (len != marks.len());
    let unequal = some_unequal | (len != seconds.len());
    trace::judge_pair(bad_counts(votes, need), n, word, a, b, unequal)?;
    let start = Tuple::fresh(n, votes, need, word);
    steps::write_steps(start, a, b, words, masks, marks, seconds);
    Ok(())
}
