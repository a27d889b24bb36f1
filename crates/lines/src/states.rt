// What constructors answer, the states that more than one room's calls have, and the answers of a vote of two words.
use crate::{input, output};
use confirm::Confirm;
use rules::Made;
use vote::{Vote, VoteAnswer};

// What every constructor answers.
pub fn print_made<S, F: Fn(S)>(made: Made<S>, print_state: F)
    requires { F.IsAlwaysCallable print_state }
{
    output::refusal(made.refusal);
    print_state(made.state);
}

// STATE of confirmation: n, N, previous input, previous output, count.
pub fn read_confirm() -> Confirm {
    let [n, need, input, output, count] = input::numbers::<5>();
    Confirm {
        n,
        need,
        input,
        output,
        count,
    }
}

pub fn print_confirm(s: Confirm) {
    output::numbers(&[s.n, s.need, s.input, s.output, s.count]);
}

// STATE of the vote of two words: n, N, last agreed word, count.
pub fn read_vote() -> Vote {
    let [n, need, word, count] = input::numbers::<4>();
    Vote {
        n,
        need,
        word,
        count,
    }
}

pub fn print_vote(s: Vote) {
    output::numbers(&[s.n, s.need, s.word, s.count]);
}

pub fn print_vote_answer(answer: VoteAnswer) {
    output::first(answer.number());
    output::next(answer.word());
    output::next(answer.mark());
}

// Which unit still shows the last agreed word.
pub fn print_which(answer: VoteAnswer) {
    output::next(answer.which());
}
