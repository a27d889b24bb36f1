// The calls of the tuple vote.
use lines::place::PLACES;
use lines::{input, output, runs, states};
use tuple::{Tuple, TupleAnswer};

// STATE: the voters' count, the confirmation's, the agreed signals as one word, 32 counts.
fn read_state() -> Tuple {
    Tuple {
        votes: input::number(),
        confirm: states::read_confirm(),
        agreed: input::number(),
        counts: input::numbers(),
    }
}

fn print_state(s: Tuple) {
    output::next(s.votes);
    states::print_confirm(s.confirm);
    output::next(s.agreed);
    output::numbers(&s.counts);
}

fn print_answer(answer: TupleAnswer) {
    output::first(answer.number());
    output::next(answer.word());
    output::next(answer.mask());
    output::next(answer.mark());
}

fn step() {
    let s = read_state();
    let [a, b] = input::numbers::<2>();
    let taken = s.step(a, b);
    print_answer(taken.answer);
    output::next(taken.second);
    print_state(taken.state);
}

fn new() {
    let [n, votes, need] = input::numbers::<3>();
    states::print_made(Tuple::new(n, votes, need), print_state);
}

fn from_word() {
    let [n, votes, need, word] = input::numbers::<4>();
    states::print_made(Tuple::from_word(n, votes, need, word), print_state);
}

fn run() {
    let [n, votes, need, word] = input::numbers::<4>();
    let mut a = [0u32; PLACES];
    let mut b = [0u32; PLACES];
    let mut words = [0u32; PLACES];
    let mut masks = [0u32; PLACES];
    let mut marks = [0u8; PLACES];
    let mut seconds = [0u32; PLACES];
    let a = input::list(&mut a);
    let b = input::list(&mut b);
    let words = input::lent(&mut words);
    let masks = input::lent(&mut masks);
    let marks = input::lent(&mut marks);
    let seconds = input::lent(&mut seconds);
    let answer = tuple::run(n, votes, need, word, a, b, words, masks, marks, seconds);
    runs::print_answer(answer);
    output::slice(words);
    output::slice(masks);
    output::slice(marks);
    output::slice(seconds);
}

// Makes the call of this name; false if there is none.
pub fn answer(name: &[u8]) -> bool {
    match name {
        b"tuple.step" => step(),
        b"tuple.run" => run(),
        b"tuple.new" => new(),
        b"tuple.from_word" => from_word(),
        _ => return false,
    }
    true
}
