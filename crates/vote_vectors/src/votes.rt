// The calls of the vote of two words.
use lines::place::PLACES;
use lines::{input, output, runs, states};
use vote::Vote;

fn step() {
    let s = states::read_vote();
    let [a, b, reset] = input::numbers::<3>();
    let taken = s.step(a, b, reset != 0);
    states::print_vote_answer(taken.answer);
    states::print_which(taken.answer);
    states::print_vote(taken.state);
}

fn new() {
    let [n, need] = input::numbers::<2>();
    states::print_made(Vote::new(n, need), states::print_vote);
}

fn from_word() {
    let [n, need, word] = input::numbers::<3>();
    states::print_made(Vote::from_word(n, need, word), states::print_vote);
}

fn run() {
    let [n, need, word] = input::numbers::<3>();
    let mut a = [0u32; PLACES];
    let mut b = [0u32; PLACES];
    let mut words = [0u32; PLACES];
    let mut marks = [0u8; PLACES];
    let mut which = [0u8; PLACES];
    let a = input::list(&mut a);
    let b = input::list(&mut b);
    let words = input::lent(&mut words);
    let marks = input::lent(&mut marks);
    let which = input::lent(&mut which);
    let answer = vote::run(n, need, word, a, b, words, marks, which);
    runs::print_voted(answer, words, marks, which);
}

// Makes the call of this name; false if there is none.
pub fn answer(name: &[u8]) -> bool {
    match name {
        b"vote.step" => step(),
        b"vote.run" => run(),
        b"vote.new" => new(),
        b"vote.from_word" => from_word(),
        _ => return false,
    }
    true
}
