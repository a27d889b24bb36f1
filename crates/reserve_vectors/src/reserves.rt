// The calls of the reserve vote.
use lines::place::PLACES;
use lines::{input, output, runs, states};
use reserve::{Phase, Reserve};

// A number that is no phase's is the last one's.
fn phase(number: u32) -> Phase {
    match number {
        0 => Phase::Primary,
        1 => Phase::TakingOver,
        _ => Phase::Reserve,
    }
}

// STATE: the phase, and the state of the vote.
fn read_state() -> Reserve {
    Reserve {
        phase: phase(input::number()),
        vote: states::read_vote(),
    }
}

fn print_state(s: Reserve) {
    output::next(s.phase as u32);
    states::print_vote(s.vote);
}

fn step() {
    let s = read_state();
    let [a, b, c, d] = input::numbers::<4>();
    let taken = s.step(a, b, c, d);
    states::print_vote_answer(taken.answer);
    output::next(taken.pair);
    states::print_which(taken.answer);
    print_state(taken.state);
}

fn new() {
    let [n, need] = input::numbers::<2>();
    states::print_made(Reserve::new(n, need), print_state);
}

fn from_word() {
    let [n, need, word] = input::numbers::<3>();
    states::print_made(Reserve::from_word(n, need, word), print_state);
}

fn run() {
    let [n, need, word] = input::numbers::<3>();
    let mut a = [0u32; PLACES];
    let mut b = [0u32; PLACES];
    let mut c = [0u32; PLACES];
    let mut d = [0u32; PLACES];
    let mut words = [0u32; PLACES];
    let mut marks = [0u8; PLACES];
    let mut which = [0u8; PLACES];
    let a = input::list(&mut a);
    let b = input::list(&mut b);
    let c = input::list(&mut c);
    let d = input::list(&mut d);
    let words = input::lent(&mut words);
    let marks = input::lent(&mut marks);
    let which = input::lent(&mut which);
    let answer = reserve::run(n, need, word, a, b, c, d, words, marks, which);
    runs::print_voted(answer, words, marks, which);
}

// Makes the call of this name; false if there is none.
pub fn answer(name: &[u8]) -> bool {
    match name {
        b"reserve.step" => step(),
        b"reserve.run" => run(),
        b"reserve.new" => new(),
        b"reserve.from_word" => from_word(),
        _ => return false,
    }
    true
}
