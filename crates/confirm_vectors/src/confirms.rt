// The calls of confirmation.
use confirm::{Confirm, ConfirmAnswer};
use lines::place::PLACES;
use lines::{input, output, runs, states};

fn print_answer(answer: ConfirmAnswer) {
    output::first(answer.number());
    output::next(answer.word());
    output::next(answer.mark());
}

fn step() {
    let s = states::read_confirm();
    let taken = s.step(input::number());
    print_answer(taken.answer);
    states::print_confirm(taken.state);
}

fn new() {
    let [n, need] = input::numbers::<2>();
    states::print_made(Confirm::new(n, need), states::print_confirm);
}

fn from_word() {
    let [n, need, word] = input::numbers::<3>();
    let made = Confirm::from_word(n, need, word);
    states::print_made(made, states::print_confirm);
}

fn run() {
    let [n, need, word] = input::numbers::<3>();
    let mut samples = [0u32; PLACES];
    let mut words = [0u32; PLACES];
    let mut marks = [0u8; PLACES];
    let mut counts = [0u32; PLACES];
    let samples = input::list(&mut samples);
    let words = input::lent(&mut words);
    let marks = input::lent(&mut marks);
    let counts = input::lent(&mut counts);
    let answer = confirm::run(n, need, word, samples, words, marks, counts);
    runs::print_answer(answer);
    output::slice(words);
    output::slice(marks);
    output::slice(counts);
}

// Makes the call of this name; false if there is none.
pub fn answer(name: &[u8]) -> bool {
    match name {
        b"confirm.step" => step(),
        b"confirm.run" => run(),
        b"confirm.new" => new(),
        b"confirm.from_word" => from_word(),
        _ => return false,
    }
    true
}
