// What every run answers, and what the runs of the votes leave.
use crate::output;
use trace::RunAnswer;

pub fn print_answer(answer: RunAnswer) {
    output::first(trace::number(answer));
    output::next(trace::sample(answer));
}

pub fn print_voted(answer: RunAnswer, words: &[u32], marks: &[u8], which: &[u8]) {
    print_answer(answer);
    output::slice(words);
    output::slice(marks);
    output::slice(which);
}
