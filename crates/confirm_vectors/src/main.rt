// Makes the calls of standard input on the library. They and the answers that are expected come from second/.
#![tactic(auto)]

mod confirms;
mod sizings;
mod thresholds;

fn main() {
    lines::calls::answer_all(|name| {
        confirms::answer(name) || sizings::answer(name) || thresholds::answer(name)
    });
}
