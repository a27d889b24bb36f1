// Makes the calls of standard input on the library. They and the answers that are expected come from second/.
#![tactic(auto)]

mod votes;

fn main() {
    lines::calls::answer_all(votes::answer);
}
