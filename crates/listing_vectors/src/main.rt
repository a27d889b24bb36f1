// Makes the calls of standard input on the library. They and the answers that are expected come from second/.
#![tactic(auto)]

mod listings;

fn main() {
    lines::calls::answer_all(listings::answer);
}
