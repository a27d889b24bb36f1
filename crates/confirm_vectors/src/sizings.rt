// The call of sizing.
use lines::{input, output};
use sizing::Sizing;

fn size() {
    let [n, least, greatest, delay] = input::numbers::<4>();
    let sized = Sizing::of(n, least, greatest, delay);
    output::refusal(sized.refusal);
    output::next(sized.need);
    output::next(sized.votes);
    output::next(sized.age);
    output::next(sized.quiet);
}

// Makes the call of this name; false if there is none.
pub fn answer(name: &[u8]) -> bool {
    match name {
        b"sizing" => size(),
        _ => return false,
    }
    true
}
