// The calls of a program, each a line, and its answer another, with every state and lent slice: second/ says how.
use crate::{input, output};

// More lines than any input has, so that the program ends.
const MOST_CALLS: u32 = 1000000;

// Each call is made by `answer`, given its name; a name that it does not know, as at the end of the input, ends them.
pub fn answer_all<F: Fn(&[u8]) -> bool>(answer: F)
    requires { F.IsAlwaysCallable answer }
{
    let mut name = [0; 32];
    for _ in 0..MOST_CALLS {
        if !answer(input::name(&mut name)) {
            return;
        }
        output::end_line();
    }
}
