// The lines of calls and answers: tokens read from standard input, numbers and slices printed to standard output. No
// contract can say what is read or written, so these functions are proved safe and ending, and tested by what the
// programs over them print.
#![tactic(auto)]

pub mod calls;
pub mod input;
pub mod output;
pub mod place;
pub mod runs;
pub mod states;
