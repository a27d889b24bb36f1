// Reads one recording on standard input and writes its listing. The buffer is longer than any recording, so input
// beyond it gets the answer that the whole input would get (`text_cut` of listing).
#![tactic(auto)]

const IN: i32 = 0;

const OUT: i32 = 1;

fn main() {
    let mut input = io::large_buffer();
    let len = io::read_full(IN, &mut input);
    let mut out = io::large_buffer();
    let answer = listing::list(&input[..len], &mut out);
    io::write_all(OUT, &out[..answer.written()]);
}
