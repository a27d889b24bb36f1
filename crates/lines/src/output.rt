// What an answer prints: numbers, one after the other on a line, and slices in runs of equal places.
use crate::place::Place;
use rules::Refusal;

const OUT: i32 = 1;

pub fn first(n: impl Into<u64>) {
    io::print_decimal(OUT, n.into());
}

pub fn next(n: impl Into<u64>) {
    io::write_all(OUT, b" ");
    first(n);
}

// The refusal's number, 0 for none.
pub fn refusal(refusal: Option<Refusal>) {
    first(refusal.map_or(0, u32::from));
}

pub fn numbers(all: &[u32]) {
    for n in all {
        next(*n);
    }
}

pub fn end_line() {
    io::write_all(OUT, b"\n");
}

// A text after a space, with a bar for each newline, so that it stays on its line.
pub fn text(s: &[u8]) {
    io::write_all(OUT, b" ");
    for b in s {
        let shown = if *b == b'\n' { b'|' } else { *b };
        io::write_all(OUT, &[shown]);
    }
}

// SLICE: the number of places, then each run as `v` or `v*t`.
pub fn slice<T: Place>(s: &[T]) {
    next(s.len() as u64);
    for run in s.chunk_by(|a, b| a == b) {
        next(run[0]);
        if run.len() > 1 {
            io::write_all(OUT, b"*");
            first(run.len() as u64);
        }
    }
}
