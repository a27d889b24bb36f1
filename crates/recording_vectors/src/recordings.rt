// The call of the reader of recordings.
use lines::place::PLACES;
use lines::{input, output, runs};
use recording::Header;

fn print_header(h: Header) {
    output::numbers(&[h.units, h.samples, h.n, h.need, h.word]);
}

fn read() {
    let mut bytes = io::large_buffer();
    let mut times = [0u32; PLACES];
    let mut one = [0u32; PLACES];
    let mut two = [0u32; PLACES];
    let mut three = [0u32; PLACES];
    let mut four = [0u32; PLACES];
    let bytes = input::list(&mut bytes);
    let times = input::lent(&mut times);
    let one = input::lent(&mut one);
    let two = input::lent(&mut two);
    let three = input::lent(&mut three);
    let four = input::lent(&mut four);
    let read = recording::read(bytes, times, one, two, three, four);
    runs::print_answer(read.answer);
    print_header(read.header);
    let columns: [&[u32]; 5] = [times, one, two, three, four];
    for column in columns {
        output::slice(column);
    }
}

// Makes the call of this name; false if there is none.
pub fn answer(name: &[u8]) -> bool {
    match name {
        b"recording.read" => read(),
        _ => return false,
    }
    true
}
