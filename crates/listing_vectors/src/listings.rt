// The call of the listing: the length of the text, and the text, in which a bar stands for each newline.
use lines::{input, output};

fn list() {
    let mut bytes = io::large_buffer();
    let mut out = io::large_buffer();
    let bytes = input::list(&mut bytes);
    let answer = listing::list(bytes, &mut out);
    let text = &out[..answer.written()];
    output::first(text.len() as u64);
    output::text(text);
}

// Makes the call of this name; false if there is none.
pub fn answer(name: &[u8]) -> bool {
    match name {
        b"listing" => list(),
        _ => return false,
    }
    true
}
