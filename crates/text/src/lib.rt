// Text in a lent buffer: a byte, a text, a number in decimal or in hexadecimal digits, put at a place. Each call answers with
// the place after what it wrote, or, where there is no room, with the place itself.
#![tactic(auto)]

ghost use Rattle.std.specs.Prelude.{◌≡◌, [], ◌∷◌, ◌+◌, ◌≤◌, ◌<◌, leb, nat_lt, length, position};
ghost use Rattle.text.specs.Text.{glyph, digits, places, decimal, hex8, line};
ghost use Rattle.text.specs.Put.{Placed};

// From the place on there are k places more. No sum that could wrap is made.
fn has_room(len: usize, at: usize, k: usize) -> bool
    ensures { result ≡ leb (at + k) len }
{
    at <= len && k <= len - at
}

// One byte.
pub fn put_byte(out: &mut [u8], at: usize, b: u8) -> usize
    ensures { Placed out.old at (b ∷ []) result out.new }
{
    put_text(out, at, &[b])
}

// A text, all of it or nothing.
pub fn put_text(out: &mut [u8], at: usize, text: &[u8]) -> usize
    ensures { Placed out.old at text.now result out.new }
{
    if !has_room(out.len(), at, text.len()) {
        return at;
    }
    out[at..at + text.len()].copy_from_slice(text);
    at + text.len()
}

// A digit's code; one that may be a letter is looked up: nothing foresees a test of each digit.
fn glyph<const BASE: u32>(d: u32) -> u8
    requires digit { d < BASE }
    requires known { BASE ≤ 16 }
    ensures { result ≡ glyph d }
{
    if BASE <= 10 {
        return b'0' + d as u8;
    }
    let glyphs = *b"0123456789abcdef";
    glyphs[d as usize]
}

// The last digits of n, one for each place, from the last to the first.
fn lay_digits<const BASE: u32>(place: &mut [u8], n: u32)
    requires positive { 0 < BASE }
    requires known { BASE ≤ 16 }
    ensures { place.new ≡ digits BASE (length place.old) n }
{
    let mut rest = n;
    for i in (0..place.len()).rev() {
        place[i] = glyph::<BASE>(rest % BASE);
        rest /= BASE;
    }
}

// The digits of a number; a line's has four most often, and a loop of a known length needs no counter.
fn lay_decimal(place: &mut [u8], n: u32)
    ensures { place.new ≡ digits 10 (length place.old) n }
{
    if place.len() == 4 {
        lay_digits::<10>(&mut place[..4], n);
    } else {
        lay_digits::<10>(place, n);
    }
}

// The smallest numbers of two digits, of three, and so on to ten.
const POWERS: [u32; 9] = [
    10, 100, 1000, 10000, 100000, 1000000, 10000000, 100000000, 1000000000,
];

// Which of them is the first above n.
fn above(n: u32) -> Option<usize>
    ensures { result ≡ position (λ power. nat_lt n power) POWERS }
{
    POWERS.iter().position(|power| n < *power)
}

// How many decimal digits n has.
fn places(n: u32) -> usize
    ensures { result ≡ places n }
{
    match above(n) {
        Some(k) => k + 1,
        None => 10,
    }
}

// A number in decimal, no zero in front.
pub fn put_decimal(out: &mut [u8], at: usize, n: u32) -> usize
    ensures { Placed out.old at (decimal n) result out.new }
{
    let k = places(n);
    if !has_room(out.len(), at, k) {
        return at;
    }
    lay_decimal(&mut out[at..at + k], n);
    at + k
}

// A word's eight digits. The zeros in front of a small one, as counts and most words are, are laid at once.
fn lay_hex(place: &mut [u8], w: u32)
    requires { length place.old ≡ 8 }
    ensures { place.new ≡ hex8 w }
{
    if w < 16 {
        place[..7].fill(b'0');
        lay_digits::<16>(&mut place[7..8], w);
    } else if w < 65536 {
        place[..4].fill(b'0');
        lay_digits::<16>(&mut place[4..8], w);
    } else {
        lay_digits::<16>(&mut place[..8], w);
    }
}

// A word in 8 hexadecimal digits, in lower case.
pub fn put_hex(out: &mut [u8], at: usize, w: u32) -> usize
    ensures { Placed out.old at (hex8 w) result out.new }
{
    if !has_room(out.len(), at, 8) {
        return at;
    }
    lay_hex(&mut out[at..at + 8], w);
    at + 8
}

// The fields of a line, one after the other: 21 bytes after the number's digits.
fn lay_line(place: &mut [u8], number: u32, word: u32, letter: u8, last: u32)
    requires { length place.old ≡ places number + 21 }
    ensures { place.new ≡ line number word letter last }
{
    let (digits, rest) = place.split_at_mut(place.len() - 21);
    lay_decimal(digits, number);
    rest[0] = b' ';
    lay_hex(&mut rest[1..9], word);
    rest[9] = b' ';
    rest[10] = letter;
    rest[11] = b' ';
    lay_hex(&mut rest[12..20], last);
    rest[20] = b'\n';
}

// A line of four fields, all of it or nothing: its room is tested once.
pub fn put_line(out: &mut [u8], at: usize, number: u32, word: u32, letter: u8, last: u32) -> usize
    ensures { Placed out.old at (line number word letter last) result out.new }
{
    let len = places(number) + 21;
    if !has_room(out.len(), at, len) {
        return at;
    }
    lay_line(&mut out[at..at + len], number, word, letter, last);
    at + len
}
