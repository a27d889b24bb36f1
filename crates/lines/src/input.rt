// The tokens of a call: its name, numbers, and lists. Each reader takes its token and the one byte after it.
ghost use Rattle.std.specs.Prelude.{◌≤◌, length};

use crate::place::Place;

const IN: i32 = 0;

// The least number that has no tenfold in a u64.
const TENTH: u64 = u64::MAX / 10 + 1;

// A number, and the byte that ended it, if the input did not.
#[derive(Drop)]
struct Token {
    value: u64,
    after: Option<u8>,
}

fn byte() -> Option<u8> {
    let mut one = [0];
    if io::read_full(IN, &mut one) == 0 {
        return None;
    }
    Some(one[0])
}

// The bytes up to the next space or line end, as far as there is room.
pub fn name(into: &mut [u8]) -> &[u8]
    ensures { length result.now ≤ length into.old }
{
    for (i, place) in into.iter_mut().enumerate() {
        match byte() {
            Some(b) if b > b' ' => *place = b,
            _ => return &into[..i],
        }
    }
    into
}

// Decimal digits, at most 20: a u64 has no more.
fn read_token() -> Token {
    let mut value: u64 = 0;
    for _ in 0..20 {
        match byte() {
            Some(b) if b.is_ascii_digit() => {
                value = (value % TENTH * 10).wrapping_add(u64::from(b - b'0'));
            }
            after => return Token { value, after },
        }
    }
    Token {
        value,
        after: byte(),
    }
}

pub fn wide_number() -> u64 {
    read_token().value
}

pub fn number() -> u32 {
    u32::cut(wide_number())
}

// The numbers that a call takes next.
pub fn numbers<const N: usize>() -> [u32; N] {
    std::array::from_fn(|_| number())
}

// Fills the first places, as many as are wanted and there are: how many.
fn put_run<T: Place>(into: &mut [T], value: T, times: u32) -> usize
    ensures { result ≤ length into.old }
{
    let end = into.len().min(times as usize);
    for place in &mut into[..end] {
        *place = value;
    }
    end
}

// LIST: how many there are, then each as `v` or `v*t`. The places filled.
pub fn list<T: Place>(into: &mut [T]) -> &mut [T]
    ensures { length result.now ≤ length into.old }
{
    let count = number();
    let mut at = 0;
    for _ in 0..count {
        if at >= count as usize {
            break;
        }
        let Token { value, after } = read_token();
        let times = if after == Some(b'*') { number() } else { 1 };
        at += put_run(&mut into[at..], T::cut(value), times);
    }
    &mut into[..at]
}

// LENT: the length of a slice and what each place holds.
pub fn lent<T: Place>(into: &mut [T]) -> &mut [T]
    ensures { length result.now ≤ length into.old }
{
    let len = number();
    let value = T::cut(wide_number());
    let end = put_run(into, value, len);
    &mut into[..end]
}
