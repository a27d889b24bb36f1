// The places of a lent slice: words or bytes.
ghost use Rattle.std.specs.Prelude.{◌≡◌, ◌%◌, ◌^◌};

// More places than the longest trace of any call has.
pub const PLACES: usize = 2304;

// What a place holds; a number that is too great for it is cut.
pub trait Place: Copy + PartialEq + Into<u64> {
    fn cut(n: u64) -> Self;
}

impl Place for u32 {
    fn cut(n: u64) -> u32
        ensures { result ≡ n % 2 ^ 32 }
    {
        (n % (1 << 32)) as u32
    }
}

impl Place for u8 {
    fn cut(n: u64) -> u8
        ensures { result ≡ n % 2 ^ 8 }
    {
        (n % (1 << 8)) as u8
    }
}
