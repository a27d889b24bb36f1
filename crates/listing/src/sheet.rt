// The lines of a listing, put into a buffer one after the other. That there is room is known from the start, so a piece
// that had none would be no part of any promise.
ghost use Rattle.std.specs.Prelude.{◌≡◌, ◌≤◌, [], ◌∷◌, length};
ghost use Rattle.text.specs.Text.{bytes, decimal, line};
ghost use Rattle.text.specs.Put.{Writes};
ghost use Rattle.listing.specs.Listing.{name, heading, passed, letter, joined, line_at, listing_of, refused_text};
ghost use Rattle.listing.specs.Runnable.{Adds};

use crate::Kind;

// A buffer, and the place up to which it is written.
#[derive(Drop)]
struct Page<'a> {
    out: &'a mut [u8],
    at: usize,
}

impl<'a> Page<'a> {
    fn byte(&mut self, b: u8)
        ensures { Adds self.old self.new (b ∷ []) }
    {
        self.at = text::put_byte(self.out, self.at, b);
    }

    fn text(&mut self, text: &[u8])
        ensures { Adds self.old self.new text.now }
    {
        self.at = text::put_text(self.out, self.at, text);
    }

    fn decimal(&mut self, n: u32)
        ensures { Adds self.old self.new (decimal n) }
    {
        self.at = text::put_decimal(self.out, self.at, n);
    }

    fn line(&mut self, number: u32, word: u32, letter: u8, last: u32)
        ensures { Adds self.old self.new (line number word letter last) }
    {
        self.at = text::put_line(self.out, self.at, number, word, letter, last);
    }
}

fn put_name(page: &mut Page, kind: Kind)
    ensures { Adds page.old page.new (bytes (name kind)) }
{
    match kind {
        Kind::Confirm => page.text(b"confirm"),
        Kind::Pair => page.text(b"pair"),
        Kind::Reserve => page.text(b"reserve"),
    }
}

// The first line.
fn put_heading(page: &mut Page, kind: Kind, samples: u32, n: u32, need: u32)
    ensures { Adds page.old page.new (heading kind samples n need) }
{
    put_name(page, kind);
    page.byte(b' ');
    page.decimal(samples);
    page.byte(b' ');
    page.decimal(n);
    page.byte(b' ');
    page.decimal(need);
    page.byte(b'\n');
}

// The letter of a sample that was taken.
fn passed(kind: Kind) -> u8
    ensures { result ≡ passed kind }
{
    match kind {
        Kind::Confirm | Kind::Pair => b'C',
        Kind::Reserve => b'A',
    }
}

// The letter of a mark byte; all three stand ready, since nothing foresees the mark.
fn letter(kind: Kind, mark: u8) -> u8
    ensures { result ≡ letter kind mark }
{
    let taken = passed(kind);
    let other = if mark == 1 { b'H' } else { b'!' };
    if mark == 0 { taken } else { other }
}

// A line for each sample.
fn put_lines(page: &mut Page, kind: Kind, words: &[u32], marks: &[u8], lasts: &[u32])
    requires words_len_bound { length words.now ≤ 2048 }
    requires words_len { length words.now ≡ length marks.now }
    requires words_len_2 { length words.now ≡ length lasts.now }
    ensures { Adds page.old page.new (joined (length words.now)
        (line_at kind words.now marks.now lasts.now)) }
{
    for (i, word) in words.iter().enumerate() {
        page.line(i as u32, *word, letter(kind, marks[i]), lasts[i]);
    }
}

// A whole listing at the start of the buffer.
pub(crate) fn put_listing(
    out: &mut [u8],
    kind: Kind,
    n: u32,
    need: u32,
    words: &[u32],
    marks: &[u8],
    lasts: &[u32],
) -> usize
    requires words_len_bound { length words.now ≤ 2048 }
    requires words_len { length words.now ≡ length marks.now }
    requires words_len_2 { length words.now ≡ length lasts.now }
    ensures { Writes out.old 0 (listing_of kind n need words.now marks.now lasts.now)
        result out.new }
{
    let mut page = Page { out, at: 0 };
    put_heading(&mut page, kind, words.len() as u32, n, need);
    put_lines(&mut page, kind, words, marks, lasts);
    page.at
}

// The one line of a refused recording.
pub(crate) fn put_refused(out: &mut [u8], number: u32, sample: u32) -> usize
    ensures { Writes out.old 0 (refused_text number sample) result out.new }
{
    let mut page = Page { out, at: 0 };
    page.text(b"refused ");
    page.decimal(number);
    page.text(b" at ");
    page.decimal(sample);
    page.byte(b'\n');
    page.at
}
