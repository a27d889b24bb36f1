// The listing of a recording (document 01, "The recording"): bytes in, text into a lent buffer.
#![tactic(auto)]

mod runs;
mod sheet;

ghost use Rattle.std.specs.Prelude.{◌≡◌, ◌≤◌, length, take};
ghost use Rattle.text.specs.Put.{Writes};
ghost use Rattle.listing.specs.Listing.{units_text, longest, written_of, Lists};
ghost use Rattle.listing.specs.Runnable.{Runnable, Units};

use recording::Header;
use rules::Limits;
use runs::Run;

// What a recording's units take.
#[derive(Clone, Copy)]
enum Kind {
    Confirm,
    Pair,
    Reserve,
}

// How long the text is that was written: a listing, or a refused recording's line. Nothing is written into a buffer that could not
// take the longest text.
#[derive(Clone, Copy, Debug, PartialEq, Eq)]
pub enum ListAnswer {
    Listed(usize),
    Refused(usize),
    TooShort,
}

impl ListAnswer {
    // How many bytes of the buffer were written.
    pub fn written(self) -> usize
        ensures { result ≡ written_of self }
    {
        match self {
            ListAnswer::Listed(k) | ListAnswer::Refused(k) => k,
            ListAnswer::TooShort => 0,
        }
    }
}

// The bytes of the longest text: a buffer has to have as many.
#[derive(Clone, Copy)]
pub struct Listing {}

impl Listing {
    pub const LONGEST: usize = 50111;
}

// By the number of units. A run over an accepted recording is never refused, so what it answers is not asked.
fn list_units(run: Run, out: &mut [u8]) -> usize
    ensures { Writes out.old 0 (units_text run.entry.h
        run.entry.one.now run.entry.two.now run.entry.three.now run.entry.four.now) result out.new }
{
    let Run {
        h,
        one,
        two,
        three,
        four,
        words,
        marks,
        lasts,
        spare,
        which,
    } = run;
    match h.units {
        // Confirmed: the last field is the count after the step.
        1 => {
            let _ = confirm::run(h.n, h.need, h.word, one, words, marks, lasts);
            sheet::put_listing(out, Kind::Confirm, h.n, h.need, words, marks, lasts)
        }
        // The tuple vote, with N for both counts: the last field is the alarm mask. What T-09 tells is not listed.
        2 => {
            let votes = h.need;
            let _ = tuple::run(
                h.n, votes, h.need, h.word, one, two, words, lasts, marks, spare,
            );
            sheet::put_listing(out, Kind::Pair, h.n, h.need, words, marks, lasts)
        }
        // The reserve vote: the last field is the pair that was voted on. What T-09 tells is not listed.
        _ => {
            let _ = reserve::run(
                h.n, h.need, h.word, one, two, three, four, words, marks, which,
            );
            reserve::pairs::tell_pairs(marks, lasts);
            sheet::put_listing(out, Kind::Reserve, h.n, h.need, words, marks, lasts)
        }
    }
}

// The same over the reader's arrays. The times are not listed, so their places are free for what a run tells besides.
fn list_slices(
    h: Header,
    times: &mut [u32; Limits::SAMPLES],
    one: &[u32; Limits::SAMPLES],
    two: &[u32; Limits::SAMPLES],
    three: &[u32; Limits::SAMPLES],
    four: &[u32; Limits::SAMPLES],
    out: &mut [u8],
) -> usize
    requires runnable { Runnable h }
    requires units { Units h (take h.samples one.now) (take h.samples two.now) (take h.samples three.now) (take h.samples four.now) }
    ensures { Writes out.old 0 (units_text h (take h.samples one.now) (take h.samples two.now)
        (take h.samples three.now) (take h.samples four.now)) result out.new }
{
    let mut words = [0; Limits::SAMPLES];
    let mut marks = [0; Limits::SAMPLES];
    let mut lasts = [0; Limits::SAMPLES];
    let mut which = [0; Limits::SAMPLES];
    let k = h.samples as usize;
    let run = Run {
        h,
        one: &one[..k],
        two: &two[..k],
        three: &three[..k],
        four: &four[..k],
        words: &mut words[..k],
        marks: &mut marks[..k],
        lasts: &mut lasts[..k],
        spare: &mut times[..k],
        which: &mut which[..k],
    };
    list_units(run, out)
}

// The text of a recording that has room.
fn list_read(bytes: &[u8], out: &mut [u8]) -> ListAnswer
    requires longest_in_bounds { longest ≤ length out.old }
    ensures { Lists bytes.now out.old result out.new }
{
    let mut times = [0; Limits::SAMPLES];
    let mut one = [0; Limits::SAMPLES];
    let mut two = [0; Limits::SAMPLES];
    let mut three = [0; Limits::SAMPLES];
    let mut four = [0; Limits::SAMPLES];
    let read = recording::read(bytes, &mut times, &mut one, &mut two, &mut three, &mut four);
    match read.answer {
        Ok(()) => ListAnswer::Listed(list_slices(
            read.header,
            &mut times,
            &one,
            &two,
            &three,
            &four,
            out,
        )),
        Err(refused) => ListAnswer::Refused(sheet::put_refused(
            out,
            refused.refusal.into(),
            refused.sample,
        )),
    }
}

// Lists a recording's bytes at the start of a lent buffer.
pub fn list(bytes: &[u8], out: &mut [u8]) -> ListAnswer
    ensures { Lists bytes.now out.old result out.new }
{
    if out.len() < Listing::LONGEST {
        return ListAnswer::TooShort;
    }
    list_read(bytes, out)
}
