// Sizing, the threshold vote, the reader and the listing, for C.
ghost use Rattle.std.specs.Prelude.{◌≡◌};
ghost use Rattle.sizing.specs.Sizing.{sizing_of};
ghost use Rattle.threshold.specs.Threshold.{threshold_of};
ghost use Rattle.scorvemaglio.specs.Lent.{Tells};
ghost use Rattle.scorvemaglio.specs.Others.{MakesSizing, readings_of, Votes, header_after, ReadsRecording, TellsListing, ListsRecording};

use listing::ListAnswer;
use recording::RecordingRead;
use sizing::Sizing;
use threshold::{Readings, Threshold};

#[unsafe(no_mangle)]
pub extern "C" fn scorve_sizing_of(
    n: u32,
    least_gap: u32,
    greatest_gap: u32,
    delay: u32,
    sizing: &mut [u64; 4],
) -> u32
    ensures { MakesSizing (sizing_of n least_gap greatest_gap delay) sizing.old result sizing.new }
{
    let sized = Sizing::of(n, least_gap, greatest_gap, delay);
    if let Some(refusal) = sized.refusal {
        return refusal.into();
    }
    *sizing = [
        u64::from(sized.need),
        u64::from(sized.votes),
        sized.age,
        sized.quiet,
    ];
    0
}

// A mark, and the reading that was agreed on.
fn put_vote(agreed: &mut f64, mark: &mut u32, answer: Threshold) -> u32
    ensures { Votes answer agreed.old mark.old result agreed.new mark.new }
{
    match answer {
        Threshold::Agreed(m) => {
            *agreed = m;
            *mark = 0;
            0
        }
        Threshold::Alarm => {
            *mark = 2;
            0
        }
        Threshold::Refused(refusal) => refusal.into(),
    }
}

#[unsafe(no_mangle)]
pub extern "C" fn scorve_threshold_vote(
    readings: &[f64; 4],
    agreed: &mut f64,
    mark: &mut u32,
) -> u32
    ensures { Votes (threshold_of (readings_of readings.now)) agreed.old mark.old
        result agreed.new mark.new }
{
    let [x1, x2, x3, tolerance] = *readings;
    let r = Readings {
        x1,
        x2,
        x3,
        tolerance,
    };
    put_vote(agreed, mark, r.vote())
}

// The header's values, unless refused; the sample's number in any case.
fn put_read(header: &mut [u32; 5], sample: &mut u32, read: RecordingRead) -> u32
    ensures tells { Tells read.answer result sample.new }
    ensures header_after { header.new ≡ header_after read header.old }
{
    let answer = read.answer;
    let h = read.header;
    let number = crate::tell(sample, answer);
    if number != 0 {
        return number;
    }
    *header = [h.units, h.samples, h.n, h.need, h.word];
    0
}

#[unsafe(no_mangle)]
pub extern "C" fn scorve_recording_read(
    bytes: &[u8],
    times: &mut [u32],
    one: &mut [u32],
    two: &mut [u32],
    three: &mut [u32],
    four: &mut [u32],
    header: &mut [u32; 5],
    sample: &mut u32,
) -> u32
    ensures { ReadsRecording bytes.now times.old one.old two.old three.old four.old header.old
        result sample.new times.new one.new two.new three.new four.new header.new }
{
    put_read(
        header,
        sample,
        recording::read(bytes, times, one, two, three, four),
    )
}

// How long the text is, and whether it is a refused recording's line.
fn put_listed(written: &mut usize, refused: &mut u32, answer: ListAnswer) -> u32
    ensures { TellsListing answer written.old refused.old result written.new refused.new }
{
    match answer {
        ListAnswer::Listed(k) => {
            *written = k;
            *refused = 0;
            0
        }
        ListAnswer::Refused(k) => {
            *written = k;
            *refused = 1;
            0
        }
        ListAnswer::TooShort => 100,
    }
}

#[unsafe(no_mangle)]
pub extern "C" fn scorve_listing_list(
    bytes: &[u8],
    out: &mut [u8],
    written: &mut usize,
    refused: &mut u32,
) -> u32
    ensures { ListsRecording bytes.now out.old written.old refused.old
        result out.new written.new refused.new }
{
    put_listed(written, refused, listing::list(bytes, out))
}
