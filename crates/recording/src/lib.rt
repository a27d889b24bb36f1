// The reader of recordings (document 01, "The recording"): bytes in, the header's values out, and each column into a lent slice.
#![tactic(auto)]

mod samples;

ghost use Rattle.std.specs.Prelude.{◌≡◌, ◌+◌, ◌≤◌, ◌<◌, length};
ghost use Rattle.rules.specs.Refusal.{told};
ghost use Rattle.rules.specs.Table.{first};
ghost use Rattle.rules.specs.Signals.{some_below};
ghost use Rattle.recording.specs.Recording.{field, header_of, column_at, offset_of, bad_tag, bad_units, bad_offset, head_rows, layout_rows, shape_rows, header_or, read_as, read_of, Read};

use rules::{Limits, Refusal};
use samples::Recording;
use trace::{Refused, RunAnswer};

// What a recording's header says.
#[derive(Clone, Copy, Debug, Default, PartialEq, Eq)]
pub struct Header {
    pub units: u32,
    pub samples: u32,
    pub n: u32,
    pub need: u32,
    pub word: u32,
}

// The reader's answer, beside the header's values, which are zeros if it is refused.
#[derive(Clone, Copy, Debug, PartialEq, Eq)]
pub struct RecordingRead {
    pub header: Header,
    pub answer: RunAnswer,
}

// The little-endian number at an offset.
fn field(bytes: &[u8], at: usize) -> u32
    requires { at + 4 ≤ length bytes.now }
    ensures { result ≡ field bytes.now at }
{
    u32::from_le_bytes([bytes[at], bytes[at + 1], bytes[at + 2], bytes[at + 3]])
}

fn read_header(bytes: &[u8]) -> Header
    requires { 44 ≤ length bytes.now }
    ensures { result ≡ header_of bytes.now }
{
    Header {
        units: field(bytes, 4),
        samples: field(bytes, 8),
        n: field(bytes, 12),
        need: field(bytes, 16),
        word: field(bytes, 20),
    }
}

// 12: the tag.
fn bad_tag(bytes: &[u8]) -> bool
    ensures { result ≡ bad_tag bytes.now }
{
    !bytes.starts_with(b"QSR1")
}

// 12: one unit, two, or four.
fn bad_units(units: u32) -> bool
    ensures { result ≡ bad_units units }
{
    !matches!(units, 1 | 2 | 4)
}

// The header, or 4, 12 or 3: what is known before an offset is looked at.
#[tactic(auto, unfolding(rules::specs::Table::first, rules::specs::Refusal::refusal_of))]
fn head(bytes: &[u8], mislent: bool) -> Result<Header, Refusal>
    ensures { result ≡ header_or (first (head_rows mislent bytes.now)) bytes.now }
{
    Refusal::Lengths.when(mislent)?;
    Refusal::NotRecording.when(bytes.len() < 44)?;
    let header = read_header(bytes);
    Refusal::NotRecording.when(bad_tag(bytes) | bad_units(header.units))?;
    Refusal::TooLong.when(header.samples > Limits::SAMPLES as u32)?;
    Ok(header)
}

// Where column k begins: the times are column 0, and unit k is column k.
fn column_at(samples: u32, k: u32) -> usize
    requires { (samples ≤ 2048) × (k ≤ 5) }
    ensures { result ≡ column_at samples k }
{
    44 + 4 * (samples as usize * k as usize)
}

// The offset that the header has to have for column k; absent units have 0.
fn offset_of(units: u32, samples: u32, k: u32) -> usize
    requires { (samples ≤ 2048) × (k ≤ 5) }
    ensures { result ≡ offset_of units samples k }
{
    if k <= units { column_at(samples, k) } else { 0 }
}

fn bad_offset(bytes: &[u8], h: Header, k: u32) -> bool
    requires { (44 ≤ length bytes.now) × (h.samples ≤ 2048) × (k < 5) }
    ensures { result ≡ bad_offset bytes.now h k }
{
    let at = 24 + 4 * k as usize;
    let offset = field(bytes, at) as usize;
    offset != offset_of(h.units, h.samples, k)
}

fn bad_offsets(bytes: &[u8], h: Header) -> bool
    requires { (44 ≤ length bytes.now) × (h.samples ≤ 2048) }
    ensures { result ≡ some_below 5 (bad_offset bytes.now h) }
{
    (0..5).any(|k| bad_offset(bytes, h, k))
}

// 12, 1, 2 or 5: what is known before a sample is looked at.
#[tactic(auto, unfolding(rules::specs::Table::first, rules::specs::Refusal::refusal_of, rules::specs::Refusal::told))]
fn layout_refusal(bytes: &[u8], h: Header) -> Result<(), Refusal>
    requires { (44 ≤ length bytes.now) × (h.samples ≤ 2048) × (h.units ≤ 4) }
    ensures { result ≡ told (first (layout_rows bytes.now h)) }
{
    let ended = bytes.len() != column_at(h.samples, h.units + 1);
    let mislaid = bad_offsets(bytes, h) | ended;
    Refusal::NotRecording.when(mislaid)?;
    Refusal::Count.when(rules::bad_count(h.need))?;
    Refusal::Width.when(rules::bad_width(h.n))?;
    Refusal::Word.when(rules::outside(h.n, h.word))
}

// The header by the table but for its last row: no sample has been read yet.
fn shape(bytes: &[u8], mislent: bool) -> Result<Header, Refusal>
    ensures { result ≡ header_or (first (shape_rows mislent bytes.now)) bytes.now }
{
    let header = head(bytes, mislent)?;
    layout_refusal(bytes, header)?;
    Ok(header)
}

// The header by the whole table; no slice is touched.
fn judged(bytes: &[u8], mislent: bool) -> Result<Header, Refused>
    ensures { read_as result ≡ read_of mislent bytes.now }
{
    let header = shape(bytes, mislent)?;
    let recording = Recording { bytes, header };
    match recording.first_outside() {
        Some(sample) => Err(Refused {
            refusal: Refusal::Sample,
            sample,
        }),
        None => Ok(header),
    }
}

// Reads a recording into five lent slices of 2,048 numbers, the times and units 1 to 4. A refused one leaves them as they came.
pub fn read(
    bytes: &[u8],
    times: &mut [u32],
    one: &mut [u32],
    two: &mut [u32],
    three: &mut [u32],
    four: &mut [u32],
) -> RecordingRead
    ensures { Read bytes.now times.old one.old two.old three.old four.old
        result times.new one.new two.new three.new four.new }
{
    let lengths = [times.len(), one.len(), two.len(), three.len(), four.len()];
    let mislent = lengths != [Limits::SAMPLES; 5];
    let header = match judged(bytes, mislent) {
        Ok(header) => header,
        Err(refused) => {
            return RecordingRead {
                header: Header::default(),
                answer: Err(refused),
            };
        }
    };
    let recording = Recording { bytes, header };
    recording.fill(0, times);
    recording.fill(1, one);
    recording.fill(2, two);
    recording.fill(3, three);
    recording.fill(4, four);
    RecordingRead {
        header,
        answer: Ok(()),
    }
}
