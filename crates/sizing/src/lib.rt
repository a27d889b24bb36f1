// Sizing of counts and bounds (document 01, "Sizing"; T-02): from the width, the gaps between samples and the greatest delay.
#![tactic(auto)]

ghost use Rattle.std.specs.Prelude.{◌≡◌};
ghost use Rattle.rules.specs.Refusal.{told};
ghost use Rattle.rules.specs.Table.{first};
ghost use Rattle.sizing.specs.Sizing.{bad_gaps, count_of, votes_of, size_rows, sized, sizing_of};

use rules::{Limits, Refusal};

// The confirmation's count N, the votes' count, and from N the age bound and the quiet gap; zeros with a refusal.
// Times are whole microseconds.
#[derive(Clone, Copy, Debug, Default, PartialEq, Eq)]
pub struct Sizing {
    pub refusal: Option<Refusal>,
    pub need: u32,
    pub votes: u32,
    pub age: u64,
    pub quiet: u64,
}

// 9: the least gap is 0 or above the greatest, or the greatest is above its limit.
fn bad_gaps(least: u32, greatest: u32) -> bool
    ensures { result ≡ bad_gaps least greatest }
{
    (least == 0) | (least > greatest) | (greatest > Sizing::MAX_GAP)
}

// The confirmation's count, in 64 bits as none is refused yet; a gap of 0, which is refused, divides to 0.
fn count_of(least: u32, delay: u32) -> u64
    ensures { result ≡ count_of least delay }
{
    u64::from(delay.checked_div(least).unwrap_or(0)) + 1
}

// The votes' count, likewise.
fn votes_of(least: u32, delay: u32) -> u64
    ensures { result ≡ votes_of least delay }
{
    if least == 0 {
        return 1;
    }
    u64::from(delay.div_ceil(least)) + 1
}

#[tactic(auto, unfolding(rules::specs::Table::first, rules::specs::Refusal::refusal_of, rules::specs::Refusal::told))]
fn size_refusal(n: u32, least: u32, greatest: u32, delay: u32) -> Result<(), Refusal>
    ensures { result ≡ told (first (size_rows n least greatest delay)) }
{
    let times = bad_gaps(least, greatest) | (delay > Sizing::MAX_DELAY);
    let most = u64::from(Limits::COUNT);
    let above = (count_of(least, delay) > most) | (votes_of(least, delay) > most);
    Refusal::Width.when(rules::bad_width(n))?;
    Refusal::Times.when(times)?;
    Refusal::TooMany.when(above)
}

impl Sizing {
    pub const MAX_GAP: u32 = 1_000_000;

    pub const MAX_DELAY: u32 = 10_000_000;

    fn sized(n: u32, least_gap: u32, greatest_gap: u32, delay: u32) -> Sizing
        requires { first (size_rows n least_gap greatest_gap delay) ≡ 0 }
        ensures { result ≡ sized n least_gap greatest_gap delay }
    {
        let width = u64::from(n);
        let gap = u64::from(greatest_gap);
        let late = u64::from(delay);
        let need = count_of(least_gap, delay);
        let votes = votes_of(least_gap, delay);
        let samples = width * need;
        let age = samples * gap + late;
        let quiet = (samples + 1) * gap + late;
        let need = need as u32;
        let votes = votes as u32;
        Sizing {
            refusal: None,
            need,
            votes,
            age,
            quiet,
        }
    }

    pub fn of(n: u32, least_gap: u32, greatest_gap: u32, delay: u32) -> Sizing
        ensures { result ≡ sizing_of n least_gap greatest_gap delay }
    {
        match size_refusal(n, least_gap, greatest_gap, delay) {
            Ok(()) => Sizing::sized(n, least_gap, greatest_gap, delay),
            Err(refusal) => Sizing {
                refusal: Some(refusal),
                ..Sizing::default()
            },
        }
    }
}
