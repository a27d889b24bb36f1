// A sample of the voters, top to bottom: the signals that disagree, as one word, and what each signal does that looks at it.
// Below it: what number 7 asks of the counts. N, `need`, is the voters'.
ghost use Rattle.std.specs.Prelude.{◌≡◌, false, ℕ, ◌≤◌, ltb, get_or, if◌then◌else◌};
ghost use Rattle.rules.specs.Bits.{bit};
ghost use Rattle.rules.specs.Limits.{outside};
ghost use Rattle.rules.specs.Signals.{as_word};
ghost use Rattle.tuple.specs.Disagreement.{disagreement, bit_by, count_by, alarm_by, second_by};
ghost use Rattle.tuple.specs.Parts.{alarms_by, counts_by, Resting};

// The signals that disagree: a one at the place of each.
pub(crate) fn disagreement(a: u32, b: u32) -> u32
    ensures { (n : ℕ) → outside n a ≡ false → outside n b ≡ false → result ≡ disagreement n a b }
{
    a ^ b
}

// A signal that agrees takes the units' bit, one that disagrees keeps its agreed bit.
pub(crate) fn voted_word(a: u32, agreed: u32, disagreeing: u32) -> u32
    ensures { (n : ℕ) → n ≤ 32 → outside n a ≡ false → outside n disagreeing ≡ false
        → result ≡ as_word n (λ i. bit_by (bit i a) (bit i agreed) (bit i disagreeing)) }
{
    (a & !disagreeing) | (agreed & disagreeing)
}

// A signal that disagrees has a one where the first unit does not show the agreed bit, and so the second does.
pub(crate) fn second_word(a: u32, agreed: u32, disagreeing: u32) -> u32
    ensures { (n : ℕ) → outside n disagreeing ≡ false
        → result ≡ as_word n (λ i. second_by (bit i a) (bit i agreed) (bit i disagreeing)) }
{
    disagreeing & (a ^ agreed)
}

// The count of a signal that agrees is zero; one that disagrees, a one at its place, goes on counting, up to N-1.
fn next_count(need: u32, count: u32, disagrees: u32) -> u32
    ensures { result ≡ count_by need count disagrees }
{
    if disagrees == 0 {
        0
    } else if count < rules::last(need) {
        count + 1
    } else {
        count
    }
}

// A signal that disagrees, and whose count is N-1 already, alarms: the one at its place.
fn alarm_at(need: u32, count: u32, disagrees: u32) -> u32
    ensures { result ≡ alarm_by need count disagrees }
{
    if count < rules::last(need) {
        0
    } else {
        disagrees
    }
}

// The counts of n signals step in place, and the signals that alarm are told.
fn step_counts(n: usize, need: u32, counts: &mut [u32; 32], disagreeing: u32) -> u32
    requires { n ≤ 32 }
    ensures value { result ≡ alarms_by n need counts.old disagreeing }
    ensures counts_after { counts.new ≡ counts_by n need counts.old disagreeing }
{
    let mut mask = 0;
    for (i, count) in counts[..n].iter_mut().enumerate() {
        let disagrees = disagreeing & (1 << i);
        mask |= alarm_at(need, *count, disagrees);
        *count = next_count(need, *count, disagrees);
    }
    mask
}

// The same at a sample. Where no signal disagrees every count becomes zero; they are written only if some voter
// waits, that is, if a count may be another.
pub(crate) fn step_sample(
    n: usize,
    need: u32,
    waiting: bool,
    counts: &mut [u32; 32],
    disagreeing: u32,
) -> u32
    requires n_bound { n ≤ 32 }
    requires resting { Resting n waiting counts.old }
    ensures value { result ≡ alarms_by n need counts.old disagreeing }
    ensures counts_after { counts.new ≡ counts_by n need counts.old disagreeing }
{
    if disagreeing == 0 {
        if waiting {
            *counts = [0; 32];
        }
        return 0;
    }
    step_counts(n, need, counts, disagreeing)
}

// The sample of a single step looks at all places, so that it takes as long for each n: its caller knows that those at n and
// above agree and are zero. Of the sample before it knows nothing, so any voter may wait.
pub(crate) fn step_voters(need: u32, counts: &mut [u32; 32], disagreeing: u32) -> u32
    ensures value { result ≡ alarms_by 32 need counts.old disagreeing }
    ensures counts_after { counts.new ≡ counts_by 32 need counts.old disagreeing }
{
    step_sample(PLACES, need, true, counts, disagreeing)
}

// The places whose count is above a limit. Laid into its caller, lest a step copies its counts to lend them.
#[inline]
pub(crate) fn places_above(limit: u32, counts: &[u32; 32]) -> u32
    ensures { result ≡ as_word 32 (λ i. if ltb limit (get_or counts.now i 0) then 1 else 0) }
{
    let mut places = 0;
    for (i, count) in counts.iter().enumerate() {
        places |= u32::from(*count > limit) << i;
    }
    places
}

// A place for each signal that a word can have.
const PLACES: usize = 32;
