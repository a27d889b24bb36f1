// The 2/3 threshold vote on readings (document 000, 6.1): one call, without a state.
#![tactic(auto)]

ghost use Rattle.std.specs.Prelude.{◌≡◌};
ghost use Rattle.threshold.specs.Threshold.{number_of, mark_of, lesser, greater, within, bad_readings, agrees, median_of, threshold_of};

use rules::Refusal;

// Three readings and their tolerance.
#[derive(Clone, Copy)]
pub struct Readings {
    pub x1: f64,
    pub x2: f64,
    pub x3: f64,
    pub tolerance: f64,
}

// The reading that was agreed on, an alarm, or a refusal.
#[derive(Clone, Copy)]
pub enum Threshold {
    Agreed(f64),
    Alarm,
    Refused(Refusal),
}

impl Threshold {
    // The refusal's number, 0 for none.
    pub fn number(self) -> u32
        ensures { result ≡ number_of self }
    {
        match self {
            Threshold::Agreed(_) => 0,
            Threshold::Alarm => 0,
            Threshold::Refused(refusal) => refusal.into(),
        }
    }

    // The mark byte: 0 agreed, 2 alarm, 255 with a refusal.
    pub fn mark(self) -> u8
        ensures { result ≡ mark_of self }
    {
        match self {
            Threshold::Agreed(_) => 0,
            Threshold::Alarm => 2,
            Threshold::Refused(_) => 255,
        }
    }
}

// By hand, as `f64::min` and `f64::max` leave open which of two noughts they give.
fn min(a: f64, b: f64) -> f64
    ensures { result ≡ lesser a b }
{
    if a <= b { a } else { b }
}

fn max(a: f64, b: f64) -> f64
    ensures { result ≡ greater a b }
{
    if a >= b { a } else { b }
}

// The difference is one rounded operation. The greater of it and its negation is its magnitude.
fn close(a: f64, b: f64, tolerance: f64) -> bool
    ensures { result ≡ within a b tolerance }
{
    let d = a - b;
    (d <= tolerance) & (-d <= tolerance)
}

impl Readings {
    // 11, by one test: nought times each is a nought, or a NaN if it is not finite; none is above a good tolerance.
    fn bad(self) -> bool
        ensures { result ≡ bad_readings self }
    {
        let noughts = self.x1 * 0.0 + self.x2 * 0.0 + self.x3 * 0.0 + self.tolerance * 0.0;
        !(noughts <= self.tolerance)
    }

    fn agree(self) -> bool
        ensures { result ≡ agrees self }
    {
        close(self.x2, self.x1, self.tolerance)
            | close(self.x3, self.x2, self.tolerance)
            | close(self.x1, self.x3, self.tolerance)
    }

    fn median(self) -> f64
        ensures { result ≡ median_of self }
    {
        let low = max(min(self.x1, self.x2), min(self.x2, self.x3));
        max(low, min(self.x3, self.x1))
    }

    pub fn vote(self) -> Threshold
        ensures { result ≡ threshold_of self }
    {
        if self.bad() {
            return Threshold::Refused(Refusal::Reading);
        }
        if self.agree() {
            return Threshold::Agreed(self.median());
        }
        Threshold::Alarm
    }
}
