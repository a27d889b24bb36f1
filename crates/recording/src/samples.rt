// A recording whose layout is accepted: its first sample outside the width, and its columns into lent slices.
ghost use Rattle.std.specs.Prelude.{◌≡◌, ◌+◌, ◌≤◌, ◌<◌, length};
ghost use Rattle.rules.specs.Signals.{some_below};
ghost use Rattle.recording.specs.Recording.{sample_at, outside_at, column_outside, first_outside, slice_after, Laid};

use crate::{Header, column_at, field};

// The columns of the header lie in the bytes.
#[derive(Clone, Copy)]
pub(crate) struct Recording<'a> {
    pub(crate) bytes: &'a [u8],
    pub(crate) header: Header,
    ghost laid: { Laid bytes.now header },
}

impl Recording<'_> {
    // Sample i of column k.
    fn sample(&self, k: u32, i: u32) -> u32
        requires { (k ≤ self.now.header.units) × (i < self.now.header.samples) }
        ensures { result ≡ sample_at self.now.bytes.now self.now.header.samples k i }
    {
        let at = column_at(self.header.samples, k) + 4 * i as usize;
        field(self.bytes, at)
    }

    // 6, of sample i: a unit that is present shows a word outside the width.
    fn outside_at(&self, i: u32) -> bool
        requires { i < self.now.header.samples }
        ensures { result ≡ outside_at self.now.bytes.now self.now.header i }
    {
        (0..self.header.units).any(|k| rules::outside(self.header.n, self.sample(k + 1, i)))
    }

    // Some sample of column k is outside the width exactly when the OR of all is, which becomes wide code.
    fn column_outside(&self, k: u32) -> bool
        requires { k ≤ self.now.header.units }
        ensures { result ≡ column_outside self.now.bytes.now self.now.header k }
    {
        let union = (0..self.header.samples).fold(0, |union, i| union | self.sample(k, i));
        rules::outside(self.header.n, union)
    }

    // Some unit that is present has such a sample.
    fn some_outside(&self) -> bool
        ensures { result ≡ some_below self.now.header.units
            (λ k. column_outside self.now.bytes.now self.now.header (k + 1)) }
    {
        (0..self.header.units).any(|unit| self.column_outside(unit + 1))
    }

    // The number of the first sample outside the width, searched only where there is one.
    pub(crate) fn first_outside(&self) -> Option<u32>
        ensures { result ≡ first_outside self.now.bytes.now self.now.header }
    {
        if !self.some_outside() {
            return None;
        }
        (0..self.header.samples).find(|i| self.outside_at(*i))
    }

    // The column k on the first places of a slice; an absent unit's slice stays.
    pub(crate) fn fill(&self, k: u32, out: &mut [u32])
        requires { length out.old ≡ 2048 }
        ensures { out.new ≡ slice_after self.now.bytes.now self.now.header k out.old }
    {
        if k > self.header.units {
            return;
        }
        for i in 0..self.header.samples {
            out[i as usize] = self.sample(k, i);
        }
    }
}
