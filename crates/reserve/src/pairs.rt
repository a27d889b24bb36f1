// The pair that was voted on at each sample of a run, told from the run's marks: a run writes no pair.
ghost use Rattle.std.specs.Prelude.{◌≡◌, length};
ghost use Rattle.reserve.specs.Pairs.{told, next_pair, pairs_of, pairs_in};

// An alarm hands over for ever.
fn next_pair(pair: u32, mark: u8) -> u32
    ensures { result ≡ next_pair (told pair mark) }
{
    if mark == 2 { 2 } else { pair }
}

fn fill_pairs(marks: &[u8], pairs: &mut [u32])
    requires { length marks.now ≡ length pairs.old }
    ensures { pairs.new ≡ pairs_of marks.now }
{
    let mut pair = 1;
    for (i, mark) in marks.iter().enumerate() {
        pairs[i] = pair;
        pair = next_pair(pair, *mark);
    }
}

// The pairs, 1 or 2, into a slice that has a place for each mark; any other slice stays as it came.
pub fn tell_pairs(marks: &[u8], pairs: &mut [u32])
    ensures { pairs.new ≡ pairs_in marks.now pairs.old }
{
    if marks.len() == pairs.len() {
        fill_pairs(marks, pairs);
    }
}
