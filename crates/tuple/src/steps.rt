// The steps of a run, which has tested the words itself.
ghost use Rattle.std.specs.Prelude.{◌≡◌};
ghost use mathlib.Core.List.{map, zip};
ghost use Rattle.trace.specs.Answers.{done};
ghost use Rattle.tuple.specs.Tuple.{fresh};
ghost use Rattle.tuple.specs.Run.{steps, shown_word, shown_mask, shown_mark, shown_second, answer_of};

use crate::{Tuple, signals};

// A step for each sample, from a fresh state: what each shows is written. Of the state only the counts are large, and they step
// in place.
pub(crate) fn write_steps(
    start: Tuple,
    a: &[u32],
    b: &[u32],
    words: &mut [u32],
    masks: &mut [u32],
    marks: &mut [u8],
    seconds: &mut [u32],
)
    requires accepted { answer_of start.confirm.n start.votes start.confirm.need start.agreed a.now b.now
        words.old masks.old marks.old seconds.old ≡ done }
    requires from_fresh { start ≡ fresh start.confirm.n start.votes start.confirm.need start.agreed }
    ensures words_after { words.new ≡ map shown_word (steps start (zip a.now b.now)) }
    ensures masks_after { masks.new ≡ map shown_mask (steps start (zip a.now b.now)) }
    ensures marks_after { marks.new ≡ map shown_mark (steps start (zip a.now b.now)) }
    ensures seconds_after { seconds.new ≡ map shown_second (steps start (zip a.now b.now)) }
{
    let n = start.confirm.n as usize;
    let mut confirm = start.confirm;
    let mut agreed = start.agreed;
    let mut counts = start.counts;
    // The signals that disagreed at the sample before: where none did, every count is zero.
    let mut disagreed = 0;
    for i in 0..a.len() {
        let x = a[i];
        let y = b[i];
        let disagreeing = signals::disagreement(x, y);
        let waiting = disagreed != 0;
        let mask = signals::step_sample(n, start.votes, waiting, &mut counts, disagreeing);
        let second = signals::second_word(x, agreed, disagreeing);
        let voted = signals::voted_word(x, agreed, disagreeing);
        let answer = crate::decide(&mut confirm, voted, mask);
        disagreed = disagreeing;
        agreed = voted;
        // The word that is shown is the output that stays, alarm or not.
        words[i] = confirm.output;
        masks[i] = mask;
        marks[i] = answer.mark();
        seconds[i] = second;
    }
}
