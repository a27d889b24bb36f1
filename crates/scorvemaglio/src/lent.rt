// What the boundary does alike for the voters: a state is numbers, written where nothing is refused. The reserve vote's
// step has its own, since a phase from C may be none.
ghost use Rattle.std.specs.Prelude.{◌≡◌, ℕ, List};
ghost use Rattle.rules.specs.Refusal.{number_in};
ghost use Rattle.scorvemaglio.specs.Lent.{Makes, Steps};

use rules::Made;

// A state as C has it: numbers, in the order of the header's fields.
pub(crate) trait State<const K: usize>: Copy {
    ghost of: { List ℕ → Self };

    ghost numbers: { Self → List ℕ };

    fn of(s: &[u32; K]) -> Self
        ensures { result ≡ of s.now };

    fn numbers(self) -> [u32; K]
        ensures { result ≡ numbers self };
}

// What a step answers: the refusal's number, 0 for none, the numbers of the state that it leaves, and what it shows.
pub(crate) trait Taken<const K: usize, const A: usize>: Copy {
    ghost refusal: { Self → ℕ };

    ghost left: { Self → List ℕ };

    ghost shown: { Self → List ℕ };

    fn refusal(self) -> u32
        ensures { result ≡ refusal self };

    fn left(self) -> [u32; K]
        ensures { result ≡ left self };

    fn shown(self) -> [u32; A]
        ensures { result ≡ shown self };
}

// Where a state was made, it is written.
pub(crate) fn put_made<S: State<K>, const K: usize>(state: &mut [u32; K], made: Made<S>) -> u32
    ensures { Makes (number_in made.refusal) (S.numbers made.state) state.old result state.new }
{
    if let Some(refusal) = made.refusal {
        return refusal.into();
    }
    *state = made.state.numbers();
    0
}

// Where a step was taken, the state that it leaves and what it shows are written.
pub(crate) fn put_step<T: Taken<K, A>, const K: usize, const A: usize>(
    state: &mut [u32; K],
    answer: &mut [u32; A],
    taken: T,
) -> u32
    ensures { Steps (T.refusal taken) (T.left taken) (T.shown taken) state.old answer.old
        result state.new answer.new }
{
    let number = taken.refusal();
    if number != 0 {
        return number;
    }
    *state = taken.left();
    *answer = taken.shown();
    0
}
