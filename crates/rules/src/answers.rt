// What a constructor and a step answer, for every kind of state.
use crate::Refusal;

// The state that was made, or with a refusal the one that document 01 has beside its number.
#[derive(Clone, Copy, Debug, PartialEq, Eq)]
pub struct Made<S> {
    pub state: S,
    pub refusal: Option<Refusal>,
}

// What a step shows, beside the state that it leaves.
#[derive(Clone, Copy, Debug, PartialEq, Eq)]
pub struct Step<S, A> {
    pub state: S,
    pub answer: A,
}
