// A sequence of calls under way: what goes into the next call by value, and how much of each slice is lent.

// The state that a call is handed and leaves, and the draw state.
#[derive(Clone, Copy, PartialEq, Eq, Default)]
pub struct State {
    pub head: usize,
    pub count: usize,
    pub held: usize,
    pub time: u32,
    pub draw: u64,
}

// How much of each slice is lent.
#[derive(Clone, Copy, Default)]
pub struct Lengths {
    pub matrix: usize,
    pub near: usize,
    pub alpha: usize,
    pub round: usize,
    pub places: usize,
    pub queue: usize,
    pub flags: usize,
    pub scratch: usize,
    pub journal: usize,
}

// Before the first record that sets up all of it is 0.
#[derive(Clone, Copy, Default)]
pub struct Session {
    pub n: usize,
    pub k: usize,
    pub ka: usize,
    pub lengths: Lengths,
    pub state: State,
}
