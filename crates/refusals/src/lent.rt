// What a call is lent, as it comes: nothing is known of it before it is checked.
ghost use Rattle.std.specs.Prelude.{◌≡◌};

use crate::asked::kick_good;
use crate::parts::check_by_lengths;
use checks::{is_round, journal_good, queue_good, round_good, time_good};
use legs::matrix::Matrix;
use numbers::Refusal;

// Sizes, matrix, lists and memory.
#[derive(Clone, Copy)]
pub struct Lent<'a> {
    pub n: usize,
    pub k: usize,
    pub ka: usize,
    pub matrix: &'a [u16],
    pub near: &'a [u32],
    pub alpha: &'a [u32],
    pub round: &'a [u32],
    pub places: &'a [u32],
    pub queue: &'a [u32],
    pub flags: &'a [u8],
    pub scratch: &'a [u32],
    pub journal: &'a [u32],
}

// What goes in by value and comes back: the queue's head and count, the entries held, the carried time.
#[derive(Clone, Copy, PartialEq, Eq)]
pub struct State {
    pub head: usize,
    pub count: usize,
    pub held: usize,
    pub time: u32,
}

impl<'a> Lent<'a> {
    ghost use Rattle.std.specs.Prelude.{◌≡◌, [], ◌∷◌, length};
    ghost use Rattle.rules.specs.Numbers.{verdict, call_checks, kick_number, load_number};
    ghost use Rattle.rules.specs.SharedWords.{Square};
    ghost use Rattle.numbers.specs.Numbers.{number_in};
    ghost use Rattle.refusals.specs.Refusing.{lent_number, state_good as state_good_of};
    ghost use Rattle.refusals.specs.Lents.{lent_in, carried_in};

    // 1 to 6. `more` is the length of what else is lent, `told` what else 2 asks.
    pub fn check_lent(&self, more: usize, told: bool) -> Result<(), Refusal>
        ensures { number_in result ≡ lent_number self.now.n self.now.k self.now.ka self.now.matrix.now self.now.near.now self.now.alpha.now (length self.now.round.now ∷ length self.now.places.now ∷ length self.now.queue.now ∷ length self.now.flags.now ∷ length self.now.scratch.now ∷ more ∷ []) (length self.now.journal.now) told }
    {
        let lengths = [
            self.round.len(),
            self.places.len(),
            self.queue.len(),
            self.flags.len(),
            self.scratch.len(),
            more,
        ];
        check_by_lengths(
            self.n,
            self.k,
            self.ka,
            self.matrix,
            self.near,
            self.alpha,
            &lengths,
            self.journal.len(),
            told,
        )
    }

    // 7: the round holds each stop once, the places are its inverse, queue and flags agree, the journal is in range and the time is the recount.
    fn state_good(&self, state: State) -> bool
        requires square { Square self.now.matrix.now (length self.now.round.now) }
        requires places_len { length self.now.places.now ≡ length self.now.round.now }
        requires queue_len { length self.now.queue.now ≡ length self.now.round.now }
        requires flags_len { length self.now.flags.now ≡ length self.now.round.now }
        ensures { result ≡ state_good_of (length self.now.round.now) self.now.matrix.now self.now.round.now self.now.places.now self.now.queue.now self.now.flags.now self.now.journal.now (carried_in state) }
    {
        if !round_good(self.round, self.places) {
            return false;
        }
        if !queue_good(self.queue, self.flags, state.head, state.count) {
            return false;
        }
        if !journal_good(self.round.len(), self.journal, state.held) {
            return false;
        }
        let matrix = Matrix {
            n: self.round.len(),
            times: self.matrix,
        };
        time_good(&matrix, self.round, state.time)
    }

    // 1 to 7: what every single call checks.
    pub fn check_call(&self, state: State, told: bool) -> Result<(), Refusal>
        ensures { number_in result ≡ verdict (call_checks (lent_in self.now) (carried_in state) told) }
    {
        self.check_lent(self.n, told)?;
        if !self.state_good(state) {
            return Err(Refusal::State);
        }
        Ok(())
    }

    // 1 to 8: what a kick checks.
    pub fn check_kick(&self, state: State, kind: u32, draw: u64) -> Result<(), Refusal>
        ensures { number_in result ≡ kick_number (lent_in self.now) (carried_in state) kind draw }
    {
        self.check_call(state, kick_good(kind, draw))?;
        if self.journal.len() / 5 - state.held < 30 {
            return Err(Refusal::Full);
        }
        Ok(())
    }

    // 1 to 6, and 7 where the start round is none: what a load checks.
    pub fn check_load(&self, start: &[u32]) -> Result<(), Refusal>
        ensures { number_in result ≡ load_number (lent_in self.now) start.now }
    {
        self.check_lent(start.len(), true)?;
        if !is_round(start) {
            return Err(Refusal::State);
        }
        Ok(())
    }
}
