// What a call gave, and what it left in lent memory, against what the oracle answered. Places and flags follow from round and queue.
ghost use Rattle.std.specs.Prelude.{◌≡◌, ◌≢◌, IsTrue};
ghost use Rattle.lending.specs.Reading.{IsNext};
ghost use Rattle.lending.specs.Results.{HasNoResult, HasSameWords, round_lent};

use crate::memory::{STOPS, Work, lent};
use crate::reader::Reader;
use crate::session::{Lengths, Session};
use crate::told::Outcome;

// The words of a journal entry.
const ENTRY: usize = 5;

// What a call that was accepted left.
#[derive(Clone, Copy)]
struct Left<'a> {
    round: &'a [u32],
    places: &'a [u32],
    queue: &'a [u32],
    flags: &'a [u8],
    journal: &'a [u32],
}

impl Work {
    // Whether it holds the same words as what was kept of it.
    fn is_kept(&self, kept: &Work) -> bool
        ensures { IsTrue result → HasSameWords self.now kept.now }
    {
        *self == *kept
    }

    // As much of it as is lent. No round is longer than the memory for its places.
    fn left(&self, lengths: &Lengths) -> Left<'_>
        ensures { result.round.now ≡ round_lent self.now lengths.now }
    {
        Left {
            round: lent(&self.round, lengths.round.min(STOPS)),
            places: lent(&self.places, lengths.places),
            queue: lent(&self.queue, lengths.queue),
            flags: lent(&self.flags, lengths.flags),
            journal: lent(&self.journal, lengths.journal),
        }
    }
}

impl Left<'_> {
    // Whether each stop's place is where the round has it. A stop past the places is at 0.
    fn is_placed(&self) -> bool {
        self.round.iter().enumerate().all(|(i, stop)| {
            let place = self.places.get(*stop as usize).copied().unwrap_or(0);
            place as usize == i
        })
    }

    // Whether those in the record wait, in order, each with its flag up.
    fn has_waiting(&self, record: &mut Reader, head: usize, count: usize) -> bool {
        let mut at = head;
        for _ in 0..count {
            let Some(stop) = self.queue.get(at).copied() else {
                return false;
            };
            let flag = self.flags.get(stop as usize).copied();
            if stop != u32::from(record.half()) || flag != Some(1) {
                return false;
            }
            at += 1;
            if at == self.queue.len() {
                at = 0;
            }
        }
        true
    }

    // Whether so many flags are 1, and the others 0.
    fn has_flagged(&self, count: usize) -> bool {
        self.flags.iter().all(|flag| *flag <= 1)
            && self.flags.iter().filter(|flag| **flag == 1).count() == count
    }

    // Whether the journal holds the entries that it held before, as far as it holds any, and then those in the record.
    fn has_held(&self, record: &mut Reader, old: usize, held: usize, kept: &[u32]) -> bool {
        let beyond = held.saturating_mul(ENTRY);
        let first = old.saturating_mul(ENTRY).min(beyond);
        let Some((before, rest)) = self.journal.split_at_checked(first) else {
            return false;
        };
        let Some(entries) = rest.get(..beyond - first) else {
            return false;
        };
        kept.starts_with(before) && record.gives(entries)
    }
}

impl Outcome {
    // Whether a call gave what was answered, and left in `work` what the rest of its record says, or what was kept if it was refused.
    pub fn agrees(
        &self,
        answer: &Outcome,
        record: &mut Reader,
        session: &Session,
        work: &Work,
        kept: &Work,
    ) -> bool
        ensures given { IsTrue result → answer.now.number ≡ 0 → self.now ≡ answer.now }
        ensures round { IsTrue result → answer.now.number ≡ 0 → IsNext «record».old (round_lent work.now session.now.lengths) }
        ensures number { IsTrue result → self.now.number ≡ answer.now.number }
        ensures state { IsTrue result → answer.now.number ≢ 0 → self.now.state ≡ session.now.state }
        ensures no_result { IsTrue result → answer.now.number ≢ 0 → HasNoResult self.now }
        ensures untouched { IsTrue result → answer.now.number ≢ 0 → HasSameWords work.now kept.now }
    {
        if answer.number != 0 {
            return *self == Outcome::refused(session, answer.number) && work.is_kept(kept);
        }
        let left = work.left(&session.lengths);
        let state = self.state;
        *self == *answer
            && record.gives(left.round)
            && left.is_placed()
            && left.has_waiting(record, state.head, state.count.min(STOPS))
            && left.has_flagged(state.count)
            && left.has_held(record, session.state.held, state.held, &kept.journal)
    }
}
