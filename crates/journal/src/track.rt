// A round with its places and the journal of what was done to it.
ghost use Rattle.std.specs.Prelude.{◌≡◌, true, length};
ghost use Rattle.rules.specs.SharedWords.{Tied};
ghost use Rattle.rules.specs.Journal.{good_journal};

use crate::entries::note;
use crate::kinds::Kind;
use crate::rollback;
use legs::Place;
use rewrite::{reverse_tour, rotate_segments, swap_raw};
use ring::round::Round;

// The round's stops, the place of each, and a journal that holds so many entries.
#[derive(Drop)]
pub struct Track<'a> {
    pub stops: &'a mut [u32],
    pub places: &'a mut [u32],
    pub journal: &'a mut [u32],
    pub held: usize,
    pub ghost tied: { Tied stops.now places.now },
    pub ghost good: { good_journal (length stops.now) journal.now held ≡ true },
}

impl<'a> Track<'a> {
    ghost use Rattle.std.specs.Prelude.{◌≡◌, ℕ, ◌+◌, ◌*◌, ◌<◌, ◌≤◌, length};
    ghost use Rattle.rules.specs.Journal.{rotation, swap as swap_of, doing, reversing};
    ghost use Rattle.journal.specs.Tracks.{track_in, SameTrack, Moves, Rolls};

    // The round, to be read.
    pub fn round(&self) -> Round<'_>
        ensures stops { result.stops.now ≡ self.now.stops.now }
        ensures places { result.places.now ≡ self.now.places.now }
    {
        Round {
            stops: &*self.stops,
            places: &*self.places,
        }
    }

    // Reverses from start to end, round the ring, or the others, and journals it.
    pub fn reverse(&mut self, start: Place, end: Place)
        requires start_low { start.0 < length self.old.stops.now }
        requires end_low { end.0 < length self.old.stops.now }
        requires room { 5 * (self.old.held + 1) ≤ length self.old.journal.now }
        ensures same { SameTrack self.old self.new }
        ensures moved { Moves (reversing start.0 end.0 (track_in self.old)) self.old self.new }
    {
        let held = self.held;
        let stops = &mut *self.stops;
        let places = &mut *self.places;
        let span = reverse_tour(stops, places, start.0 as usize, end.0 as usize);
        if span.len < 2 {
            return;
        }
        let journal = &mut *self.journal;
        note(
            journal,
            held,
            Kind::Reversal,
            span.start as u32,
            span.len as u32,
            0,
            0,
        );
        self.held = held + 1;
    }

    // Rotates segments of a, b and c places from start on, and journals it.
    pub fn rotate(&mut self, scratch: &mut [u32], start: Place, a: usize, b: usize, c: usize)
        requires start_low { start.0 < length self.old.stops.now }
        requires segments_low { a + b + c ≤ length self.old.stops.now }
        requires scratch_fits { length scratch.old ≡ length self.old.stops.now }
        requires room { 5 * (self.old.held + 1) ≤ length self.old.journal.now }
        ensures same { SameTrack self.old self.new }
        ensures moved { Moves (doing (rotation start.0 a b c) (track_in self.old)) self.old self.new }
    {
        let held = self.held;
        let stops = &mut *self.stops;
        let places = &mut *self.places;
        rotate_segments(stops, places, scratch, start.0 as usize, a, b, c);
        let journal = &mut *self.journal;
        note(
            journal,
            held,
            Kind::Rotation,
            start.0,
            a as u32,
            b as u32,
            c as u32,
        );
        self.held = held + 1;
    }

    // Exchanges the stops of two places, and journals it.
    pub fn swap(&mut self, i: Place, j: Place)
        requires i_low { i.0 < length self.old.stops.now }
        requires j_low { j.0 < length self.old.stops.now }
        requires room { 5 * (self.old.held + 1) ≤ length self.old.journal.now }
        ensures same { SameTrack self.old self.new }
        ensures moved { Moves (doing (swap_of i.0 j.0) (track_in self.old)) self.old self.new }
    {
        let held = self.held;
        let stops = &mut *self.stops;
        let places = &mut *self.places;
        swap_raw(stops, places, i.0 as usize, j.0 as usize);
        let journal = &mut *self.journal;
        note(journal, held, Kind::Swap, i.0, j.0, 0, 0);
        self.held = held + 1;
    }

    // Takes back all entries past the first `mark`, the newest first.
    pub fn rollback(&mut self, scratch: &mut [u32], mark: usize)
        requires scratch_fits { length scratch.old ≡ length self.old.stops.now }
        requires mark_le_held { mark ≤ self.old.held }
        ensures same { SameTrack self.old self.new }
        ensures back { Rolls mark self.old self.new }
        ensures words { self.new.journal.now ≡ self.old.journal.now }
    {
        let held = self.held;
        let stops = &mut *self.stops;
        let places = &mut *self.places;
        let journal = &mut *self.journal;
        self.held = rollback(stops, places, scratch, journal, held, mark);
    }
}
