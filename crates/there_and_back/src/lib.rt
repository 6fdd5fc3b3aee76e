// A reversal and its rollback leave round and places as they were: from the journal's promises and the laws alone.

#![tactic(auto)]

ghost use Rattle.std.specs.Prelude.{◌≡◌, ℕ, ◌+◌, ◌*◌, ◌<◌, ◌≤◌, length};
ghost use Rattle.journal.specs.Tracks.{SameTrack};

use journal::track::Track;
use legs::Place;

pub fn there_and_back(track: &mut Track, scratch: &mut [u32], start: Place, end: Place)
    requires start_low { start.0 < length track.old.stops.now }
    requires end_low { end.0 < length track.old.stops.now }
    requires scratch_fits { length scratch.old ≡ length track.old.stops.now }
    requires room { 5 * (track.old.held + 1) ≤ length track.old.journal.now }
    ensures same { SameTrack track.old track.new }
    ensures round_unchanged { track.new.stops.now ≡ track.old.stops.now }
    ensures places_unchanged { track.new.places.now ≡ track.old.places.now }
    ensures held_unchanged { track.new.held ≡ track.old.held }
{
    let held = track.held;
    track.reverse(start, end);
    track.rollback(scratch, held);
}
