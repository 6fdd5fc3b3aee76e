// The best round, kept beside the walk's, and the walk's given back.
ghost use Rattle.std.specs.Prelude.{◌≡◌, Bool, true, List, ℕ, length};
ghost use Rattle.rules.specs.Lists.{when◌then◌else◌};
ghost use Rattle.rules.specs.Journal.{good_journal, entries_of, undo_all};
ghost use Rattle.rules.specs.SharedWords.{Tied};
ghost use Rattle.journal.specs.Tracks.{SameTrack};
ghost use Rattle.loads.specs.Lying.{Laid};

use journal::rollback;
use journal::track::Track;

// Keeps the round as the best where it is.
pub fn keep_best(new: bool, round: &[u32], best: &mut [u32])
    requires { length best.old ≡ length round.now }
    ensures { best.new ≡ (when new then round.now else best.old) }
{
    if new {
        best.copy_from_slice(round);
    }
}

// Leaves the round where it is accepted, else takes all entries back.
pub fn settle_lent(
    accept: bool,
    round: &mut [u32],
    places: &mut [u32],
    scratch: &mut [u32],
    journal: &[u32],
    held: usize,
)
    requires tied { Tied round.old places.old }
    requires scratch_len { length scratch.old ≡ length round.old }
    requires held_value { good_journal (length round.old) journal.now held ≡ true }
    ensures { Laid (when accept then round.old else undo_all (entries_of journal.now held) round.old) round.new places.new }
{
    if accept {
        return;
    }
    rollback(round, places, scratch, journal, held, 0);
}

// Leaves the round where it is accepted, else takes all entries back; none is held any more.
pub fn settle(accept: bool, track: &mut Track, scratch: &mut [u32])
    requires scratch_fits { length scratch.old ≡ length track.old.stops.now }
    ensures same { SameTrack track.old track.new }
    ensures laid { Laid (when accept then track.old.stops.now else undo_all (entries_of track.old.journal.now track.old.held) track.old.stops.now) track.new.stops.now track.new.places.now }
    ensures words { track.new.journal.now ≡ track.old.journal.now }
    ensures none_held { track.new.held ≡ 0 }
{
    let held = track.held;
    let stops = &mut *track.stops;
    let places = &mut *track.places;
    let journal = &mut *track.journal;
    settle_lent(accept, stops, places, scratch, journal, held);
    track.held = 0;
}
