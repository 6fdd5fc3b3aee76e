// Places shuffled, each exchange journalled.
ghost use Rattle.std.specs.Prelude.{ℕ, ◌+◌, ◌-◌, ◌*◌, ◌≤◌, ◌<◌, eqb, length};
ghost use Rattle.rules.specs.Lists.{when◌then◌else◌};
ghost use Rattle.rules.specs.Journal.{swap as swap_of, doing};
ghost use Rattle.journal.specs.Tracks.{track_in, SameTrack, Moves};
ghost use Rattle.kicks.specs.Kicking.{Shuffles};

use draws::draw;
use journal::track::Track;
use legs::Place;

// Exchanges the stops r and k places after start, where they are two.
#[tactic(auto, using(journal::proofs::GrewLaws::grew_self))]
fn exchange_drawn(track: &mut Track, start: Place, r: u32, k: u32)
    requires k_low { start.0 + k < length track.old.stops.now }
    requires r_le_k { r ≤ k }
    requires room { 5 * (track.old.held + 1) ≤ length track.old.journal.now }
    ensures same { SameTrack track.old track.new }
    ensures moved { Moves (when eqb r k then track_in track.old else doing (swap_of (start.0 + r) (start.0 + k)) (track_in track.old)) track.old track.new }
{
    if r != k {
        track.swap(Place(start.0 + r), Place(start.0 + k));
    }
}

// Shuffles len places from start on: a draw from 0 to k for each, k falling from len - 1 to 1.
pub fn shuffle(track: &mut Track, state: &mut u64, start: Place, len: u32)
    requires len_fits { start.0 + len ≤ length track.old.stops.now }
    requires room { 5 * (track.old.held + (len - 1)) ≤ length track.old.journal.now }
    ensures same { SameTrack track.old track.new }
    ensures shuffled { Shuffles start.0 len state.old track.old track.new state.new }
{
    for k in (1..len).rev() {
        let r = draw(state, 0, k);
        exchange_drawn(track, start, r, k);
    }
}
