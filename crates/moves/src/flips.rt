// The 2-opt move.
ghost use Rattle.std.specs.Prelude.{◌≡◌, ℕ, ◌+◌, ◌*◌, ◌<◌, ◌≤◌, length};
ghost use Rattle.rules.specs.Moves.{flip as flip_of};
ghost use Rattle.journal.specs.Tracks.{track_in, SameTrack};
ghost use Rattle.moves.specs.Moves.{IsEnds, MadeOn};

use journal::track::Track;
use legs::{Place, Stop};
use ring::round::Round;

// Where a reversal starts and ends.
#[derive(Clone, Copy)]
pub struct Ends {
    pub start: Place,
    pub end: Place,
}

// The places between which a flip reverses: t1 t2 .. t4 t3 turns t2..t4, t2 t1 .. t3 t4 turns t1..t3.
pub fn flip_ends(round: &Round, t1: Stop, t2: Stop, t3: Stop) -> Ends
    requires t1_low { t1.0 < length round.now.stops.now }
    requires t2_low { t2.0 < length round.now.stops.now }
    requires t3_low { t3.0 < length round.now.stops.now }
    ensures { IsEnds round.now.stops.now t1.0 t2.0 t3.0 result.start.0 result.end.0 }
{
    if round.succ(t1) == t2 {
        let t4 = round.pred(t3);
        return Ends {
            start: round.place_of(t2),
            end: round.place_of(t4),
        };
    }
    Ends {
        start: round.place_of(t1),
        end: round.place_of(t3),
    }
}

// Takes the legs t1-t2 and t3-t4 out and puts t2-t3 and t4-t1 in.
pub fn flip(track: &mut Track, t1: Stop, t2: Stop, t3: Stop)
    requires t1_low { t1.0 < length track.old.stops.now }
    requires t2_low { t2.0 < length track.old.stops.now }
    requires t3_low { t3.0 < length track.old.stops.now }
    requires room { 5 * (track.old.held + 1) ≤ length track.old.journal.now }
    ensures same { SameTrack track.old track.new }
    ensures made { MadeOn 1 (flip_of t1.0 t2.0 t3.0 (track_in track.old)) track.old track.new }
{
    let ends = flip_ends(&track.round(), t1, t2, t3);
    track.reverse(ends.start, ends.end);
}
