// The exchange of two segments.
ghost use Rattle.std.specs.Prelude.{◌≡◌, ℕ, ◌+◌, ◌*◌, ◌<◌, ◌≤◌, length};
ghost use Rattle.rules.specs.Moves.{or_move as or_move_of};
ghost use Rattle.rules.specs.SharedWords.{Is};
ghost use Rattle.journal.specs.Tracks.{track_in, SameTrack};
ghost use Rattle.moves.specs.Moves.{Six, MadeOn};
ghost use Rattle.moves.specs.Cuts.{cut_of, IsOrMove};

use crate::cuts::{Spread, sorted, window};
use journal::track::Track;
use legs::{Place, Stop};
use ring::round::Round;

// The cut of a leg x-y that goes: the place of its later stop in the ring's own direction.
pub fn cut(round: &Round, fwd: bool, x: Stop, y: Stop) -> usize
    requires x_low { x.0 < length round.now.stops.now }
    requires y_low { y.0 < length round.now.stops.now }
    ensures { Is (length round.now.stops.now) (cut_of fwd round.now.stops.now x.0 y.0) result }
{
    let later = if fwd { y } else { x };
    round.place_of(later).0 as usize
}

// The two segments that an or-move exchanges.
pub fn or_window(
    round: &Round,
    fwd: bool,
    x1: Stop,
    y1: Stop,
    x2: Stop,
    y2: Stop,
    x3: Stop,
    y3: Stop,
) -> Spread
    requires six { Six (length round.now.stops.now) x1.0 y1.0 x2.0 y2.0 x3.0 y3.0 }
    ensures { IsOrMove fwd round.now.stops.now x1.0 y1.0 x2.0 y2.0 x3.0 y3.0 result.start result.first result.last }
{
    let p = cut(round, fwd, x1, y1);
    let q = cut(round, fwd, x2, y2);
    let s = cut(round, fwd, x3, y3);
    let c = sorted(p, q, s);
    window(round.len(), c.0, c.1, c.2)
}

// Takes the legs x1-y1, x2-y2 and x3-y3 out, each y after its x in the direction, and exchanges two of the three paths that are left.
pub fn or_move(
    track: &mut Track,
    scratch: &mut [u32],
    fwd: bool,
    x1: Stop,
    y1: Stop,
    x2: Stop,
    y2: Stop,
    x3: Stop,
    y3: Stop,
)
    requires six { Six (length track.old.stops.now) x1.0 y1.0 x2.0 y2.0 x3.0 y3.0 }
    requires scratch_fits { length scratch.old ≡ length track.old.stops.now }
    requires room { 5 * (track.old.held + 1) ≤ length track.old.journal.now }
    ensures same { SameTrack track.old track.new }
    ensures made { MadeOn 1 (or_move_of fwd x1.0 y1.0 x2.0 y2.0 x3.0 y3.0 (track_in track.old)) track.old track.new }
{
    let w = or_window(&track.round(), fwd, x1, y1, x2, y2, x3, y3);
    track.rotate(scratch, Place(w.start as u32), w.first, 0, w.last);
}
