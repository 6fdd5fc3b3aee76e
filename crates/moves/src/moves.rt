// The moves of two and three legs.
ghost use Rattle.std.specs.Prelude.{◌≡◌, ℕ, ◌+◌, ◌*◌, ◌≤◌, length};
ghost use Rattle.rules.specs.Moves.{flip as flip_of, seq3};
ghost use Rattle.journal.specs.Tracks.{track_in, SameTrack};
ghost use Rattle.moves.specs.Moves.{MadeOn, Six, case_of};

use crate::flips::flip;
use crate::or_moves::or_move;
use journal::track::Track;
use legs::Stop;

// A move from t1 and t2: its case (0 none, 1 two, 2 flips, 3 segment, 4 inner), its gain, its other stops. A 2-opt move has t4 for t5, t6.
#[derive(Clone, Copy)]
pub struct Move {
    pub case: u32,
    pub gain: u32,
    pub t3: Stop,
    pub t4: Stop,
    pub t5: Stop,
    pub t6: Stop,
}

// Two flips, one after the other.
pub fn flip_twice(track: &mut Track, a: Stop, b: Stop, c: Stop, d: Stop, e: Stop, f: Stop)
    requires six { Six (length track.old.stops.now) a.0 b.0 c.0 d.0 e.0 f.0 }
    requires room { 5 * (track.old.held + 2) ≤ length track.old.journal.now }
    ensures same { SameTrack track.old track.new }
    ensures made { MadeOn 2 (flip_of d.0 e.0 f.0 (flip_of a.0 b.0 c.0 (track_in track.old))) track.old track.new }
{
    flip(track, a, b, c);
    flip(track, d, e, f);
}

// Carries a move out: the legs t1-t2, t3-t4, t5-t6 go, t2-t3, t4-t5, t6-t1 come.
pub fn apply_seq3(track: &mut Track, scratch: &mut [u32], fwd: bool, t1: Stop, t2: Stop, mv: Move)
    requires six { Six (length track.old.stops.now) t1.0 t2.0 mv.t3.0 mv.t4.0 mv.t5.0 mv.t6.0 }
    requires scratch_fits { length scratch.old ≡ length track.old.stops.now }
    requires room { 5 * (track.old.held + 2) ≤ length track.old.journal.now }
    ensures same { SameTrack track.old track.new }
    ensures made { MadeOn 2 (seq3 fwd (case_of mv.case) t1.0 t2.0 mv.t3.0 mv.t4.0 mv.t5.0 mv.t6.0 (track_in track.old)) track.old track.new }
{
    match mv.case {
        1 => flip(track, t1, t2, mv.t3),
        2 => flip_twice(track, t1, t2, mv.t3, t1, mv.t4, mv.t5),
        3 => or_move(track, scratch, fwd, t1, t2, mv.t5, mv.t6, mv.t3, mv.t4),
        _ => flip_twice(track, t1, t2, mv.t5, t2, mv.t5, mv.t4),
    }
}
