// Kicks: segments that change places, and places shuffled.

#![tactic(auto)]

ghost use Rattle.std.specs.Prelude.{◌≡◌, ℕ, ◌≤◌, ◌<◌, pos, ◌+ℤ◌, length};
ghost use Rattle.rules.specs.Kicks.{kick as kick_of};
ghost use Rattle.journal.specs.Tracks.{track_in};
ghost use Rattle.work.specs.Works.{SameWork};
ghost use Rattle.kicks.specs.Exchanging.{Segments, exchanging};
ghost use Rattle.kicks.specs.Kicking.{legs_in, Ready, MadeOn, KicksOn, shuffle_drawn, window_drawn, global_drawn};
ghost use Rattle.kicks.specs.Kinds.{kick_number};

use crate::cuts::{Cut, draw_bridge, draw_cut, kick_kind_at};
use crate::ends::Ends;
use crate::kinds::KickKind;
use crate::shuffles::shuffle;
use draws::draw;
use legs::Place;
use legs::matrix::Matrix;
use ring::places::prev;
use ring::times::{cost, path_cost};
use work::work::Work;

pub mod cuts;
pub mod ends;
pub mod kinds;
pub mod shuffles;

// What a kick did: the time of the legs that came and of those that went.
#[derive(Clone, Copy)]
pub struct Kicked {
    pub added: u32,
    pub removed: u32,
}

// Two segments change places, and the stops beside the cuts wait: p X Y Z q becomes p Z Y X q.
fn exchange(matrix: &Matrix, work: &mut Work, cut: Cut, bridge: bool) -> Kicked
    requires ready { Ready 1 matrix.now work.old }
    requires segments { Segments (length work.old.track.now.stops.now) cut }
    ensures same { SameWork work.old work.new }
    ensures made { MadeOn (exchanging bridge (legs_in matrix.now) cut (track_in work.old.track.now)) 1 4 work.old work.new result }
{
    let round = work.track.round();
    let ends = Ends::of(&round, cut);
    let b = cut.b;
    let removed = ends.joints(matrix, b);
    let added = ends.exchanged().joints(matrix, b);
    let track = &mut *work.track;
    let scratch = &mut *work.scratch;
    track.rotate(scratch, cut.start, cut.a, b, cut.c);
    ends.push(work.queue, bridge, b);
    Kicked { added, removed }
}

// A global kick below 8 stops: all places are shuffled, every leg is counted anew, every stop waits.
fn shuffle_kick(matrix: &Matrix, work: &mut Work, state: &mut u64) -> Kicked
    requires ready { Ready 30 matrix.now work.old }
    requires few { length work.old.track.now.stops.now < 8 }
    ensures same { SameWork work.old work.new }
    ensures kicked { KicksOn (shuffle_drawn (legs_in matrix.now) state.old (track_in work.old.track.now)) state.old 30 35 work.old work.new result state.new }
{
    let before = work.track.round();
    let removed = cost(matrix, before.stops);
    let n = before.len() as u32;
    shuffle(work.track, state, Place(0), n);
    let after = work.track.round();
    let added = cost(matrix, after.stops);
    work.queue.push_all(after.stops);
    Kicked { added, removed }
}

// The end of a global kick at 32 stops or more: 30 places are shuffled, and their stops and the two beside them wait.
fn window_kick(matrix: &Matrix, work: &mut Work, state: &mut u64) -> Kicked
    requires ready { Ready 29 matrix.now work.old }
    ensures same { SameWork work.old work.new }
    ensures kicked { KicksOn (window_drawn (legs_in matrix.now) state.old (track_in work.old.track.now)) state.old 29 31 work.old work.new result state.new }
{
    let before = work.track.round();
    let n = before.len();
    if n < 32 {
        return Kicked {
            added: 0,
            removed: 0,
        };
    }
    let left = draw(state, 0, (n - 30) as u32);
    let first = prev(left as usize, n);
    let removed = path_cost(matrix, before.stops, first, 31);
    shuffle(work.track, state, Place(left), 30);
    let after = work.track.round();
    let added = path_cost(matrix, after.stops, first, 31);
    work.queue.push_places(after.stops, first, 32);
    Kicked { added, removed }
}

// A global kick of 8 stops or more: A B C D becomes A D C B, then the window.
fn bridge_kick(matrix: &Matrix, work: &mut Work, state: &mut u64) -> Kicked
    requires ready { Ready 30 matrix.now work.old }
    requires many { 8 ≤ length work.old.track.now.stops.now }
    ensures same { SameWork work.old work.new }
    ensures kicked { KicksOn (global_drawn (legs_in matrix.now) state.old (track_in work.old.track.now)) state.old 30 35 work.old work.new result state.new }
{
    let cut = draw_bridge(state, matrix.n);
    let k = exchange(matrix, work, cut, true);
    let w = window_kick(matrix, work, state);
    Kicked {
        added: k.added + w.added,
        removed: k.removed + w.removed,
    }
}

// The global kick.
#[tactic(auto, using(crate::proofs::GlobalLaws::global_shuffle), unfolding(rules::specs::Journal::track_of))]
pub fn global_kick(matrix: &Matrix, work: &mut Work, state: &mut u64) -> Kicked
    requires ready { Ready 30 matrix.now work.old }
    ensures same { SameWork work.old work.new }
    ensures kicked { KicksOn (global_drawn (legs_in matrix.now) state.old (track_in work.old.track.now)) state.old 30 35 work.old work.new result state.new }
{
    if matrix.n < 8 {
        shuffle_kick(matrix, work, state)
    } else {
        bridge_kick(matrix, work, state)
    }
}

// A kick of the kind that is asked, or a global one where a segment is too short.
pub fn kick(matrix: &Matrix, work: &mut Work, state: &mut u64, kind: KickKind) -> Kicked
    requires ready { Ready 30 matrix.now work.old }
    ensures same { SameWork work.old work.new }
    ensures kicked { KicksOn (kick_of (legs_in matrix.now) (kick_number kind) state.old (track_in work.old.track.now)) state.old 30 35 work.old work.new result state.new }
{
    match kick_kind_at(matrix.n, kind) {
        KickKind::Global => global_kick(matrix, work, state),
        _ => {
            let cut = draw_cut(state, matrix.n, kind);
            exchange(matrix, work, cut, false)
        }
    }
}

// The signed change in time that a kick reports.
pub fn change(added: u32, removed: u32) -> i32
    requires added_bound { added < 2147483648 }
    requires removed_bound { removed < 2147483648 }
    ensures { result +ℤ pos removed ≡ pos added }
{
    added as i32 - removed as i32
}
