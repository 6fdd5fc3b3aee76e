// The turns of a search: a kick with its kept descent, judged, or a restart from the best.
ghost use Rattle.std.specs.Prelude.{◌≡◌, Bool, true, false, List, [], ℕ, ◌+◌, ◌*◌, ◌<◌, ◌≤◌, length};
ghost use Rattle.rules.specs.Ring.{recount};
ghost use Rattle.rules.specs.Plan.{leg_in};
ghost use Rattle.rules.specs.Journal.{entries_of, undo_all};
ghost use Rattle.rules.specs.State.{load as load_of};
ghost use Rattle.rules.specs.Search.{shaken};
ghost use Rattle.laws.proofs.PermLaws.{Perm};
ghost use Rattle.journal.specs.Tracks.{SameTrack};
ghost use Rattle.kicks.specs.Kinds.{kick_number};
ghost use Rattle.descent.specs.Kinds.{step_number};
ghost use Rattle.work.specs.Works.{SameWork};
ghost use Rattle.refusals.specs.Lending.{carrying};
ghost use Rattle.walks.specs.Walking.{Counts, Given, Works, Rests, Chosen, Desk, Shook, Judges};
ghost use Rattle.walks.specs.Standing.{lent_in, bare_in, carried_in, tally_in, Idle, Shakes, DivesOn, GoesOn, kicked_from, restarted_from, turned_from};

use crate::rounds::{keep_best, settle};
use crate::tallies::{Tally, carried, counted, lesser, restart_after};
use descent::kinds::StepKind;
use descent::{Descent, descend};
use draws::draw;
use journal::track::Track;
use kicks::kick;
use kicks::kinds::KickKind;
use legs::matrix::Matrix;
use legs::plan::Plan;
use loads::load_round;
use work::work::Work;

// Draws the kind of a turn's kick: one in 16 is global.
fn choose_kind(state: &mut u64, kind: KickKind) -> KickKind
    ensures { Chosen (kick_number kind) state.old state.new (kick_number result) }
{
    if draw(state, 0, 15) == 0 {
        KickKind::Global
    } else {
        kind
    }
}

// A kick: the time with the legs that came, without those that went.
fn kick_on(matrix: &Matrix, work: &mut Work, state: &mut u64, time: u32, kind: KickKind) -> u32
    requires works { Works (bare_in matrix.now work.old) (carried_in work.old time) }
    requires room { 5 * (work.old.track.now.held + 30) ≤ length work.old.track.now.journal.now }
    ensures same { SameWork work.old work.new }
    ensures shakes { Shakes matrix.now 1 (kick_number kind) work.old time state.old work.new result state.new }
{
    let done = kick(matrix, work, state, kind);
    time + done.added - done.removed
}

// A turn's kick and its kept descent.
fn kick_and_descend(
    plan: &Plan,
    work: &mut Work,
    state: &mut u64,
    time: u32,
    step: StepKind,
    kind: KickKind,
    left: u32,
) -> Descent
    requires works { Works (lent_in plan.now work.old) (carrying 0 0 0 time) }
    requires given { Given (lent_in plan.now work.old) }
    requires idle { Idle work.old }
    ensures same { SameWork work.old work.new }
    ensures dives { DivesOn plan.now (step_number step) (kick_number kind) left work.old state.old work.new result.time result.left state.new }
{
    let this = choose_kind(state, kind);
    let kicked = kick_on(&plan.matrix, work, state, time, this);
    descend(plan, work, step, true, left, kicked)
}

// Records, the best round, and acceptance within the margin of the walk's record: commit, or the round given back.
fn judge(
    track: &mut Track,
    scratch: &mut [u32],
    best: &mut [u32],
    t: Tally,
    slack: u32,
    time: u32,
    left: u32,
) -> Tally
    requires scratch_fits { length scratch.old ≡ length track.old.stops.now }
    requires best_fits { length best.old ≡ length track.old.stops.now }
    requires counts_low { (t.stale < 4294967295) × ((t.fails < 4294967295) × (t.kicks < 4294967295)) }
    ensures same { SameTrack track.old track.new }
    ensures judges { Judges slack time left (tally_in t) track.old.stops.now (undo_all (entries_of track.old.journal.now track.old.held) track.old.stops.now) best.old track.new.stops.now track.new.places.now best.new (tally_in result) }
    ensures words { track.new.journal.now ≡ track.old.journal.now }
    ensures none_held { track.new.held ≡ 0 }
{
    let stops = &mut *track.stops;
    keep_best(time < t.best, stops, best);
    let walk = lesser(time, t.walk);
    let accept = time - walk <= slack;
    settle(accept, track, scratch);
    Tally {
        time: carried(accept, time, t.time),
        best: lesser(time, t.best),
        walk,
        stale: counted(time < t.walk, t.stale + 1),
        fails: counted(time < t.best, t.fails + 1),
        kicks: t.kicks + 1,
        left,
    }
}

// A turn with a kick.
fn kick_turn(
    plan: &Plan,
    work: &mut Work,
    best: &mut [u32],
    state: &mut u64,
    t: Tally,
    slack: u32,
    step: StepKind,
    kind: KickKind,
) -> Tally
    requires rests { Rests (lent_in plan.now work.old) best.old t.time }
    requires idle { Idle work.old }
    requires counts_low { (t.stale < 4294967295) × ((t.fails < 4294967295) × (t.kicks < 4294967295)) }
    ensures same { SameWork work.old work.new }
    ensures idle { Idle work.new }
    ensures goes { GoesOn (kicked_from plan.now (step_number step) (kick_number kind) slack work.old best.old t state.old) plan.now work.new best.new result state.new }
{
    let dived = kick_and_descend(plan, work, state, t.time, step, kind, t.left);
    let track = &mut *work.track;
    let scratch = &mut *work.scratch;
    judge(track, scratch, best, t, slack, dived.time, dived.left)
}

// 32 kicks of kind 0, one after another.
fn shake(matrix: &Matrix, work: &mut Work, state: &mut u64, time: u32) -> u32
    requires works { Works (bare_in matrix.now work.old) (carrying 0 0 0 time) }
    requires idle { Idle work.old }
    ensures same { SameWork work.old work.new }
    ensures shakes { Shakes matrix.now 32 0 work.old time state.old work.new result state.new }
{
    let mut shaken = time;
    for _kick in 0..32_usize {
        shaken = kick_on(matrix, work, state, shaken, KickKind::Bridge);
    }
    shaken
}

// The best round laid anew, and shaken.
fn reshape(matrix: &Matrix, work: &mut Work, best: &[u32], state: &mut u64) -> u32
    requires desk { Desk (bare_in matrix.now work.old) }
    requires idle { Idle work.old }
    requires perm { Perm best.now }
    requires best_fits { length best.now ≡ matrix.now.n }
    ensures same { SameWork work.old work.new }
    ensures shook { Shook (shaken (leg_in matrix.now.n matrix.now.times.now) 32 0 (load_of (recount (leg_in matrix.now.n matrix.now.times.now)) best.now) state.old) (bare_in matrix.now work.new) (carried_in work.new result) state.new }
{
    let track = &mut *work.track;
    let queue = &mut *work.queue;
    let stops = &mut *track.stops;
    let places = &mut *track.places;
    let flags = &mut *queue.flags;
    let time = load_round(matrix, stops, places, flags, best);
    shake(matrix, work, state, time)
}

// A turn with a restart: no kick is counted, and the new walk has its own record.
fn restart(
    plan: &Plan,
    work: &mut Work,
    best: &mut [u32],
    state: &mut u64,
    t: Tally,
    step: StepKind,
) -> Tally
    requires rests { Rests (lent_in plan.now work.old) best.old t.time }
    requires idle { Idle work.old }
    ensures same { SameWork work.old work.new }
    ensures idle { Idle work.new }
    ensures goes { GoesOn (restarted_from plan.now (step_number step) work.old best.old t state.old) plan.now work.new best.new result state.new }
{
    let shaken = reshape(&plan.matrix, work, best, state);
    let dived = descend(plan, work, step, false, t.left, shaken);
    let track = &mut *work.track;
    let stops = &mut *track.stops;
    keep_best(dived.time < t.best, stops, best);
    Tally {
        time: dived.time,
        best: lesser(dived.time, t.best),
        walk: dived.time,
        stale: 0,
        fails: counted(dived.time < t.best, t.fails),
        kicks: t.kicks,
        left: dived.left,
    }
}

// A restart where one is due, else a kick.
pub fn turn(
    plan: &Plan,
    work: &mut Work,
    best: &mut [u32],
    state: &mut u64,
    t: Tally,
    slack: u32,
    step: StepKind,
    kind: KickKind,
) -> Tally
    requires rests { Rests (lent_in plan.now work.old) best.old t.time }
    requires idle { Idle work.old }
    requires counts { Counts (tally_in t) }
    requires left_nonzero { 0 < t.left }
    ensures same { SameWork work.old work.new }
    ensures idle { Idle work.new }
    ensures goes { GoesOn (turned_from plan.now (step_number step) (kick_number kind) slack work.old best.old t state.old) plan.now work.new best.new result state.new }
{
    if t.stale < restart_after(plan.matrix.n) {
        kick_turn(plan, work, best, state, t, slack, step, kind)
    } else {
        restart(plan, work, best, state, t, step)
    }
}
