// Calls on a track and a queue that were made of lent slices.
ghost use Rattle.std.specs.Prelude.{◌≡◌, Bool, ℕ, ◌+◌, ◌*◌, ◌<◌, ◌≤◌, length};
ghost use Rattle.rules.specs.Plan.{leg_in};
ghost use Rattle.rules.specs.Ring.{recount};
ghost use Rattle.rules.specs.Kicks.{kick as kick_of};
ghost use Rattle.rules.specs.Descend.{descend as descend_of};
ghost use Rattle.rules.specs.Journal.{entries_of, undo_all};
ghost use Rattle.laws.proofs.GainLaws.{Fit};
ghost use Rattle.legs.specs.Plans.{plan_in};
ghost use Rattle.journal.specs.Tracks.{SameTrack, track_in};
ghost use Rattle.queue.specs.Queues.{SameQueue};
ghost use Rattle.loads.specs.Lying.{Lies};
ghost use Rattle.kicks.specs.Kicking.{legs_in};
ghost use Rattle.kicks.specs.Kinds.{kick_number};
ghost use Rattle.descent.specs.Kinds.{step_number, ended_number};
ghost use Rattle.descent.specs.Handed.{manner_of};
ghost use Rattle.planner.specs.Works.{KicksBy, DescendsBy, room_by, state_by};

use descent::kinds::StepKind;
use descent::{Descent, descend};
use journal::track::Track;
use kicks::kinds::KickKind;
use kicks::{Kicked, kick};
use legs::matrix::Matrix;
use legs::plan::Plan;
use loads::undo_round;
use queue::queue::Queue;
use work::work::Work;

// Takes all entries back and empties the queue.
pub fn undo_on<'b, 'a>(
    matrix: &Matrix,
    track: &'b mut Track<'a>,
    queue: &'b mut Queue<'a>,
    scratch: &'b mut [u32],
) -> u32
    requires size { matrix.now.n ≡ length track.old.stops.now }
    requires queue_fits { length queue.old.words.now ≡ length track.old.stops.now }
    requires scratch_fits { length scratch.old ≡ length track.old.stops.now }
    ensures same_track { SameTrack track.old track.new }
    ensures same_queue { SameQueue queue.old queue.new }
    ensures lies { Lies matrix.now.times.now (undo_all (entries_of track.old.journal.now track.old.held) track.old.stops.now) track.new.stops.now track.new.places.now queue.new.flags.now result }
    ensures journal_stays { track.new.journal.now ≡ track.old.journal.now }
    ensures words_stay { queue.new.words.now ≡ queue.old.words.now }
{
    let mut work = Work {
        track,
        queue,
        scratch,
    };
    undo_round(matrix, &mut work)
}

// A kick.
pub fn kick_on<'b, 'a>(
    matrix: &Matrix,
    track: &'b mut Track<'a>,
    queue: &'b mut Queue<'a>,
    scratch: &'b mut [u32],
    draw: &mut u64,
    kind: KickKind,
) -> Kicked
    requires size { matrix.now.n ≡ length track.old.stops.now }
    requires two { 2 ≤ length track.old.stops.now }
    requires room { 5 * (track.old.held + 30) ≤ length track.old.journal.now }
    requires queue_fits { length queue.old.words.now ≡ length track.old.stops.now }
    requires scratch_fits { length scratch.old ≡ length track.old.stops.now }
    ensures same_track { SameTrack track.old track.new }
    ensures same_queue { SameQueue queue.old queue.new }
    ensures kicked { KicksBy (kick_of (legs_in matrix.now) (kick_number kind) draw.old (track_in track.old)) draw.old track.old queue.old track.new queue.new result draw.new }
{
    let mut work = Work {
        track,
        queue,
        scratch,
    };
    kick(matrix, &mut work, draw, kind)
}

// A descent.
pub fn descend_on<'b, 'a>(
    plan: &Plan,
    track: &'b mut Track<'a>,
    queue: &'b mut Queue<'a>,
    scratch: &'b mut [u32],
    step: StepKind,
    keeps: bool,
    budget: u32,
    time: u32,
) -> Descent
    requires size { plan.now.matrix.n ≡ length track.old.stops.now }
    requires some { 1 ≤ plan.now.near.count }
    requires fit { Fit (plan_in plan.now) plan.now.matrix.n }
    requires room { 2560 ≤ length track.old.journal.now }
    requires queue_fits { length queue.old.words.now ≡ length track.old.stops.now }
    requires scratch_fits { length scratch.old ≡ length track.old.stops.now }
    requires time_is { time ≡ recount (leg_in plan.now.matrix.n plan.now.matrix.times.now) track.old.stops.now }
    ensures same_track { SameTrack track.old track.new }
    ensures same_queue { SameQueue queue.old queue.new }
    ensures descended { DescendsBy (descend_of (plan_in plan.now) (step_number step) (manner_of keeps (room_by track.old)) budget (state_by track.old queue.old time)) keeps track.old track.new queue.new result.time result.left (ended_number result.ended) }
{
    let mut work = Work {
        track,
        queue,
        scratch,
    };
    descend(plan, &mut work, step, keeps, budget, time)
}
