// `improve`: what the scans found, carried out and queued.

#![tactic(auto)]

ghost use Rattle.std.specs.Prelude.{◌≡◌, List, [], ◌∷◌, ℕ, ◌+◌, ◌*◌, ◌≤◌, ◌<◌, length};
ghost use Rattle.rules.specs.Queue.{push_all};
ghost use Rattle.rules.specs.Improve.{ends_of, improve as improve_of, improve_both as improve_both_of};
ghost use Rattle.journal.specs.Tracks.{track_in};
ghost use Rattle.queue.specs.Queues.{SameQueue, waiting_in, Queued};
ghost use Rattle.moves.specs.Moves.{Six};
ghost use Rattle.work.specs.Works.{SameWork};
ghost use Rattle.improve.specs.Steps.{near_in, plan_with, trial_of, Steps};

use legs::Stop;
use legs::plan::Plan;
use moves::moves::{Move, apply_seq3};
use queue::queue::Queue;
use scans::find_move;
use work::work::Work;

// Pushes two stops.
#[tactic(auto, unfolding(rules::specs::Queue::push_all))]
pub fn push_two(queue: &mut Queue, a: Stop, b: Stop)
    requires a_low { a.0 < length queue.old.words.now }
    requires b_low { b.0 < length queue.old.words.now }
    ensures same { SameQueue queue.old queue.new }
    ensures waits { Queued (push_all (waiting_in queue.old) (a.0 ∷ b.0 ∷ [])) queue.old.head queue.new }
{
    queue.push(a);
    queue.push(b);
}

// Pushes the ends of the legs that a move changes, in order.
pub fn push_move(queue: &mut Queue, t1: Stop, t2: Stop, mv: Move)
    requires six { Six (length queue.old.words.now) t1.0 t2.0 mv.t3.0 mv.t4.0 mv.t5.0 mv.t6.0 }
    ensures same { SameQueue queue.old queue.new }
    ensures waits { Queued (push_all (waiting_in queue.old) (t1.0 ∷ t2.0 ∷ ends_of (trial_of mv.case mv.t3.0 mv.t4.0 mv.t5.0 mv.t6.0))) queue.old.head queue.new }
{
    push_two(queue, t1, t2);
    push_two(queue, mv.t3, mv.t4);
    if mv.case != 1 {
        push_two(queue, mv.t5, mv.t6);
    }
}

// Finds the first move from t1 in the direction that gains, carries it out and queues its stops; 0 where there is none.
pub fn improve(plan: &Plan, work: &mut Work, fwd: bool, t1: Stop) -> u32
    requires size { plan.now.matrix.n ≡ length work.old.track.now.stops.now }
    requires t1_low { t1.0 < length work.old.track.now.stops.now }
    requires room { 5 * (work.old.track.now.held + 2) ≤ length work.old.track.now.journal.now }
    ensures same { SameWork work.old work.new }
    ensures stepped { Steps 2 (improve_of (near_in plan.now) fwd t1.0 (track_in work.old.track.now)) work.old work.new result }
{
    let round = work.track.round();
    let mv = find_move(plan, &round, fwd, t1);
    let gain = mv.gain;
    if gain == 0 {
        return gain;
    }
    let t2 = round.ahead(fwd, t1);
    let track = &mut *work.track;
    let scratch = &mut *work.scratch;
    apply_seq3(track, scratch, fwd, t1, t2, mv);
    push_move(work.queue, t1, t2, mv);
    gain
}

// `improve`, forward then backward; whatever the alpha lists are, it reads none.
pub fn improve_both(plan: &Plan, work: &mut Work, t1: Stop) -> u32
    requires size { plan.now.matrix.n ≡ length work.old.track.now.stops.now }
    requires t1_low { t1.0 < length work.old.track.now.stops.now }
    requires room { 5 * (work.old.track.now.held + 2) ≤ length work.old.track.now.journal.now }
    ensures same { SameWork work.old work.new }
    ensures stepped { (ka : ℕ) (alpha : List ℕ) → Steps 2 (improve_both_of (plan_with plan.now ka alpha) t1.0 (track_in work.old.track.now)) work.old work.new result }
{
    let gain = improve(plan, work, true, t1);
    if 0 < gain {
        return gain;
    }
    improve(plan, work, false, t1)
}
