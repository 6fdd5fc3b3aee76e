// `lk_from`, `lk_deepen`: the Lin-Kernighan step on flips. A level of breadth 1 tries one continuation, so from level 1 on it is a loop.

#![tactic(auto)]

ghost use Rattle.std.specs.Prelude.{◌≡◌, List, [], ◌∷◌, ℕ, ◌+◌, ◌*◌, ◌<◌, ◌≤◌, length};
ghost use Rattle.rules.specs.Words.{Stop as StopOf};
ghost use Rattle.rules.specs.Queue.{push_all};
ghost use Rattle.rules.specs.Step.{best};
ghost use Rattle.rules.specs.Lk.{lk_side as lk_side_of, lk_from as lk_from_of};
ghost use Rattle.journal.specs.Tracks.{track_in, SameTrack};
ghost use Rattle.queue.specs.Queues.{SameQueue, waiting_in, Queued};
ghost use Rattle.work.specs.Works.{SameWork};
ghost use Rattle.improve.specs.Steps.{plan_with, Steps};
ghost use Rattle.lk_state.specs.Stacks.{legs_in, stops_in, Stepping};
ghost use Rattle.lk_scans.specs.Picked.{conts_on, trial_in, Fine};
ghost use Rattle.lk.specs.Walks.{led, found_of, Closed, Leveled, Walks};

use improve::push_two;
use journal::track::Track;
use legs::Stop;
use legs::plan::Plan;
use lk_scans::{Pick, lk_breadth, lk_first, lk_next, pick_at};
use lk_state::{LkState, leg_word, lk_new, push_steps};
use moves::flips::flip;
use queue::queue::Queue;
use ring::round::Round;
use work::work::Work;

// The best closed gain, 0 for none, after how many moves, and how many entries were held then.
#[derive(Clone, Copy)]
pub struct Mark {
    pub gain: u32,
    pub len: usize,
    pub held: usize,
}

// Where a walk down the levels ends: the moves made, and the best closed gain among them.
#[derive(Clone, Copy)]
pub struct Walk {
    pub steps: [u32; 100],
    pub mark: Mark,
}

// The better of the mark so far and of closing now.
fn better_of(best: Mark, partial: u32, closing: u32, level: usize, held: usize) -> Mark
    requires gain_bound { best.gain ≤ 2000000000 }
    requires closing_bound { closing ≤ 65535 }
    ensures { Closed best.gain best.len best.held partial closing level held result.gain result.len result.held }
{
    if closing + best.gain < partial {
        return Mark {
            gain: partial - closing,
            len: level,
            held,
        };
    }
    best
}

// The best continuation of the level after so many moves; none beyond the 25 levels.
fn lk_level(plan: &Plan, round: &Round, st: &LkState, t1: Stop, t2: Stop, g: u32) -> Pick
    requires size { plan.now.matrix.n ≡ length round.now.stops.now }
    requires level_low { st.now.added_len ≤ 25 }
    requires removed_low { st.now.removed_len ≤ 99 }
    requires t1_low { t1.0 < plan.now.matrix.n }
    requires t2_low { t2.0 < plan.now.matrix.n }
    requires g_bound { g ≤ 2000000000 }
    ensures { Leveled plan.now.matrix.n g st.now.added_len (best 1 [] (conts_on plan.now round.now (legs_in st.now.added st.now.added_len) (legs_in st.now.removed st.now.removed_len) t1.0 t2.0 g)) result.partial result.t3.0 result.t4.0 }
{
    if 25 <= st.added_len {
        return Pick {
            partial: 0,
            t3: t1,
            t4: t2,
        };
    }
    lk_next(plan, round, st, t1, t2, g)
}

// Goes on from the first continuation, a flip a level, until there is none.
pub fn lk_walk(plan: &Plan, track: &mut Track, t1: Stop, t2: Stop, first: Pick) -> Walk
    requires size { plan.now.matrix.n ≡ length track.old.stops.now }
    requires t1_low { t1.0 < plan.now.matrix.n }
    requires t2_low { t2.0 < plan.now.matrix.n }
    requires partial_nonzero { 0 < first.partial }
    requires fine { Fine plan.now.matrix.n 65535 first.partial first.t3.0 first.t4.0 }
    requires room { 5 * (track.old.held + 25) ≤ length track.old.journal.now }
    ensures same { SameTrack track.old track.new }
    ensures walked { (ka : ℕ) (alpha : List StopOf) → Walks (led (plan_with plan.now ka alpha) t1.0 t2.0 (track_in track.old) (trial_in first)) track.old track.new result }
{
    let mut st = lk_new(t1, t2);
    let mut best = Mark {
        gain: 0,
        len: 0,
        held: track.held,
    };
    let mut p = first;
    let mut end = t2;
    let mut level: usize = 0;
    while 0 < p.partial {
        flip(track, t1, end, p.t3);
        let made = level + 1;
        st.steps[level] = p.t3.0 * 4096 + p.t4.0;
        st.steps_len = made;
        st.added[level] = leg_word(end, p.t3);
        st.added_len = made;
        st.removed[made] = leg_word(p.t3, p.t4);
        st.removed_len = made + 1;
        level = made;
        let closing = plan.dist(p.t4, t1);
        best = better_of(best, p.partial, closing, level, track.held);
        end = p.t4;
        p = lk_level(plan, &track.round(), &st, t1, end, p.partial);
    }
    Walk {
        steps: st.steps,
        mark: best,
    }
}

// Pushes t1, t2 and the stops of the moves that last, in order.
fn push_moves(queue: &mut Queue, t1: Stop, t2: Stop, steps: &[u32; 100], len: usize)
    requires t1_low { t1.0 < length queue.old.words.now }
    requires t2_low { t2.0 < length queue.old.words.now }
    requires len_bound { len ≤ 100 }
    requires stepping { Stepping steps.now len (length queue.old.words.now) }
    ensures same { SameQueue queue.old queue.new }
    ensures waits { Queued (push_all (waiting_in queue.old) (t1.0 ∷ t2.0 ∷ stops_in steps.now len)) queue.old.head queue.new }
{
    push_two(queue, t1, t2);
    push_steps(queue, steps, len);
}

// `lk_deepen` from the first continuation on: walks down the levels, rolls back to the best closed gain and queues its stops.
pub fn lk_deepen(plan: &Plan, work: &mut Work, t1: Stop, t2: Stop, first: Pick) -> u32
    requires size { plan.now.matrix.n ≡ length work.old.track.now.stops.now }
    requires t1_low { t1.0 < plan.now.matrix.n }
    requires t2_low { t2.0 < plan.now.matrix.n }
    requires partial_nonzero { 0 < first.partial }
    requires fine { Fine plan.now.matrix.n 65535 first.partial first.t3.0 first.t4.0 }
    requires room { 5 * (work.old.track.now.held + 25) ≤ length work.old.track.now.journal.now }
    ensures same { SameWork work.old work.new }
    ensures stepped { (ka : ℕ) (alpha : List StopOf) → Steps 25 (found_of t1.0 t2.0 (track_in work.old.track.now) (led (plan_with plan.now ka alpha) t1.0 t2.0 (track_in work.old.track.now) (trial_in first))) work.old work.new result }
{
    let track = &mut *work.track;
    let walk = lk_walk(plan, track, t1, t2, first);
    let mark = walk.mark;
    let scratch = &mut *work.scratch;
    track.rollback(scratch, mark.held);
    if mark.gain == 0 {
        return 0;
    }
    let queue = &mut *work.queue;
    push_moves(queue, t1, t2, &walk.steps, mark.len);
    mark.gain
}

// One side of `lk_from`: the continuations of the first level one after another, until one has led to a gain.
pub fn lk_side(plan: &Plan, work: &mut Work, fwd: bool, t1: Stop) -> u32
    requires size { plan.now.matrix.n ≡ length work.old.track.now.stops.now }
    requires t1_low { t1.0 < length work.old.track.now.stops.now }
    requires room { 5 * (work.old.track.now.held + 25) ≤ length work.old.track.now.journal.now }
    ensures same { SameWork work.old work.new }
    ensures stepped { (ka : ℕ) (alpha : List StopOf) → Steps 25 (lk_side_of (plan_with plan.now ka alpha) t1.0 fwd (track_in work.old.track.now)) work.old work.new result }
{
    let round = work.track.round();
    let t2 = round.ahead(fwd, t1);
    let g = plan.dist(t1, t2);
    let ps = lk_first(plan, &round, t1, t2, g);
    for i in 0..lk_breadth(0) {
        let p = pick_at(ps, i);
        if p.partial == 0 {
            break;
        }
        let gain = lk_deepen(plan, work, t1, t2, p);
        if 0 < gain {
            return gain;
        }
    }
    0
}

// The Lin-Kernighan step from t1: t2 after t1, then before it; 0 below 5 stops.
pub fn lk_from(plan: &Plan, work: &mut Work, t1: Stop) -> u32
    requires size { plan.now.matrix.n ≡ length work.old.track.now.stops.now }
    requires t1_low { t1.0 < length work.old.track.now.stops.now }
    requires room { 5 * (work.old.track.now.held + 25) ≤ length work.old.track.now.journal.now }
    ensures same { SameWork work.old work.new }
    ensures stepped { (ka : ℕ) (alpha : List StopOf) → Steps 25 (lk_from_of (plan_with plan.now ka alpha) t1.0 (track_in work.old.track.now)) work.old work.new result }
{
    if plan.matrix.n < 5 {
        return 0;
    }
    let gain = lk_side(plan, work, true, t1);
    if 0 < gain {
        return gain;
    }
    lk_side(plan, work, false, t1)
}
