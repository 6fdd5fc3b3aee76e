// `descend`: stops are taken while some wait, a unit is left and, in a kept descent, the journal has room for a step.

#![tactic(auto)]

ghost use Rattle.std.specs.Prelude.{◌≡◌, true, false, ℕ, ◌+◌, ◌-◌, ◌*◌, ◌/◌, ◌<◌, ◌≤◌, ltb, length};
ghost use Rattle.rules.specs.Lists.{when◌then◌else◌};
ghost use Rattle.rules.specs.Ring.{recount};
ghost use Rattle.rules.specs.Plan.{leg_in};
ghost use Rattle.rules.specs.Descend.{descend as descend_of};
ghost use Rattle.laws.proofs.GainLaws.{Fit};
ghost use Rattle.legs.specs.Plans.{plan_in};
ghost use Rattle.journal.specs.Tracks.{SameTrack};
ghost use Rattle.work.specs.Works.{SameWork};
ghost use Rattle.descent.specs.Handed.{manner_of};
ghost use Rattle.descent.specs.Kinds.{step_number, ended_number};
ghost use Rattle.descent.specs.Descents.{Keeps, Takes, state_at, room_of, Ends, Descends};

use crate::kinds::{Ending, StepKind};
use crate::steps::step_from;
use journal::track::Track;
use legs::plan::Plan;
use work::work::Work;

pub mod kinds;
pub mod steps;

// The free journal entries that a step may take.
const STEP: usize = 100;

// Where a descent stands: the carried time, the units left and how it ended.
#[derive(Clone, Copy)]
pub struct Descent {
    pub time: u32,
    pub left: u32,
    pub ended: Ending,
}

// Whether a kept descent has too little room for a step.
fn short(keeps: bool, room: usize, held: usize) -> bool
    requires { held ≤ room }
    ensures { result ≡ (when keeps then ltb (room - held) 100 else false) }
{
    keeps && room - held < STEP
}

// The entries held stay in a kept descent; a committed one empties the journal.
fn keep(track: &mut Track, keeps: bool)
    ensures same { SameTrack track.old track.new }
    ensures kept { Keeps keeps track.old track.new }
{
    if !keeps {
        track.held = 0;
    }
}

// Takes the first of those that wait, and makes the step from it.
pub fn take_step(plan: &Plan, work: &mut Work, step: StepKind) -> u32
    requires size { plan.now.matrix.n ≡ length work.old.track.now.stops.now }
    requires some { 1 ≤ plan.now.near.count }
    requires waits { 0 < work.old.queue.now.count }
    requires room { 5 * (work.old.track.now.held + 100) ≤ length work.old.track.now.journal.now }
    ensures same { SameWork work.old work.new }
    ensures took { Takes (plan_in plan.now) (step_number step) work.old work.new result }
{
    let queue = &mut *work.queue;
    let v = queue.pop_front();
    step_from(plan, work, step, v)
}

// Takes stops until the descent ends; a committed one empties the journal before each stop and on leaving.
pub fn run(
    plan: &Plan,
    work: &mut Work,
    step: StepKind,
    keeps: bool,
    budget: u32,
    time: u32,
) -> Descent
    requires size { plan.now.matrix.n ≡ length work.old.track.now.stops.now }
    requires some { 1 ≤ plan.now.near.count }
    requires fit { Fit (plan_in plan.now) plan.now.matrix.n }
    requires room { 2560 ≤ length work.old.track.now.journal.now }
    requires time_is { time ≡ recount (leg_in plan.now.matrix.n plan.now.matrix.times.now) work.old.track.now.stops.now }
    ensures same { SameWork work.old work.new }
    ensures ended { Ends (descend_of (plan_in plan.now) (step_number step) (manner_of keeps (room_of work.old)) budget (state_at work.old time)) keeps work.old work.new result.time result.left (ended_number result.ended) }
{
    let room = work.track.journal.len() / 5;
    let mut left = budget;
    let mut carried = time;
    let mut ended = Ending::Idle;
    keep(&mut *work.track, keeps);
    // No `for`: steps put stops in the queue that it empties.
    'stops: while 0 < work.queue.count {
        if left == 0 {
            ended = Ending::Spent;
            break 'stops;
        }
        if short(keeps, room, work.track.held) {
            ended = Ending::Full;
            break 'stops;
        }
        let gain = take_step(plan, work, step);
        left -= 1;
        carried -= gain;
        keep(&mut *work.track, keeps);
    }
    Descent {
        time: carried,
        left,
        ended,
    }
}

// The whole descent: on leaving nobody waits.
pub fn descend(
    plan: &Plan,
    work: &mut Work,
    step: StepKind,
    keeps: bool,
    budget: u32,
    time: u32,
) -> Descent
    requires size { plan.now.matrix.n ≡ length work.old.track.now.stops.now }
    requires some { 1 ≤ plan.now.near.count }
    requires fit { Fit (plan_in plan.now) plan.now.matrix.n }
    requires room { 2560 ≤ length work.old.track.now.journal.now }
    requires time_is { time ≡ recount (leg_in plan.now.matrix.n plan.now.matrix.times.now) work.old.track.now.stops.now }
    ensures same { SameWork work.old work.new }
    ensures descended { Descends (descend_of (plan_in plan.now) (step_number step) (manner_of keeps (room_of work.old)) budget (state_at work.old time)) keeps work.old work.new result.time result.left (ended_number result.ended) }
{
    let descent = run(plan, work, step, keeps, budget, time);
    let queue = &mut *work.queue;
    queue.clear();
    descent
}
