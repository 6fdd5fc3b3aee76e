// The step from one stop, of each kind.
ghost use Rattle.std.specs.Prelude.{◌≡◌, ℕ, ◌+◌, ◌*◌, ◌<◌, ◌≤◌, length};
ghost use Rattle.rules.specs.Improve.{or_else, improve_both as improve_both_of};
ghost use Rattle.rules.specs.Descend.{step_from as step_from_of};
ghost use Rattle.legs.specs.Plans.{plan_in};
ghost use Rattle.journal.specs.Tracks.{track_in};
ghost use Rattle.work.specs.Works.{SameWork};
ghost use Rattle.improve.specs.Steps.{Steps};
ghost use Rattle.descent.specs.Kinds.{step_number, lk_search_of};

use crate::kinds::StepKind;
use improve::improve_both;
use legs::Stop;
use legs::plan::Plan;
use lk::lk_from;
use lk3::lk3_from;
use work::work::Work;

// The search that a kind begins with: `lk_from` for Lk, `lk3_from` for the others.
pub fn lk_search(plan: &Plan, work: &mut Work, step: StepKind, v: Stop) -> u32
    requires size { plan.now.matrix.n ≡ length work.old.track.now.stops.now }
    requires some { 1 ≤ plan.now.near.count }
    requires v_low { v.0 < length work.old.track.now.stops.now }
    requires room { 5 * (work.old.track.now.held + 100) ≤ length work.old.track.now.journal.now }
    ensures same { SameWork work.old work.new }
    ensures stepped { Steps 100 (lk_search_of (plan_in plan.now) step v.0 (track_in work.old.track.now)) work.old work.new result }
{
    match step {
        StepKind::Lk => lk_from(plan, work, v),
        StepKind::Lk3 | StepKind::Lk3Only => lk3_from(plan, work, v),
    }
}

// Lk and Lk3: the search of the kind, and where it gains 0 `improve`, forward then backward.
pub fn lk_or_improve(plan: &Plan, work: &mut Work, step: StepKind, v: Stop) -> u32
    requires size { plan.now.matrix.n ≡ length work.old.track.now.stops.now }
    requires some { 1 ≤ plan.now.near.count }
    requires v_low { v.0 < length work.old.track.now.stops.now }
    requires room { 5 * (work.old.track.now.held + 100) ≤ length work.old.track.now.journal.now }
    ensures same { SameWork work.old work.new }
    ensures stepped { Steps 100 (or_else (lk_search_of (plan_in plan.now) step v.0 (track_in work.old.track.now)) (improve_both_of (plan_in plan.now) v.0)) work.old work.new result }
{
    let gain = lk_search(plan, work, step, v);
    if 0 < gain {
        return gain;
    }
    improve_both(plan, work, v)
}

// Lk3Only: `lk3_from` alone, below 5 stops `improve` alone.
pub fn lk3_only_step(plan: &Plan, work: &mut Work, v: Stop) -> u32
    requires size { plan.now.matrix.n ≡ length work.old.track.now.stops.now }
    requires some { 1 ≤ plan.now.near.count }
    requires v_low { v.0 < length work.old.track.now.stops.now }
    requires room { 5 * (work.old.track.now.held + 100) ≤ length work.old.track.now.journal.now }
    ensures same { SameWork work.old work.new }
    ensures stepped { Steps 100 (step_from_of (plan_in plan.now) 2 v.0 (track_in work.old.track.now)) work.old work.new result }
{
    let few = work.track.stops.len() < 5;
    if few {
        improve_both(plan, work, v)
    } else {
        lk3_from(plan, work, v)
    }
}

// The step of a kind.
pub fn step_from(plan: &Plan, work: &mut Work, step: StepKind, v: Stop) -> u32
    requires size { plan.now.matrix.n ≡ length work.old.track.now.stops.now }
    requires some { 1 ≤ plan.now.near.count }
    requires v_low { v.0 < length work.old.track.now.stops.now }
    requires room { 5 * (work.old.track.now.held + 100) ≤ length work.old.track.now.journal.now }
    ensures same { SameWork work.old work.new }
    ensures stepped { Steps 100 (step_from_of (plan_in plan.now) (step_number step) v.0 (track_in work.old.track.now)) work.old work.new result }
{
    match step {
        StepKind::Lk | StepKind::Lk3 => lk_or_improve(plan, work, step, v),
        StepKind::Lk3Only => lk3_only_step(plan, work, v),
    }
}
