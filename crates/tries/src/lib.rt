// The tries of one t4 and of one t5: the first move that closes with a gain, or none.

#![tactic(auto)]

ghost use Rattle.std.specs.Prelude.{◌≡◌, true, false, ℕ, ◌-◌, ◌<◌, ◌≤◌, length};
ghost use Rattle.tries.specs.Picks.{none, tried_two, tried_fifth, ChosenMove, legs_in, Tries};

use legs::Stop;
use legs::plan::Plan;
use moves::moves::Move;
use ring::round::Round;

// No move.
pub fn no_move() -> Move
    ensures { (n : ℕ) → 0 < n → ChosenMove n none result }
{
    Move {
        case: 0,
        gain: 0,
        t3: Stop(0),
        t4: Stop(0),
        t5: Stop(0),
        t6: Stop(0),
    }
}

// What is left of the gain g once the leg t6-t1 comes; 0 where it is no gain.
pub fn closed(plan: &Plan, g: u32, t6: Stop, t1: Stop) -> u32
    requires t6_low { t6.0 < plan.now.matrix.n }
    requires t1_low { t1.0 < plan.now.matrix.n }
    ensures { result ≡ g - legs_in plan.now t6.0 t1.0 }
{
    g.saturating_sub(plan.dist(t6, t1))
}

// The 2-opt move, where t4 is before t3.
pub fn try_two(plan: &Plan, after: bool, g2: u32, t1: Stop, t3: Stop, t4: Stop) -> Move
    requires tries { Tries plan.now.matrix.n t1.0 t3.0 t3.0 t4.0 t4.0 }
    ensures { ChosenMove plan.now.matrix.n (tried_two (legs_in plan.now) after t1.0 t3.0 t4.0 g2) result }
{
    if after {
        return no_move();
    }
    let gain = closed(plan, g2, t4, t1);
    if 0 < gain {
        return Move {
            case: 1,
            gain,
            t3,
            t4,
            t5: t4,
            t6: t4,
        };
    }
    no_move()
}

// t4 before t3: t6 is ahead of t5 where that lies between t2 and t4, else behind it.
pub fn try_before(
    plan: &Plan,
    round: &Round,
    fwd: bool,
    g3: u32,
    t1: Stop,
    t2: Stop,
    t3: Stop,
    t4: Stop,
    t5: Stop,
) -> Move
    requires size { plan.now.matrix.n ≡ length round.now.stops.now }
    requires tries { Tries plan.now.matrix.n t1.0 t2.0 t3.0 t4.0 t5.0 }
    requires g3_bound { g3 ≤ 131070 }
    ensures { ChosenMove plan.now.matrix.n (tried_fifth (legs_in plan.now) fwd round.now.stops.now false t1.0 t2.0 t3.0 t4.0 t5.0 g3) result }
{
    let inside = round.between_dir(fwd, t2, t5, t4);
    let t6 = round.beside(fwd, inside, t5);
    let open = g3 + plan.dist(t5, t6);
    let gain = closed(plan, open, t6, t1);
    if 0 < gain {
        return Move {
            case: 2,
            gain,
            t3,
            t4,
            t5,
            t6,
        };
    }
    no_move()
}

// t4 after t3: only a t5 between t2 and t3; t6 is ahead of it, then behind it.
pub fn try_after(
    plan: &Plan,
    round: &Round,
    fwd: bool,
    g3: u32,
    t1: Stop,
    t2: Stop,
    t3: Stop,
    t4: Stop,
    t5: Stop,
) -> Move
    requires size { plan.now.matrix.n ≡ length round.now.stops.now }
    requires tries { Tries plan.now.matrix.n t1.0 t2.0 t3.0 t4.0 t5.0 }
    requires g3_bound { g3 ≤ 131070 }
    ensures { ChosenMove plan.now.matrix.n (tried_fifth (legs_in plan.now) fwd round.now.stops.now true t1.0 t2.0 t3.0 t4.0 t5.0 g3) result }
{
    let inside = round.between_dir(fwd, t2, t5, t3);
    if !inside {
        return no_move();
    }
    let next = round.ahead(fwd, t5);
    let open = g3 + plan.dist(t5, next);
    let gain = closed(plan, open, next, t1);
    if 0 < gain {
        return Move {
            case: 3,
            gain,
            t3,
            t4,
            t5,
            t6: next,
        };
    }
    if t5 == t2 {
        return no_move();
    }
    let last = round.behind(fwd, t5);
    let other = g3 + plan.dist(t5, last);
    let more = closed(plan, other, last, t1);
    if 0 < more {
        return Move {
            case: 4,
            gain: more,
            t3,
            t4,
            t5,
            t6: last,
        };
    }
    no_move()
}

// The 3-opt moves of a t5.
pub fn try_fifth(
    plan: &Plan,
    round: &Round,
    fwd: bool,
    after: bool,
    g3: u32,
    t1: Stop,
    t2: Stop,
    t3: Stop,
    t4: Stop,
    t5: Stop,
) -> Move
    requires size { plan.now.matrix.n ≡ length round.now.stops.now }
    requires tries { Tries plan.now.matrix.n t1.0 t2.0 t3.0 t4.0 t5.0 }
    requires g3_bound { g3 ≤ 131070 }
    ensures { ChosenMove plan.now.matrix.n (tried_fifth (legs_in plan.now) fwd round.now.stops.now after t1.0 t2.0 t3.0 t4.0 t5.0 g3) result }
{
    if after {
        try_after(plan, round, fwd, g3, t1, t2, t3, t4, t5)
    } else {
        try_before(plan, round, fwd, g3, t1, t2, t3, t4, t5)
    }
}
