// The tries of one t5 for a level of LK3: the first move that closes with a gain, or the best so far to go on with.

#![tactic(auto)]

ghost use Rattle.std.specs.Prelude.{◌≡◌, true, false, ◌&&◌, [], ◌∷◌, ℕ, ◌+◌, ◌<◌, ◌≤◌, max, ltb, length};
ghost use Rattle.tries.specs.Picks.{legs_in as leg_at, Tries};
ghost use Rattle.lk_state.specs.Stacks.{legs_in};
ghost use Rattle.seeks.specs.Seeks.{seek_of, unbarred, sought_fifth, Barring, pick_in, trial_in, may_at, LastsIn, SeeksIn};

use legs::Stop;
use legs::plan::Plan;
use lk_state::{LkState, has, leg_word};
use moves::moves::Move;
use ring::round::Round;

// A move that closes with its gain, or the best so far to go on with and its partial gain; case 0 is none. A flag beside the move, since both hold
// one, and most of what reads it reads the move alone.
#[derive(Clone, Copy)]
pub struct Sought {
    pub closed: bool,
    pub mv: Move,
}

// No leg is added that this step removed, none removed that it added.
#[tactic(auto, unfolding(crate::specs::Seeks::unbarred))]
pub fn allowed(st: &LkState, t2: Stop, mv: Move) -> bool
    requires added_bound { st.now.added_len ≤ 98 }
    requires removed_bound { st.now.removed_len ≤ 99 }
    requires t2_bound { t2.0 < 4096 }
    requires lasts { LastsIn 4096 mv }
    ensures { result ≡ unbarred (legs_in st.now.added st.now.added_len) (legs_in st.now.removed st.now.removed_len) t2.0 mv.t3.0 mv.t4.0 mv.t5.0 mv.t6.0 }
{
    !(has(&st.removed, st.removed_len, leg_word(t2, mv.t3))
        || has(&st.removed, st.removed_len, leg_word(mv.t4, mv.t5))
        || has(&st.added, st.added_len, leg_word(mv.t3, mv.t4))
        || has(&st.added, st.added_len, leg_word(mv.t5, mv.t6)))
}

// Whether a 3-opt move is better than the best so far and may be gone on with: another level is left, some t7 could keep the gain above 0, as
// the first entry of t6's near list tells, and no leg is barred.
#[tactic(auto, using(crate::proofs::MayLaws::may_is))]
pub fn goes_on(plan: &Plan, st: &LkState, deeper: bool, t2: Stop, mv: Move, floor: u32) -> bool
    requires barring { Barring plan.now st.now }
    requires t2_low { t2.0 < plan.now.matrix.n }
    requires lasts { LastsIn plan.now.matrix.n mv }
    requires le_case { 2 ≤ mv.case }
    ensures { result ≡ ltb floor mv.gain && may_at plan.now st.now deeper t2.0 (trial_in mv) }
{
    if mv.gain <= floor {
        return false;
    }
    if !deeper {
        return false;
    }
    let first = plan.near(mv.t6, 0);
    if mv.gain <= plan.dist(mv.t6, first) {
        return false;
    }
    allowed(st, t2, mv)
}

// One 3-opt move, its gain the partial one.
#[tactic(auto, using(crate::proofs::MayLaws::one_closes, crate::proofs::MayLaws::one_better, crate::proofs::MayLaws::one_stays), unfolding(crate::specs::Seeks::gain_of))]
pub fn seek_one(
    plan: &Plan,
    st: &LkState,
    deeper: bool,
    t1: Stop,
    t2: Stop,
    mv: Move,
    best: Move,
) -> Sought
    requires barring { Barring plan.now st.now }
    requires t1_low { t1.0 < plan.now.matrix.n }
    requires t2_low { t2.0 < plan.now.matrix.n }
    requires le_case { 2 ≤ mv.case }
    requires case_bound { mv.case ≤ 4 }
    requires lasts { LastsIn plan.now.matrix.n mv }
    requires lasts_best { LastsIn plan.now.matrix.n best }
    ensures { SeeksIn plan.now.matrix.n (max mv.gain best.gain) (seek_of (leg_at plan.now) t1.0 (may_at plan.now st.now deeper t2.0) (pick_in best) (trial_in mv ∷ [])) result }
{
    let d61 = plan.dist(mv.t6, t1);
    if d61 < mv.gain {
        return Sought {
            closed: true,
            mv: Move {
                gain: mv.gain - d61,
                ..mv
            },
        };
    }
    if goes_on(plan, st, deeper, t2, mv, best.gain) {
        return Sought { closed: false, mv };
    }
    Sought {
        closed: false,
        mv: best,
    }
}

// t4 before t3: t6 is ahead of t5 where that lies between t2 and t4, else behind it.
#[tactic(auto, using(crate::proofs::FifthLaws::before_one))]
pub fn seek_before(
    plan: &Plan,
    round: &Round,
    st: &LkState,
    deeper: bool,
    fwd: bool,
    g3: u32,
    t1: Stop,
    t2: Stop,
    t3: Stop,
    t4: Stop,
    t5: Stop,
    best: Move,
) -> Sought
    requires size { plan.now.matrix.n ≡ length round.now.stops.now }
    requires barring { Barring plan.now st.now }
    requires tries { Tries plan.now.matrix.n t1.0 t2.0 t3.0 t4.0 t5.0 }
    requires g3_bound { g3 ≤ 6684570 }
    requires lasts { LastsIn plan.now.matrix.n best }
    ensures { SeeksIn plan.now.matrix.n (max (g3 + 65535) best.gain) (sought_fifth (leg_at plan.now) (may_at plan.now st.now deeper t2.0) (pick_in best) fwd round.now.stops.now false t1.0 t2.0 t3.0 t4.0 t5.0 g3) result }
{
    let inside = round.between_dir(fwd, t2, t5, t4);
    let t6 = round.beside(fwd, inside, t5);
    let gain = g3 + plan.dist(t5, t6);
    let mv = Move {
        case: 2,
        gain,
        t3,
        t4,
        t5,
        t6,
    };
    seek_one(plan, st, deeper, t1, t2, mv, best)
}

// t4 after t3: only a t5 between t2 and t3; t6 is ahead of it, then behind it.
#[tactic(auto, using(crate::proofs::FifthLaws::outside, crate::proofs::FifthLaws::segment_closes, crate::proofs::FifthLaws::segment_alone, crate::proofs::FifthLaws::inner_too))]
pub fn seek_after(
    plan: &Plan,
    round: &Round,
    st: &LkState,
    deeper: bool,
    fwd: bool,
    g3: u32,
    t1: Stop,
    t2: Stop,
    t3: Stop,
    t4: Stop,
    t5: Stop,
    best: Move,
) -> Sought
    requires size { plan.now.matrix.n ≡ length round.now.stops.now }
    requires barring { Barring plan.now st.now }
    requires tries { Tries plan.now.matrix.n t1.0 t2.0 t3.0 t4.0 t5.0 }
    requires g3_bound { g3 ≤ 6684570 }
    requires lasts { LastsIn plan.now.matrix.n best }
    ensures { SeeksIn plan.now.matrix.n (max (g3 + 65535) best.gain) (sought_fifth (leg_at plan.now) (may_at plan.now st.now deeper t2.0) (pick_in best) fwd round.now.stops.now true t1.0 t2.0 t3.0 t4.0 t5.0 g3) result }
{
    let inside = round.between_dir(fwd, t2, t5, t3);
    if !inside {
        return Sought {
            closed: false,
            mv: best,
        };
    }
    let next = round.ahead(fwd, t5);
    let open = g3 + plan.dist(t5, next);
    let one = Move {
        case: 3,
        gain: open,
        t3,
        t4,
        t5,
        t6: next,
    };
    let first = seek_one(plan, st, deeper, t1, t2, one, best);
    if first.closed || t5 == t2 {
        return first;
    }
    let last = round.behind(fwd, t5);
    let other = g3 + plan.dist(t5, last);
    let two = Move {
        case: 4,
        gain: other,
        t3,
        t4,
        t5,
        t6: last,
    };
    seek_one(plan, st, deeper, t1, t2, two, first.mv)
}

// The 3-opt moves of a t5.
pub fn seek_fifth(
    plan: &Plan,
    round: &Round,
    st: &LkState,
    deeper: bool,
    fwd: bool,
    after: bool,
    g3: u32,
    t1: Stop,
    t2: Stop,
    t3: Stop,
    t4: Stop,
    t5: Stop,
    best: Move,
) -> Sought
    requires size { plan.now.matrix.n ≡ length round.now.stops.now }
    requires barring { Barring plan.now st.now }
    requires tries { Tries plan.now.matrix.n t1.0 t2.0 t3.0 t4.0 t5.0 }
    requires g3_bound { g3 ≤ 6684570 }
    requires lasts { LastsIn plan.now.matrix.n best }
    ensures { SeeksIn plan.now.matrix.n (max (g3 + 65535) best.gain) (sought_fifth (leg_at plan.now) (may_at plan.now st.now deeper t2.0) (pick_in best) fwd round.now.stops.now after t1.0 t2.0 t3.0 t4.0 t5.0 g3) result }
{
    if after {
        seek_after(plan, round, st, deeper, fwd, g3, t1, t2, t3, t4, t5, best)
    } else {
        seek_before(plan, round, st, deeper, fwd, g3, t1, t2, t3, t4, t5, best)
    }
}
