// The continuations of a level of the Lin-Kernighan step, which change nothing.

#![tactic(auto)]

ghost use Rattle.std.specs.Prelude.{◌≡◌, ◌||◌, List, [], ◌∷◌, ℕ, ◌<◌, ◌≤◌, length};
ghost use Rattle.rules.specs.Ring.{leg};
ghost use Rattle.rules.specs.Step.{among, best};
ghost use Rattle.rules.specs.Lk.{breadth};
ghost use Rattle.lk_state.specs.Stacks.{legs_in};
ghost use Rattle.lk_scans.specs.Picked.{conts_on, Picked, Firsts, Placed, IsAt};

use legs::Stop;
use legs::plan::Plan;
use lk_state::{LkState, has, leg_word};
use moves::entries::either;
use ring::round::Round;

// A continuation: its partial gain, 0 for none, and its stops. No Option: the scans compare with the best so far, and 0 is below each.
#[derive(Clone, Copy)]
pub struct Pick {
    pub partial: u32,
    pub t3: Stop,
    pub t4: Stop,
}

// The best three, best first.
#[derive(Clone, Copy)]
pub struct Picks {
    pub a: Pick,
    pub b: Pick,
    pub c: Pick,
}

// No continuation.
const NONE: Pick = Pick {
    partial: 0,
    t3: Stop(0),
    t4: Stop(0),
};

// The breadth of the first levels; 1 beyond.
const BREADTH: [usize; 2] = [3, 1];

// How many continuations a level tries.
#[tactic(auto, using(crate::proofs::ShownLaws::breadth_in, laws::proofs::LoneLaws::breadth_one))]
pub fn lk_breadth(level: usize) -> usize
    ensures { result ≡ breadth level }
{
    if level < 2 {
        return BREADTH[level];
    }
    1
}

// A continuation put where it belongs, behind the equal ones.
#[tactic(auto, using(crate::proofs::ShownLaws::placed_1, crate::proofs::ShownLaws::placed_2, crate::proofs::ShownLaws::placed_3, crate::proofs::ShownLaws::placed_4))]
fn place_pick(ps: Picks, p: Pick) -> Picks
    requires { 0 < p.partial }
    ensures { Placed ps p result }
{
    let a = ps.a;
    let b = ps.b;
    let c = ps.c;
    if p.partial <= c.partial {
        return ps;
    }
    if p.partial <= b.partial {
        return Picks { a, b, c: p };
    }
    if p.partial <= a.partial {
        return Picks { a, b: p, c: b };
    }
    Picks { a: p, b: a, c: b }
}

// The i-th of the best three; none beyond the first level's breadth.
#[tactic(auto, using(crate::proofs::ShownLaws::breadth_first, crate::proofs::ShownLaws::at_first, crate::proofs::ShownLaws::at_second, crate::proofs::ShownLaws::at_third, crate::proofs::ShownLaws::at_none))]
pub fn pick_at(ps: Picks, i: usize) -> Pick
    ensures { IsAt ps i result }
{
    let a = ps.a;
    let b = ps.b;
    let c = ps.c;
    if lk_breadth(0) <= i {
        let mut none = a;
        none.partial = 0;
        return none;
    }
    if i == 0 {
        return a;
    }
    if i == 1 {
        return b;
    }
    c
}

// Whether the leg t2-t3 was removed or the leg t3-t4 added.
fn barred_by(st: &LkState, t2: Stop, t3: Stop, t4: Stop) -> bool
    requires added_low { st.now.added_len ≤ 98 }
    requires removed_low { st.now.removed_len ≤ 99 }
    requires t2_bound { t2.0 < 4096 }
    requires t3_bound { t3.0 < 4096 }
    requires t4_bound { t4.0 < 4096 }
    ensures { result ≡ among (legs_in st.now.removed st.now.removed_len) (leg t2.0 t3.0) || among (legs_in st.now.added st.now.added_len) (leg t3.0 t4.0) }
{
    let come = leg_word(t2, t3);
    if has(&st.removed, st.removed_len, come) {
        return true;
    }
    let gone = leg_word(t3, t4);
    has(&st.added, st.added_len, gone)
}

// The best three continuations of the first level, where no leg is barred but t1-t2.
pub fn lk_first(plan: &Plan, round: &Round, t1: Stop, t2: Stop, g: u32) -> Picks
    requires size { plan.now.matrix.n ≡ length round.now.stops.now }
    requires t1_low { t1.0 < plan.now.matrix.n }
    requires t2_low { t2.0 < plan.now.matrix.n }
    requires g_bound { g ≤ 2000000000 }
    ensures { Firsts plan.now.matrix.n g (best 3 [] (conts_on plan.now round.now [] (leg t1.0 t2.0 ∷ []) t1.0 t2.0 g)) result }
{
    let fwd = round.succ(t1) == t2;
    let t2_next = round.ahead(fwd, t2);
    let mut ps = Picks {
        a: NONE,
        b: NONE,
        c: NONE,
    };
    for i in 0..plan.near.count {
        let t3 = plan.near(t2, i);
        let d23 = plan.dist(t2, t3);
        if g <= d23 {
            break;
        }
        if either(t3, t1, t2_next) {
            continue;
        }
        let t4 = round.behind(fwd, t3);
        let partial = g - d23 + plan.dist(t3, t4);
        ps = place_pick(ps, Pick { partial, t3, t4 });
    }
    ps
}

// The best continuation of a later level.
pub fn lk_next(plan: &Plan, round: &Round, st: &LkState, t1: Stop, t2: Stop, g: u32) -> Pick
    requires size { plan.now.matrix.n ≡ length round.now.stops.now }
    requires added_low { st.now.added_len ≤ 98 }
    requires removed_low { st.now.removed_len ≤ 99 }
    requires t1_low { t1.0 < plan.now.matrix.n }
    requires t2_low { t2.0 < plan.now.matrix.n }
    requires g_bound { g ≤ 2000000000 }
    ensures { Picked plan.now.matrix.n g (best 1 [] (conts_on plan.now round.now (legs_in st.now.added st.now.added_len) (legs_in st.now.removed st.now.removed_len) t1.0 t2.0 g)) result.partial result.t3.0 result.t4.0 }
{
    let fwd = round.succ(t1) == t2;
    let t2_next = round.ahead(fwd, t2);
    let mut best = NONE;
    for i in 0..plan.near.count {
        let t3 = plan.near(t2, i);
        let d23 = plan.dist(t2, t3);
        let over = g <= d23;
        let barred = either(t3, t1, t2_next);
        if over {
            break;
        }
        if barred {
            continue;
        }
        let t4 = round.behind(fwd, t3);
        let partial = g - d23 + plan.dist(t3, t4);
        if partial <= best.partial {
            continue;
        }
        if barred_by(st, t2, t3, t4) {
            continue;
        }
        best = Pick { partial, t3, t4 };
    }
    best
}
