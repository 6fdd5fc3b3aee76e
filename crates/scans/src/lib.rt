// The three scans, which change nothing.

#![tactic(auto)]

ghost use Rattle.std.specs.Prelude.{◌≡◌, ℕ, ◌<◌, length};
ghost use Rattle.tries.specs.Picks.{ChosenMove};
ghost use Rattle.scans.specs.Scans.{found_on};

use legs::Stop;
use legs::plan::Plan;
use moves::entries::{any_of, either};
use moves::moves::Move;
use ring::round::Round;
use tries::{no_move, try_fifth, try_two};

// The first move that gains: t2 is next to t1 in the direction, t3 from t2's list, t4 before, then after t3, t5 from t4's list. A list's scan
// ends at the first entry whose partial gain is 0 or less.
pub fn find_move(plan: &Plan, round: &Round, fwd: bool, t1: Stop) -> Move
    requires size { plan.now.matrix.n ≡ length round.now.stops.now }
    requires t1_low { t1.0 < length round.now.stops.now }
    ensures { ChosenMove plan.now.matrix.n (found_on plan.now fwd round.now.stops.now t1.0) result }
{
    let t2 = round.ahead(fwd, t1);
    let t2_next = round.ahead(fwd, t2);
    let d12 = plan.dist(t1, t2);
    let k = plan.near.count;
    let mut chosen = no_move();
    'thirds: for i in 0..k {
        let t3 = plan.near(t2, i);
        let d23 = plan.dist(t2, t3);
        let t3_over = d12 <= d23;
        let t3_barred = either(t3, t1, t2_next);
        if t3_over {
            break 'thirds;
        }
        if t3_barred {
            continue 'thirds;
        }
        let g1 = d12 - d23;
        'sides: for side in 0..2_usize {
            let after = side == 1;
            let t4 = round.beside(fwd, after, t3);
            let g2 = g1 + plan.dist(t3, t4);
            let two = try_two(plan, after, g2, t1, t3, t4);
            if 0 < two.gain {
                chosen = two;
                break 'thirds;
            }
            let t4_succ = round.succ(t4);
            let t4_pred = round.pred(t4);
            'fifths: for j in 0..k {
                let t5 = plan.near(t4, j);
                let d45 = plan.dist(t4, t5);
                let t5_over = g2 <= d45;
                let t5_barred = any_of(t5, t1, t4_succ, t4_pred);
                if t5_over {
                    break 'fifths;
                }
                if t5_barred {
                    continue 'fifths;
                }
                let g3 = g2 - d45;
                let three = try_fifth(plan, round, fwd, after, g3, t1, t2, t3, t4, t5);
                if 0 < three.gain {
                    chosen = three;
                    break 'thirds;
                }
            }
        }
    }
    chosen
}
