// The time of a round and of a part of it; a leg as one word.
ghost use Rattle.std.specs.Prelude.{◌≡◌, ℕ, ◌+◌, ◌*◌, ◌<◌, ◌≤◌, length};
ghost use Rattle.rules.specs.Ring.{leg, recount, path_cost as path_cost_of};
ghost use Rattle.rules.specs.Plan.{leg_in};
ghost use Rattle.ring.specs.Legs.{leg_word, Stops, IsTime};

use crate::places::next;
use legs::Stop;
use legs::matrix::Matrix;

// The time of a round: its n legs; none for one stop.
pub fn cost(matrix: &Matrix, round: &[u32]) -> u32
    requires size { matrix.now.n ≡ length round.now }
    requires stops { Stops round.now (length round.now) }
    ensures { IsTime (length round.now) (recount (leg_in (length round.now) matrix.now.times.now) round.now) result }
{
    let n = round.len();
    if n < 2 {
        return 0;
    }
    let mut sum: u32 = 0;
    for i in 0..n {
        let a = round[i];
        let b = round[next(i, n)];
        sum += matrix.dist(Stop(a), Stop(b));
    }
    sum
}

// The time of so many legs from place start on.
pub fn path_cost(matrix: &Matrix, round: &[u32], start: usize, legs: usize) -> u32
    requires size { matrix.now.n ≡ length round.now }
    requires stops { Stops round.now (length round.now) }
    requires start_low { start < length round.now }
    requires legs_low { legs < length round.now }
    ensures { IsTime legs (path_cost_of (leg_in (length round.now) matrix.now.times.now) start legs round.now) result }
{
    let n = round.len();
    let mut sum: u32 = 0;
    let mut at = start;
    for _step in 0..legs {
        let after = next(at, n);
        sum += matrix.dist(Stop(round[at]), Stop(round[after]));
        at = after;
    }
    sum
}

// The leg between two stops as one word, the smaller stop first.
pub fn edge(a: Stop, b: Stop) -> u32
    requires a_bound { a.0 < 4096 }
    requires b_bound { b.0 < 4096 }
    ensures { result ≡ leg_word (leg a.0 b.0) }
{
    if a.0 < b.0 {
        a.0 * 4096 + b.0
    } else {
        b.0 * 4096 + a.0
    }
}
