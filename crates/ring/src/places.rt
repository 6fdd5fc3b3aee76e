// Places on a ring of n.
ghost use Rattle.std.specs.Prelude.{◌≡◌, ℕ, ◌+◌, ◌<◌, ◌≤◌};
ghost use Rattle.rules.specs.Ring.{next as next_of, prev as prev_of, on_way as on_way_of};
ghost use Rattle.rules.specs.SharedWords.{Is};
ghost use Rattle.ring.specs.Around.{wrapped};

// The place after i.
pub fn next(i: usize, n: usize) -> usize
    requires { i < n }
    ensures { Is n (next_of n i) result }
{
    if i + 1 == n { 0 } else { i + 1 }
}

// The place before i.
pub fn prev(i: usize, n: usize) -> usize
    requires { i < n }
    ensures { Is n (prev_of n i) result }
{
    if i == 0 { n - 1 } else { i - 1 }
}

// The place that x, below twice n, is.
pub fn wrap(x: usize, n: usize) -> usize
    requires { x < n + n }
    ensures { Is n (wrapped n x) result }
{
    if x < n { x } else { x - n }
}

// Place b lies on the way forward from a to c, ends included.
pub fn on_way(a: u32, b: u32, c: u32) -> bool
    ensures { result ≡ on_way_of a b c }
{
    if a <= c {
        a <= b && b <= c
    } else {
        a <= b || b <= c
    }
}
