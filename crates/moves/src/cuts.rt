// Three cuts of the ring, and the two shorter of the paths between them.
ghost use Rattle.std.specs.Prelude.{◌≡◌, ◌&&◌, ℕ, ◌≤◌, ◌<◌, leb};
ghost use Rattle.moves.specs.Cuts.{Rising, IsWindow};

// Three places in rising order.
#[derive(Clone, Copy)]
pub struct Cuts(pub usize, pub usize, pub usize);

// Puts three places in order. By comparisons: with a sum, less the least and the greatest, it is no plainer and may overflow.
pub fn sorted(p: usize, q: usize, s: usize) -> Cuts
    ensures { Rising p q s result.0 result.1 result.2 }
{
    if p <= q {
        if q <= s {
            Cuts(p, q, s)
        } else if p <= s {
            Cuts(p, s, q)
        } else {
            Cuts(s, p, q)
        }
    } else if p <= s {
        Cuts(q, p, s)
    } else if q <= s {
        Cuts(q, s, p)
    } else {
        Cuts(s, q, p)
    }
}

// Two segments side by side: where the first begins, and their lengths.
#[derive(Clone, Copy)]
pub struct Spread {
    pub start: usize,
    pub first: usize,
    pub last: usize,
}

// Whether neither b nor c is more than a.
pub fn longest(a: usize, b: usize, c: usize) -> bool
    ensures { result ≡ leb b a && leb c a }
{
    b <= a && c <= a
}

// The two shorter of the three paths that cuts a, b and c leave of a ring of n. The longest stays: of equals the path over the ring's end,
// then the first.
pub fn window(n: usize, a: usize, b: usize, c: usize) -> Spread
    requires a_le_b { a ≤ b }
    requires b_le_c { b ≤ c }
    requires c_lt_n { c < n }
    ensures { IsWindow n a b c result.start result.first result.last }
{
    let first = b - a;
    let second = c - b;
    let third = n - (c - a);
    if longest(third, first, second) {
        return Spread {
            start: a,
            first,
            last: second,
        };
    }
    if second <= first {
        return Spread {
            start: b,
            first: second,
            last: third,
        };
    }
    Spread {
        start: c,
        first: third,
        last: first,
    }
}
