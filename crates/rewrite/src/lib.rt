// The three ways to rewrite a round and its places: reversal, rotation, swap. They take the two slices as they are lent: a struct of two loans
// out of another struct, as `journal` would have to pass one, gets no proof in this Rattle.

#![tactic(auto)]

ghost use Rattle.std.specs.Prelude.{◌≡◌, ℕ, ◌+◌, ◌<◌, ◌≤◌, length};
ghost use Rattle.rules.specs.Rewrite.{reverse_at, rotate_at, swap_at};
ghost use Rattle.rules.specs.SharedWords.{Tied};
ghost use Rattle.rewrite.specs.Rewritten.{Rewritten, Took};

use crate::parts::{gather, len_of, put};
use ring::places::{next, prev, wrap};

pub mod parts;

// The places that a reversal takes.
#[derive(Clone, Copy)]
pub struct Span {
    pub start: usize,
    pub len: usize,
}

// Exchanges the stops of places i and j.
pub fn swap_raw(round: &mut [u32], places: &mut [u32], i: usize, j: usize)
    requires tied { Tied round.old places.old }
    requires i_low { i < length round.old }
    requires j_low { j < length round.old }
    ensures { Rewritten (swap_at i j round.old) round.new places.new }
{
    let a = round[i];
    let b = round[j];
    round[i] = b;
    round[j] = a;
    let at_a = a as usize;
    let at_b = b as usize;
    places[at_b] = i as u32;
    places[at_a] = j as u32;
}

// Reverses len places from start on, round the ring.
pub fn reverse_positions(round: &mut [u32], places: &mut [u32], start: usize, len: usize)
    requires tied { Tied round.old places.old }
    requires start_low { start < length round.old }
    requires len_low { len ≤ length round.old }
    ensures { Rewritten (reverse_at start len round.old) round.new places.new }
{
    if len < 2 {
        return;
    }
    let n = round.len();
    let mut i = start;
    let mut j = wrap(start + len - 1, n);
    for _pair in 0..len / 2 {
        swap_raw(round, places, i, j);
        i = next(i, n);
        j = prev(j, n);
    }
}

// The places from start to end, or the others where twice the length exceeds n.
pub fn stretch_of(round: &[u32], places: &[u32], start: usize, end: usize) -> Span
    requires tied { Tied round.now places.now }
    requires start_low { start < length round.now }
    requires end_low { end < length round.now }
    ensures { Took round.now start end result.start result.len }
{
    let n = round.len();
    let len = len_of(n, start, end);
    if n < 2 * len {
        return Span {
            start: next(end, n),
            len: n - len,
        };
    }
    Span { start, len }
}

// Reverses from start to end, round the ring, or the others. Returns the places taken.
pub fn reverse_tour(round: &mut [u32], places: &mut [u32], start: usize, end: usize) -> Span
    requires tied { Tied round.old places.old }
    requires start_low { start < length round.old }
    requires end_low { end < length round.old }
    ensures took { Took round.old start end result.start result.len }
    ensures rewritten { Rewritten (reverse_at result.start result.len round.old) round.new places.new }
{
    let span = stretch_of(round, places, start, end);
    reverse_positions(round, places, span.start, span.len);
    span
}

// Segments X, Y and Z of a, b and c places from start on, round the ring, become Z Y X.
pub fn rotate_segments(
    round: &mut [u32],
    places: &mut [u32],
    scratch: &mut [u32],
    start: usize,
    a: usize,
    b: usize,
    c: usize,
)
    requires tied { Tied round.old places.old }
    requires start_low { start < length round.old }
    requires segments_low { a + b + c ≤ length round.old }
    requires scratch_fits { length scratch.old ≡ length round.old }
    ensures { Rewritten (rotate_at start a b c round.old) round.new places.new }
{
    let ab = a + b;
    let total = ab + c;
    gather(round, scratch, start, total);
    let i = put(round, places, &scratch[ab..total], start);
    let j = put(round, places, &scratch[a..ab], i);
    put(round, places, &scratch[..a], j);
}
