// What a kick draws before it moves stops.
ghost use Rattle.std.specs.Prelude.{◌≡◌, ◌≤◌};
ghost use Rattle.rules.specs.Kicks.{kind_at as kind_at_of};
ghost use Rattle.kicks.specs.Drawing.{Longest, Middle, CutDrawn, BridgeDrawn};
ghost use Rattle.kicks.specs.Kinds.{kick_number};

use crate::kinds::KickKind;
use draws::draw;
use legs::Place;

// Segments X, Y and Z of a, b and c places from start on.
#[derive(Clone, Copy)]
pub struct Cut {
    pub start: Place,
    pub a: usize,
    pub b: usize,
    pub c: usize,
}

// The longest segment: 200, or a third of the other stops.
#[tactic(auto, unfolding(rules::specs::Kicks::longest))]
fn longest(n: usize) -> u32
    requires le_n { 2 ≤ n }
    requires n_bound { n ≤ 4096 }
    ensures { Longest n result }
{
    ((n - 1) / 3).min(200) as u32
}

// The kind that is carried out, by its number: where a segment is too short, a global kick.
#[tactic(auto, unfolding(rules::specs::Kicks::kind_at))]
pub fn kind_at(n: usize, kind: u32) -> u32
    requires le_n { 2 ≤ n }
    requires n_bound { n ≤ 4096 }
    ensures { result ≡ kind_at_of n kind }
{
    if longest(n) < 2 { 2 } else { kind }
}

// The same of a kind that was read.
pub fn kick_kind_at(n: usize, kind: KickKind) -> KickKind
    requires le_n { 2 ≤ n }
    requires n_bound { n ≤ 4096 }
    ensures { kick_number result ≡ kind_at_of n (kick_number kind) }
{
    KickKind::of(kind_at(n, kind.number()))
}

// The length of Y: none in a swap kick, and none is drawn.
fn draw_middle(state: &mut u64, kind: KickKind, high: u32) -> u32
    requires { 1 ≤ high }
    ensures { Middle (kick_number kind) high state.old state.new result }
{
    if kind == KickKind::Bridge {
        draw(state, 1, high)
    } else {
        0
    }
}

// Draws a segment kick: a, b, c, start.
pub fn draw_cut(state: &mut u64, n: usize, kind: KickKind) -> Cut
    requires le_n { 2 ≤ n }
    requires n_bound { n ≤ 4096 }
    requires kind_bound { kick_number kind ≤ 1 }
    requires kind_value { kind_at_of n (kick_number kind) ≡ kick_number kind }
    ensures { CutDrawn n (kick_number kind) state.old state.new result }
{
    let high = longest(n);
    let a = draw(state, 1, high);
    let b = draw_middle(state, kind, high);
    let c = draw(state, 1, high);
    let start = draw(state, 0, (n - 1) as u32);
    Cut {
        start: Place(start),
        a: a as usize,
        b: b as usize,
        c: c as usize,
    }
}

// Draws a double bridge: the lengths of A, B and C. D is the rest, and B, C, D are the segments.
#[tactic(auto, using(laws::proofs::KickKindLaws::bridge_drawn))]
pub fn draw_bridge(state: &mut u64, n: usize) -> Cut
    requires le_n { 8 ≤ n }
    requires n_bound { n ≤ 4096 }
    ensures { BridgeDrawn n state.old state.new result }
{
    let high = (n / 4) as u32;
    let la = draw(state, 1, high);
    let lb = draw(state, 1, high);
    let lc = draw(state, 1, high);
    let a = lb as usize;
    let b = lc as usize;
    Cut {
        start: Place(la),
        a,
        b,
        c: n - (la as usize + a + b),
    }
}
