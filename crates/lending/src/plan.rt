// What a record sets up: the matrix, by its rule, and the lists.
ghost use Rattle.std.specs.Prelude.{◌≡◌, ◌≤◌};
ghost use Rattle.lending.specs.Memories.{HoldsNoMore, IsCleared};
ghost use Rattle.lending.specs.Results.{IsFresh};

use crate::memory::{Memory, STOPS, lent_mut};
use crate::range::Range;
use crate::reader::Reader;
use crate::session::{Lengths, Session, State};

// No points are farther apart along an axis, so that a leg fits 16 bits.
const FARTHEST: u16 = 32_767;

// How a matrix is made: its cells stand in the record, its legs are drawn, or its stops are points that are drawn.
#[derive(Clone, Copy)]
enum Rule {
    Stored,
    Drawn,
    Points,
}

impl Rule {
    // The rule of a number. One that is not known draws points.
    fn from_number(number: u32) -> Rule {
        match number {
            0 => Rule::Stored,
            1 => Rule::Drawn,
            _ => Rule::Points,
        }
    }
}

// How the matrix of a record is made.
#[derive(Clone, Copy)]
struct Recipe {
    rule: Rule,
    range: Range,
    diagonal: u16,
    seed: u64,
}

impl Recipe {
    fn read(record: &mut Reader) -> Recipe {
        let rule = Rule::from_number(record.word());
        let low = record.word();
        let high = record.word();
        let diagonal = record.half();
        record.skip(2);
        let seed = record.long();
        Recipe {
            rule,
            range: Range::new(low, high).unwrap_or(Range::nil()),
            diagonal,
            seed,
        }
    }

    // Makes the matrix. Its cells may stand in the record; stops past the memory for points all lie at 0.
    fn make(&self, record: &mut Reader, n: usize, matrix: &mut [u16]) {
        let n = n.min(4096);
        let Recipe {
            rule,
            range,
            diagonal,
            seed,
        } = *self;
        matrix.fill(diagonal);
        match rule {
            Rule::Stored => record.fill(matrix),
            Rule::Drawn => {
                let mut state = seed;
                put_legs(matrix, n, |_, _| range.draw(&mut state));
            }
            Rule::Points => {
                let points = draw_points(n, range, seed);
                let point = |stop: usize| points.get(stop).copied().unwrap_or(Point::default());
                put_legs(matrix, n, |a, b| point(a).way(point(b)));
            }
        }
    }
}

// Where a stop is.
#[derive(Clone, Copy, Default)]
struct Point {
    x: u16,
    y: u16,
}

impl Point {
    // The way to another along both axes, as far as each goes.
    fn way(self, other: Point) -> u16 {
        let across = self.x.abs_diff(other.x).min(FARTHEST);
        let up = self.y.abs_diff(other.y).min(FARTHEST);
        across + up
    }
}

// Writes a cell, if there is one.
fn put(matrix: &mut [u16], i: usize, time: u16) {
    if let Some(cell) = matrix.get_mut(i) {
        *cell = time;
    }
}

// Writes the leg between each two of n stops both ways, row by row.
fn put_legs<F: FnMut(usize, usize) -> u16>(matrix: &mut [u16], n: usize, mut leg: F)
    requires n_bound { n ≤ 4096 }
    requires callable { F.IsAlwaysCallable leg }
{
    for a in 0..n {
        for b in a + 1..n {
            let time = leg(a, b);
            put(matrix, a * n + b, time);
            put(matrix, b * n + a, time);
        }
    }
}

// Draws so many points, as far as there is room, x and y in turn. The others lie at 0.
fn draw_points(count: usize, range: Range, seed: u64) -> [Point; STOPS] {
    let mut state = seed;
    let mut points = [Point::default(); STOPS];
    for point in points.iter_mut().take(count) {
        let x = range.draw(&mut state);
        let y = range.draw(&mut state);
        *point = Point { x, y };
    }
    points
}

impl Session {
    // What the head of a record sets up: nobody waits, no entry is held, and the time is 0.
    fn read(record: &mut Reader) -> (Session, Recipe)
        ensures { IsFresh result.0 }
    {
        let n = record.size();
        let k = record.size();
        let ka = record.size();
        let matrix = record.size();
        let near = record.size();
        let alpha = record.size();
        let journal = record.size();
        let recipe = Recipe::read(record);
        let draw = record.long();
        let lengths = Lengths {
            matrix,
            near,
            alpha,
            round: n,
            places: n,
            queue: n,
            flags: n,
            scratch: n,
            journal,
        };
        let state = State {
            draw,
            ..State::default()
        };
        let session = Session {
            n,
            k,
            ka,
            lengths,
            state,
        };
        (session, recipe)
    }
}

// Sets up what is lent, as a record says: matrix and lists, and in all else every word is 0.
pub fn set_up(record: &mut Reader, memory: &mut Memory) -> Session
    ensures fresh { IsFresh result }
    ensures cleared { IsCleared memory.old.work memory.new.work }
{
    let (session, recipe) = Session::read(record);
    let plan = &mut memory.plan;
    let matrix = lent_mut(&mut plan.matrix, session.lengths.matrix);
    recipe.make(record, session.n, matrix);
    record.fill(lent_mut(&mut plan.near, session.lengths.near));
    record.fill(lent_mut(&mut plan.alpha, session.lengths.alpha));
    memory.work.clear();
    session
}

// The same, and what a call writes is fitted, the round aside, to what is lent of it.
pub fn set_up_fitted(record: &mut Reader, memory: &mut Memory) -> Session
    ensures fresh { IsFresh result }
    ensures no_more { HoldsNoMore memory.new.work result.lengths }
{
    let session = set_up(record, memory);
    memory.work.fit(&session.lengths);
    session
}
