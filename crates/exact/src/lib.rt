// The exact round: the subset table, and the walk back through it. Row s of the table is for a set of the stops 1 to n-1, stop k in it
// where bit k-1 of s is set; its word of stop k is what the cheapest walk from k through the others of the set and home takes.

#![tactic(auto)]

ghost use Rattle.std.specs.Prelude.{◌≡◌, ◌+◌, ◌-◌, ◌*◌, ◌^◌, ◌<◌, ◌≤◌, length};
ghost use Rattle.std.specs.Iterator.{at_most};
ghost use Rattle.rules.specs.Plan.{leg_in};
ghost use Rattle.rules.specs.Table.{members};
ghost use Rattle.rules.specs.Calls.{table_left};
ghost use Rattle.rules.specs.Numbers.{exact_number};
ghost use Rattle.laws.proofs.OnwardLaws.{onward};
ghost use Rattle.numbers.specs.Numbers.{number_in};
ghost use Rattle.exact.specs.Inner.{Sized, Words, Next, Via, Row, Put, Choice, Walked};
ghost use Rattle.exact.specs.Promise.{Solve, time_in};

use legs::Stop;
use legs::matrix::Matrix;
use numbers::Refusal;

// The stops of a set, the lowest first.
#[derive(Drop)]
struct Stops {
    left: usize,
    ghost few: { left < 2 ^ 24 },
}

impl Iterator for Stops {
    type Item = Stop;

    ghost next_gives = { λ s r t. Next s.left r t.left };

    ghost remaining = { λ s. at_most s.left };

    fn next(&mut self) -> Option<Stop> {
        if self.left == 0 {
            return None;
        }
        let lowest = Stop(self.left.trailing_zeros() + 1);
        self.left &= self.left - 1;
        Some(lowest)
    }
}

// The set of one stop.
fn alone(k: Stop) -> usize
    requires { (1 ≤ k.0) × (k.0 ≤ 24) }
    ensures { result ≡ 2 ^ (k.0 - 1) }
{
    1 << (k.0 - 1)
}

// The table, with the rows of the sets below `sets`.
#[derive(Clone, Copy)]
struct Table<'a> {
    matrix: Matrix<'a>,
    words: &'a [u32],
    sets: usize,
    ghost sized: { Sized matrix.n matrix.times.now words.now },
    ghost few: { sets ≤ 2 ^ (matrix.n - 1) },
    ghost right: { Words matrix.times.now matrix.n words.now sets },
}

impl<'a> Table<'a> {
    // What a walk takes that goes on from stop a to stop j of a set, and then the cheapest way through the others of the set and home.
    fn via(&self, set: usize, a: Stop, j: Stop) -> u32
        requires there { set < self.now.sets }
        requires stops { (a.0 < self.now.matrix.n) × (1 ≤ j.0) × (j.0 < self.now.matrix.n) }
        ensures { Via self.now.matrix.times.now self.now.matrix.n set a.0 j.0 result }
    {
        let i = set * (self.matrix.n - 1) + (j.0 as usize - 1);
        self.matrix.dist(a, j) + self.words[i]
    }

    // What the cheapest walk from stop k through the stops of a set and home takes, by the set's row.
    fn cheapest(&self, set: usize, k: Stop) -> u32
        requires there { set < self.now.sets }
        requires stop { k.0 < self.now.matrix.n }
        ensures { result ≡ onward (leg_in self.now.matrix.n self.now.matrix.times.now) k.0 (members (self.now.matrix.n - 1) set) }
    {
        if set == 0 {
            return self.matrix.dist(k, Stop(0));
        }
        let mut least: u32 = 2147483647;
        for j in (Stops { left: set }) {
            let time = self.via(set, k, j);
            if time < least {
                least = time;
            }
        }
        least
    }

    // The next row, by those that are there. Stops that are not in the set keep 2147483647.
    fn next_row(&self) -> [u32; 24]
        requires { self.now.sets < 2 ^ (self.now.matrix.n - 1) }
        ensures { Row self.now.matrix.times.now self.now.matrix.n self.now.sets result }
    {
        let mut row = [2147483647u32; 24];
        for k in (Stops { left: self.sets }) {
            let others = self.sets - alone(k);
            row[k.0 as usize - 1] = self.cheapest(others, k);
        }
        row
    }

    // The stop to go to from stop last where a set is left: the lowest of those by which the cheapest walk goes.
    fn choose(&self, set: usize, last: Stop) -> Stop
        requires some { 0 < set }
        requires there { set < self.now.sets }
        requires stop { last.0 < self.now.matrix.n }
        ensures { Choice self.now.matrix.times.now self.now.matrix.n set last.0 result.0 }
    {
        let mut stops = Stops { left: set };
        let mut k = stops.next().unwrap();
        let mut best = self.via(set, last, k);
        for j in stops {
            let time = self.via(set, last, j);
            if time < best {
                best = time;
                k = j;
            }
        }
        k
    }

    // Walks back through the table that has all rows: writes the round, and returns its time.
    fn walk_back(&self, round: &mut [u32]) -> u32
        requires all { self.now.sets ≡ 2 ^ (self.now.matrix.n - 1) }
        requires round_len { length round.old ≡ self.now.matrix.n }
        ensures { Walked self.now.matrix.times.now self.now.matrix.n round.new result }
    {
        round[0] = 0;
        let mut left = self.sets - 1;
        let mut last = Stop(0);
        let mut time: u32 = 0;
        for i in 1..self.matrix.n {
            let k = self.choose(left, last);
            time += self.matrix.dist(last, k);
            round[i] = k.0;
            left -= alone(k);
            last = k;
        }
        let home = self.matrix.dist(last, Stop(0));
        time + home
    }
}

// Writes a row where a part of the table begins.
fn put_row(part: &mut [u32], row: &[u32])
    requires { length row.now ≤ length part.old }
    ensures { Put part.old row.now part.new }
{
    part[..row.len()].copy_from_slice(row);
}

// Fills the table, set by set: each set's row is written into the table where it begins.
fn fill(matrix: Matrix<'_>, table: &mut [u32])
    requires { Sized matrix.n matrix.times.now table.old }
    ensures { table.new ≡ table_left matrix.entry.n matrix.entry.times.now table.old }
{
    let m = matrix.n - 1;
    for s in 0..1 << m {
        let done = Table {
            matrix,
            words: &table[..],
            sets: s,
        };
        let row = done.next_row();
        put_row(&mut table[s * m..], &row[..m]);
    }
}

// Fills the table and walks back through it, for two stops or more.
fn run(matrix: Matrix<'_>, table: &mut [u32], round: &mut [u32]) -> u32
    requires sized { Sized matrix.n matrix.times.now table.old }
    requires round_len { length round.old ≡ matrix.n }
    ensures filled { table.new ≡ table_left matrix.entry.n matrix.entry.times.now table.old }
    ensures walked { Walked matrix.entry.times.now matrix.entry.n round.new result }
{
    fill(matrix, table);
    let full = Table {
        matrix,
        words: &table[..],
        sets: 1 << (matrix.n - 1),
    };
    full.walk_back(round)
}

// Refuses what no exact round can be made of.
fn check(matrix: &[u16], n: usize, table: &[u32], round: &[u32]) -> Result<(), Refusal>
    ensures { number_in result ≡ exact_number n matrix.now round.now table.now }
{
    if n < 1 || n > 25 {
        return Err(Refusal::Size);
    }
    if matrix.len() != n * n || round.len() != n {
        return Err(Refusal::Length);
    }
    if table.len() < (1 << (n - 1)) * (n - 1) {
        return Err(Refusal::Room);
    }
    Ok(())
}

// The first, in dictionary order, of the cheapest rounds from stop 0, for 1 to 25 stops, and its time. The table is lent 2^(n-1) times
// (n-1) words or more: a round of one stop takes 0, and its table has no words.
#[tactic(auto, using(crate::proofs::Numbers::ready))]
pub fn solve_tsp_exact(
    matrix: &[u16],
    n: usize,
    table: &mut [u32],
    round: &mut [u32],
) -> Result<u32, Refusal>
    ensures { Solve matrix.now n table.old table.new round.old round.new (number_in result) (time_in result) }
{
    check(matrix, n, table, round)?;
    if n == 1 {
        round[0] = 0;
        return Ok(0);
    }
    Ok(run(Matrix { n, times: matrix }, table, round))
}
