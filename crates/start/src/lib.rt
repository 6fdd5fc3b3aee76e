// The start round, by blocks and by plain scans: from stop 0, always on to the nearest stop left.

#![tactic(auto)]

ghost use Rattle.std.specs.Prelude.{◌≡◌, ◌<◌, ◌≤◌, length};
ghost use Rattle.rules.specs.Lists.{at};
ghost use Rattle.rules.specs.Plan.{leg_in};
ghost use Rattle.rules.specs.Start.{start_round};
ghost use Rattle.rules.specs.Numbers.{start_number};
ghost use Rattle.numbers.specs.Numbers.{number_in};
ghost use Rattle.start.specs.Mask.{Mask, Left, Blank, masked};
ghost use Rattle.start.specs.Near.{Nearest, Lowest, Hit, First};
ghost use Rattle.start.specs.Started.{Started};

use legs::Stop;
use legs::matrix::Matrix;
use numbers::Refusal;

// What the legs from one stop take, and the mask of the stops: 65535 at those that were visited, 0 at those that are left.
#[derive(Clone, Copy)]
struct Row<'a> {
    times: &'a [u16],
    mask: &'a [u16],
    ghost fits: { Mask (length times.now) mask.now },
}

impl<'a> Row<'a> {
    // What the leg to a stop takes, and 65535 where it was visited.
    #[tactic(auto, unfolding(crate::specs::Mask::masked))]
    fn time(&self, stop: usize) -> u16
        requires { stop < length self.now.times.now }
        ensures { result ≡ masked self.now.times.now self.now.mask.now stop }
    {
        self.times[stop] | self.mask[stop]
    }

    // The least of a block, from stop i on and before stop e.
    fn lowest(&self, i: usize, e: usize) -> u16
        requires i_le_e { i ≤ e }
        requires e_in_bounds { e ≤ length self.now.times.now }
        ensures { Lowest (masked self.now.times.now self.now.mask.now) i e result }
    {
        let mut best: u16 = 65535;
        for j in i..e {
            best = best.min(self.time(j));
        }
        best
    }

    // The first stop of a block that is at v, which there is.
    fn first_at(&self, i: usize, e: usize, v: u16) -> Stop
        requires e_in_bounds { e ≤ length self.now.times.now }
        requires hit { Hit (masked self.now.times.now self.now.mask.now) i e v }
        ensures { First (masked self.now.times.now self.now.mask.now) i e v result.0 }
    {
        for j in i..e {
            if self.time(j) == v {
                return Stop(j as u32);
            }
        }
        unreachable!()
    }

    // The first stop left, which there is.
    fn first_left(&self) -> Stop
        requires { Left (length self.now.times.now) self.now.mask.now }
        ensures { First (at self.now.mask.now) 0 (length self.now.times.now) 0 result.0 }
    {
        let left = self.mask.iter().position(|flag| *flag == 0);
        Stop(left.unwrap() as u32)
    }
}

// A way to find the nearest stop left.
trait Scan {
    fn nearest(row: &Row) -> Stop
        requires { Left (length row.now.times.now) row.now.mask.now }
        ensures { Nearest (at row.now.times.now) (length row.now.times.now) row.now.mask.now result.0 };
}

// By one scan.
struct Plain;

impl Scan for Plain {
    fn nearest(row: &Row) -> Stop {
        let mut best: u32 = 65536;
        let mut so = 0;
        for (j, time) in row.times.iter().enumerate() {
            if row.mask[j] == 0 {
                let d = *time as u32;
                if d < best {
                    best = d;
                    so = j as u32;
                }
            }
        }
        Stop(so)
    }
}

// By blocks of 64: visited stops are masked to 65535, so the first of the first block that has the least of all is the nearest.
struct Blocked;

impl Scan for Blocked {
    fn nearest(row: &Row) -> Stop {
        let n = row.times.len();
        let mut best: u16 = 65535;
        let mut start = 0;
        let mut end = 0;
        let mut i = 0;
        // A `for` over numbered blocks was tried: at n 1000 it takes a fifth longer.
        while i < n {
            let e = n.min(i + 64);
            let least = row.lowest(i, e);
            if least < best {
                best = least;
                start = i;
                end = e;
            }
            i = e;
        }
        if best == 65535 {
            return row.first_left();
        }
        row.first_at(start, end, best)
    }
}

// Writes the start round, over a mask of zeros.
fn walk<S: Scan>(matrix: Matrix<'_>, mask: &mut [u16], round: &mut [u32])
    requires some { 1 ≤ matrix.n }
    requires blank { Blank matrix.n mask.old }
    requires round_len { length round.old ≡ matrix.n }
    ensures { round.new ≡ start_round (leg_in matrix.entry.n matrix.entry.times.now) matrix.entry.n }
{
    mask[0] = 65535;
    round[0] = 0;
    let mut last = Stop(0);
    for i in 1..matrix.n {
        let from = last.0 as usize * matrix.n;
        let row = Row {
            times: &matrix.times[from..from + matrix.n],
            mask: &mask[..],
        };
        last = S::nearest(&row);
        mask[last.0 as usize] = 65535;
        round[i] = last.0;
    }
}

// Refuses what the start round can't be made of.
fn check(matrix: &[u16], n: usize, round: &[u32]) -> Result<(), Refusal>
    ensures { number_in result ≡ start_number n matrix.now round.now }
{
    if n < 1 || n > 4096 {
        return Err(Refusal::Size);
    }
    if matrix.len() != n * n || round.len() != n {
        return Err(Refusal::Length);
    }
    Ok(())
}

// The checks, the mask, the walk.
fn start<S: Scan>(matrix: &[u16], n: usize, round: &mut [u32]) -> Result<(), Refusal>
    ensures { Started matrix.now n round.old round.new (number_in result) }
{
    check(matrix, n, round)?;
    let mut mask = [0; 4096];
    walk::<S>(Matrix { n, times: matrix }, &mut mask, round);
    Ok(())
}

// The start round by blocks of 64.
pub fn nearest_neighbor_tour(matrix: &[u16], n: usize, round: &mut [u32]) -> Result<(), Refusal>
    ensures { Started matrix.now n round.old round.new (number_in result) }
{
    start::<Blocked>(matrix, n, round)
}

// The start round by plain scans.
pub fn greedy_nearest_neighbor(matrix: &[u16], n: usize, round: &mut [u32]) -> Result<(), Refusal>
    ensures { Started matrix.now n round.old round.new (number_in result) }
{
    start::<Plain>(matrix, n, round)
}
