// The public functions for tests and benchmarks that are no Rattle: each with its own promise, and nothing more.

#![tactic(auto)]

ghost use Rattle.start.specs.Started.{Started};
ghost use Rattle.exact.specs.Promise.{Solve};

mod calls;

use numbers::number_of;

// The start round by blocks.
#[unsafe(no_mangle)]
pub extern "C" fn probe_nearest_neighbor_tour(matrix: &[u16], n: usize, round: &mut [u32]) -> u32
    ensures { Started matrix.now n round.old round.new result }
{
    number_of(&start::nearest_neighbor_tour(matrix, n, round))
}

// The start round by plain scans.
#[unsafe(no_mangle)]
pub extern "C" fn probe_greedy_nearest_neighbor(matrix: &[u16], n: usize, round: &mut [u32]) -> u32
    ensures { Started matrix.now n round.old round.new result }
{
    number_of(&start::greedy_nearest_neighbor(matrix, n, round))
}

// The exact round: the number is returned, and the round's time is left in `time`.
#[unsafe(no_mangle)]
pub extern "C" fn probe_solve_tsp_exact(
    matrix: &[u16],
    n: usize,
    table: &mut [u32],
    round: &mut [u32],
    time: &mut u32,
) -> u32
    ensures { Solve matrix.now n table.old table.new round.old round.new result time.new }
{
    let solved = exact::solve_tsp_exact(matrix, n, table, round);
    *time = solved.unwrap_or(0);
    number_of(&solved)
}
