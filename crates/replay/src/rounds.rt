// Cases of the start rounds and of the exact solver, run and compared with what the oracle answered. One that is too large for the lent
// memory does not agree.
use crate::case::Case;
use lending::reader::Reader;
use numbers::{Refusal, number_of};

// What lent words hold before a call: no stop and no time is it.
const LENT: u32 = 0xaaaa_aaaa;

// Whether exactly the first so many words were written since they were filled.
fn is_written(words: &[u32], first: usize) -> bool {
    let Some((written, rest)) = words.split_at_checked(first) else {
        return false;
    };
    written.iter().all(|word| *word != LENT) && rest.iter().all(|word| *word == LENT)
}

// Whether the round is as answered, or as it was filled where the answer is a refusal.
fn is_round(record: &mut Reader, case: &Case, round: &[u32]) -> bool {
    if case.number == 0 {
        record.gives(round)
    } else {
        is_written(round, 0)
    }
}

// Whether a start round's number and round are as answered.
fn start_agrees<F: FnOnce(&[u16], usize, &mut [u32]) -> Result<(), Refusal>>(
    start: F,
    record: &mut Reader,
    case: &Case,
    matrix: &[u16],
    round: &mut [u32],
) -> bool
    requires { F.IsAlwaysCallable start }
{
    round.fill(LENT);
    let answer = start(matrix, case.n, round);
    number_of(&answer) == case.number && is_round(record, case, round)
}

// Whether a case of the start rounds agrees. The blocked one's answer stands first.
pub fn start_case(record: &[u8], matrix: &mut [u16], round: &mut [u32]) -> bool {
    let mut record = Reader::new(record);
    let case = Case::read(&mut record);
    let Some(matrix) = matrix.get_mut(..case.matrix) else {
        return false;
    };
    let Some(round) = round.get_mut(..case.round) else {
        return false;
    };
    case.make_matrix(&mut record, matrix);
    start_agrees(
        start::nearest_neighbor_tour,
        &mut record,
        &case,
        matrix,
        round,
    ) && start_agrees(
        start::greedy_nearest_neighbor,
        &mut record,
        &case,
        matrix,
        round,
    )
}

// Whether a case of the exact solver agrees: its number, time, table and round.
pub fn exact_case(record: &[u8], matrix: &mut [u16], table: &mut [u32], round: &mut [u32]) -> bool {
    let mut record = Reader::new(record);
    let case = Case::read(&mut record);
    let Some(matrix) = matrix.get_mut(..case.matrix) else {
        return false;
    };
    let Some(table) = table.get_mut(..case.table) else {
        return false;
    };
    let Some(round) = round.get_mut(..case.round) else {
        return false;
    };
    case.make_matrix(&mut record, matrix);
    table.fill(LENT);
    round.fill(LENT);
    let solved = exact::solve_tsp_exact(matrix, case.n, table, round);
    number_of(&solved) == case.number
        && solved.unwrap_or(0) == case.time
        && is_written(table, case.used)
        && is_round(&mut record, &case, round)
}
