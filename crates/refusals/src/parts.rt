// 1 to 6, by the matrix, the lists, and the lengths of what else is lent.
ghost use Rattle.std.specs.Prelude.{◌≡◌, [], ◌∷◌, ◌*◌, ◌≤◌, length};
ghost use Rattle.rules.specs.Numbers.{verdict};
ghost use Rattle.rules.specs.SharedWords.{Square};
ghost use Rattle.numbers.specs.Numbers.{number_in};
ghost use Rattle.refusals.specs.Refusing.{length_checks, list_checks, lent_number as lent_number_of};

use crate::even::symmetric;
use crate::lists::list_good;
use crate::sizes::{all_long, check_sizes, plan_long};
use legs::matrix::Matrix;
use numbers::{Refusal, number_of};

// 3 and 4: a length is not what n, k and ka say, or the journal, of so many words, has too little room.
fn check_lengths(
    n: usize,
    k: usize,
    ka: usize,
    cells: usize,
    near: usize,
    alpha: usize,
    lengths: &[usize; 6],
    words: usize,
) -> Result<(), Refusal>
    requires n_bound { n ≤ 4096 }
    requires k_bound { k ≤ 20 }
    requires ka_bound { ka ≤ 5 }
    ensures { number_in result ≡ verdict (length_checks n k ka cells near alpha lengths.now words) }
{
    let plan = plan_long(n, k, ka, cells, near, alpha);
    if !plan {
        return Err(Refusal::Length);
    }
    if !all_long(n, lengths) {
        return Err(Refusal::Length);
    }
    if words / 5 < 512 {
        return Err(Refusal::Room);
    }
    Ok(())
}

// 5 and 6: the matrix is not symmetric, or a list holds what is no other stop.
fn check_lists(
    n: usize,
    k: usize,
    ka: usize,
    times: &[u16],
    near: &[u32],
    alpha: &[u32],
) -> Result<(), Refusal>
    requires square { Square times.now n }
    requires k_bound { (k ≤ 20) × (length near.now ≡ n * k) }
    requires ka_bound { (ka ≤ 5) × (length alpha.now ≡ n * ka) }
    ensures { number_in result ≡ verdict (list_checks n k ka times.now near.now alpha.now) }
{
    let matrix = Matrix { n, times };
    if !symmetric(&matrix) {
        return Err(Refusal::Asymmetric);
    }
    if !list_good(near, k, n) {
        return Err(Refusal::Entry);
    }
    if !list_good(alpha, ka, n) {
        return Err(Refusal::Entry);
    }
    Ok(())
}

// 1 to 6. `lengths` are those of what has n elements, `words` is the journal's, `told` what else 2 asks.
pub fn check_by_lengths(
    n: usize,
    k: usize,
    ka: usize,
    times: &[u16],
    near: &[u32],
    alpha: &[u32],
    lengths: &[usize; 6],
    words: usize,
    told: bool,
) -> Result<(), Refusal>
    ensures { number_in result ≡ lent_number_of n k ka times.now near.now alpha.now lengths.now words told }
{
    check_sizes(n, k, ka, told)?;
    check_lengths(
        n,
        k,
        ka,
        times.len(),
        near.len(),
        alpha.len(),
        lengths,
        words,
    )?;
    check_lists(n, k, ka, times, near, alpha)
}

// Its number, by the lengths of the round, the places, the queue, the flags, the scratch and one more, and the journal's.
pub fn lent_number(
    n: usize,
    k: usize,
    ka: usize,
    matrix: &[u16],
    near: &[u32],
    alpha: &[u32],
    round: usize,
    places: usize,
    queue: usize,
    flags: usize,
    scratch: usize,
    more: usize,
    words: usize,
    told: bool,
) -> u32
    ensures { result ≡ lent_number_of n k ka matrix.now near.now alpha.now (round ∷ places ∷ queue ∷ flags ∷ scratch ∷ more ∷ []) words told }
{
    let lengths = [round, places, queue, flags, scratch, more];
    let checked = check_by_lengths(n, k, ka, matrix, near, alpha, &lengths, words, told);
    number_of(&checked)
}
