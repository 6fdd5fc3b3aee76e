// 1 to 4: sizes and lengths.
ghost use Rattle.std.specs.Prelude.{◌≡◌, Bool, ◌&&◌, List, [], ◌∷◌, ℕ, ◌≤◌, length};
ghost use Rattle.rules.specs.Numbers.{verdict, long};
ghost use Rattle.numbers.specs.Numbers.{number_in};
ghost use Rattle.refusals.specs.Refusing.{size_checks, plan_long as plan_long_of, length_checks};

use numbers::Refusal;

// 1 and 2. `told` is what else 2 asks of the call.
pub fn check_sizes(n: usize, k: usize, ka: usize, told: bool) -> Result<(), Refusal>
    ensures { number_in result ≡ verdict (size_checks n k ka told) }
{
    if n < 2 {
        return Err(Refusal::Size);
    }
    if 4096 < n {
        return Err(Refusal::Size);
    }
    if k < 1 {
        return Err(Refusal::Setting);
    }
    if 20 < k {
        return Err(Refusal::Setting);
    }
    if 5 < ka {
        return Err(Refusal::Setting);
    }
    if !told {
        return Err(Refusal::Setting);
    }
    Ok(())
}

// The lengths of a matrix and of lists are what n, k and ka say.
pub fn plan_long(n: usize, k: usize, ka: usize, cells: usize, near: usize, alpha: usize) -> bool
    requires n_bound { n ≤ 4096 }
    requires k_bound { k ≤ 20 }
    requires ka_bound { ka ≤ 5 }
    ensures { result ≡ plan_long_of n k ka cells near alpha }
{
    if cells != n * n {
        return false;
    }
    if near != n * k {
        return false;
    }
    alpha == n * ka
}

// All lengths are n.
pub fn all_long(n: usize, lengths: &[usize; 6]) -> bool
    ensures { result ≡ long n lengths.now }
{
    for i in 0..6 {
        if lengths[i] != n {
            return false;
        }
    }
    true
}
