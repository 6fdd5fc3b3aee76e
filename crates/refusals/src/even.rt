// 5: the matrix is symmetric.
ghost use Rattle.std.specs.Prelude.{◌≡◌, ◌<◌};
ghost use Rattle.rules.specs.Plan.{leg_in};
ghost use Rattle.rules.specs.Numbers.{symmetric as symmetric_in};
ghost use Rattle.refusals.specs.Refusing.{row_even as row_even_of};

use legs::matrix::Matrix;

// Stop a's legs to the stops after it take as long as their return.
fn row_even(matrix: &Matrix, a: usize) -> bool
    requires { a < matrix.now.n }
    ensures { result ≡ row_even_of (leg_in matrix.now.n matrix.now.times.now) matrix.now.n a }
{
    let n = matrix.n;
    let times = matrix.times;
    let row = a * n;
    let mut back = row + n + a;
    for b in a + 1..n {
        if times[row + b] != times[back] {
            return false;
        }
        back += n;
    }
    true
}

// The matrix is symmetric, told by its upper half.
pub fn symmetric(matrix: &Matrix) -> bool
    ensures { result ≡ symmetric_in matrix.now.n (leg_in matrix.now.n matrix.now.times.now) }
{
    for a in 0..matrix.n {
        if !row_even(matrix, a) {
            return false;
        }
    }
    true
}
