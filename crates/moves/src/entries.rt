// Which stop is which.
ghost use Rattle.std.specs.Prelude.{◌≡◌, ◌||◌, eqb};

use legs::Stop;

// Whether v is a or b.
pub fn either(v: Stop, a: Stop, b: Stop) -> bool
    ensures { result ≡ eqb v.0 a.0 || eqb v.0 b.0 }
{
    v == a || v == b
}

// Whether v is a, b or c.
pub fn any_of(v: Stop, a: Stop, b: Stop, c: Stop) -> bool
    ensures { result ≡ eqb v.0 a.0 || (eqb v.0 b.0 || eqb v.0 c.0) }
{
    v == a || v == b || v == c
}
