// 01, "Sheets": a sheet's matrix, near list and alpha list, loaded into lent memory.

#![tactic(auto)]

ghost use Rattle.std.specs.Prelude.{◌≡◌, ℕ, ◌+◌, ◌-◌, ◌*◌, ◌%◌, ◌<◌, ◌≤◌, length, drop};
ghost use Rattle.rules.specs.Lists.{at as cell_of};
ghost use Rattle.rules.specs.Bits.{bits_of, fields};
ghost use Rattle.rules.specs.Sheets.{triangle_at, triangle_leg, matrix_of};
ghost use Rattle.sheets.specs.Sheet.{header_of};
ghost use Rattle.sheet_plan.specs.Load.{triangle_in, Loaded};

use bits::read::{read12, read16};
use sheets::sheet::Sheet;

// The leg from a to a higher b, read off the sheet's triangle.
#[tactic(auto, using(crate::proofs::LoadLaws::leg_is))]
fn leg_at(s: &[u8], n: usize, a: usize, b: usize) -> u16
    requires { (n ≤ 128) × (a < b) × (b < n) × (16 + n * (n - 1) ≤ length s.now) }
    ensures { result ≡ cell_of (triangle_in n s.now) (triangle_at n a b) }
{
    read16(s, 16 + 2 * (a * (2 * n - a - 1) / 2 + (b - a - 1)))
}

// A cell of the matrix: "a leg and its return are one".
#[tactic(auto, using(laws::proofs::TriangleLaws::leg_same, laws::proofs::TriangleLaws::leg_up, laws::proofs::TriangleLaws::leg_down))]
fn cell(s: &[u8], n: usize, a: usize, b: usize) -> u16
    requires { (n ≤ 128) × (a < n) × (b < n) × (16 + n * (n - 1) ≤ length s.now) }
    ensures { result ≡ triangle_leg n (triangle_in n s.now) a b }
{
    if a < b {
        leg_at(s, n, a, b)
    } else if b < a {
        leg_at(s, n, b, a)
    } else {
        0
    }
}

// The whole matrix, row by row. It takes bytes, as load_list does, and no Sheet: any that are long enough serve.
#[tactic(auto, using(crate::proofs::LoadLaws::matrix_filled))]
pub fn load_matrix(s: &[u8], n: usize, m: &mut [u16])
    requires { (1 ≤ n) × (n ≤ 128) × (16 + n * (n - 1) ≤ length s.now) × (length m.old ≡ n * n) }
    ensures { m.new ≡ matrix_of n (triangle_leg n (triangle_in n s.now)) }
{
    for a in 0..n {
        for b in 0..n {
            m[a * n + b] = cell(s, n, a, b);
        }
    }
}

// The entries of 12 bits from bit at on, as many as the list holds.
#[tactic(auto, using(crate::proofs::LoadLaws::list_filled))]
pub fn load_list(s: &[u8], at: usize, list: &mut [u32])
    requires { (at % 4 ≡ 0) × (at + 12 * length list.old ≤ 8 * length s.now) × (at ≤ 900000) × (length list.old ≤ 2560) }
    ensures { list.new ≡ fields 12 (length list.old) (drop at (bits_of s.now)) }
{
    for (i, entry) in list.iter_mut().enumerate() {
        *entry = u32::from(read12(s, at + 12 * i));
    }
}

// A sheet's matrix, near list and alpha list.
#[tactic(auto, unfolding(crate::specs::Load::triangle_in, rules::specs::Sheets::near_at, rules::specs::Sheets::alpha_at, rules::specs::Sheets::end_at, rules::specs::Sheets::plan_on))]
pub fn load_plan(sheet: &Sheet, m: &mut [u16], near: &mut [u32], alpha: &mut [u32])
    requires { let h = sheet.now.header in (length m.old ≡ h.n * h.n) × (length near.old ≡ h.n * h.k) × (length alpha.old ≡ h.n * h.ka) }
    ensures { Loaded (header_of sheet.now.header) sheet.now.bytes.now m.new near.new alpha.new }
{
    let h = sheet.header;
    load_matrix(sheet.bytes, h.n, m);
    load_list(sheet.bytes, h.near_at(), near);
    load_list(sheet.bytes, h.alpha_at(), alpha);
}
