// What a sheet's lists are refused for: 6.
ghost use Rattle.std.specs.Prelude.{◌≡◌, ℕ, ◌+◌, ◌*◌, ◌%◌, ◌≤◌, length, drop};
ghost use Rattle.rules.specs.Bits.{bits_of, fields};
ghost use Rattle.rules.specs.Plan.{list_in};
ghost use Rattle.rules.specs.Numbers.{good_list};
ghost use Rattle.sheets.specs.Sheet.{header_of, good_row, good_lists};

use crate::sheet::Sheet;
use bits::read::read12;

// The k entries of stop v, 12 bits each from bit at on, are below n, and none is v. It takes bytes and sizes, and no Sheet: any may be asked.
pub fn row_good(s: &[u8], at: usize, n: usize, k: usize, v: usize) -> bool
    requires { (at % 4 ≡ 0) × (at + 12 * k ≤ 8 * length s.now) × (at ≤ 1000000) × (k ≤ 20) }
    ensures { result ≡ good_row n v (fields 12 k (drop at (bits_of s.now))) }
{
    (0..k).all(|j| {
        let e = usize::from(read12(s, at + 12 * j));
        e < n && e != v
    })
}

// The lists of n stops, k entries each.
pub fn list_good(s: &[u8], at: usize, n: usize, k: usize) -> bool
    requires { (at % 4 ≡ 0) × (at + 12 * (n * k) ≤ 8 * length s.now) × (at ≤ 900000) × (n ≤ 128) × (k ≤ 20) }
    ensures { result ≡ good_list n (list_in k (fields 12 (n * k) (drop at (bits_of s.now)))) }
{
    (0..n).all(|v| row_good(s, at + 12 * (v * k), n, k, v))
}

impl Sheet<'_> {
    // Near and alpha lists.
    #[tactic(auto, unfolding(crate::specs::Sheet::good_lists, rules::specs::Sheets::near_at, rules::specs::Sheets::alpha_at, rules::specs::Sheets::end_at, rules::specs::Sheets::plan_on, rules::specs::Plan::near_of, rules::specs::Plan::alpha_of))]
    pub fn lists_good(&self) -> bool
        ensures { result ≡ good_lists (header_of self.now.header) self.now.bytes.now }
    {
        let h = self.header;
        list_good(self.bytes, h.near_at(), h.n, h.k)
            && list_good(self.bytes, h.alpha_at(), h.n, h.ka)
    }
}
