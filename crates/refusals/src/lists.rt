// 6: lists hold stops, none its own.
ghost use Rattle.std.specs.Prelude.{◌≡◌, ℕ, ◌*◌, ◌<◌, ◌≤◌, length};
ghost use Rattle.rules.specs.Plan.{list_in};
ghost use Rattle.rules.specs.Numbers.{good_list};
ghost use Rattle.refusals.specs.Refusing.{good_entries};

// The list of stop v, `count` entries, holds stops below n other than v.
fn entries_good(entries: &[u32], count: usize, n: usize, v: usize) -> bool
    requires n_bound { n ≤ 4096 }
    requires count_bound { count ≤ 20 }
    requires entries_len { length entries.now ≡ n * count }
    requires v_lt_n { v < n }
    ensures { result ≡ good_entries n v (list_in count entries.now v) }
{
    let first = v * count;
    for i in 0..count {
        let e = entries[first + i] as usize;
        if n <= e {
            return false;
        }
        if e == v {
            return false;
        }
    }
    true
}

// Every list holds stops below n other than its own.
pub fn list_good(entries: &[u32], count: usize, n: usize) -> bool
    requires n_bound { n ≤ 4096 }
    requires count_bound { count ≤ 20 }
    requires entries_len { length entries.now ≡ n * count }
    ensures { result ≡ good_list n (list_in count entries.now) }
{
    for v in 0..n {
        if !entries_good(entries, count, n, v) {
            return false;
        }
    }
    true
}
