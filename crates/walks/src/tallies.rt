// The numbers of a walk. What chooses between two of them is a function each: tests in place double the goals of the proof with every test.
ghost use Rattle.std.specs.Prelude.{◌≡◌, Bool, ◌&&◌, ◌||◌, ℕ, ◌+◌, ◌-◌, ◌*◌, ◌/◌, ◌<◌, ◌≤◌, max, leb, ltb, eqb};
ghost use Rattle.rules.specs.Lists.{when◌then◌else◌};
ghost use Rattle.rules.specs.Search.{margin, restart_after as restart_after_of, stop_after as stop_after_of};
ghost use Rattle.walks.specs.Walking.{over};

// The carried time, the best time, the walk's record, the kicks since that and since the best, all kicks, the units left.
#[derive(Clone, Copy)]
pub struct Tally {
    pub time: u32,
    pub best: u32,
    pub walk: u32,
    pub stale: u32,
    pub fails: u32,
    pub kicks: u32,
    pub left: u32,
}

// The lesser time.
pub fn lesser(a: u32, b: u32) -> u32
    ensures { result ≡ (when ltb a b then a else b) }
{
    if a < b { a } else { b }
}

// A count that begins anew with a record.
pub fn counted(new: bool, count: u32) -> u32
    ensures { result ≡ (when new then 0 else count) }
{
    if new { 0 } else { count }
}

// The time of what is accepted, else the old one.
pub fn carried(accept: bool, now: u32, old: u32) -> u32
    ensures { result ≡ (when accept then now else old) }
{
    if accept { now } else { old }
}

// The acceptance margin.
pub fn margin_of(time: u32, n: usize) -> u32
    requires time_bound { time ≤ 268431360 }
    requires le_n { (1 ≤ n) × (n ≤ 4096) }
    ensures { result ≡ margin n time }
{
    let w = n as u32;
    (time + 5 * w) / (10 * w)
}

// After so many kicks without a walk record a restart is due.
pub fn restart_after(n: usize) -> u32
    requires { n ≤ 4096 }
    ensures { result ≡ restart_after_of n }
{
    let w = n as u32;
    if 3 * w < 3000 { 3000 } else { 3 * w }
}

// After so many kicks without a new best the stop flag ends the search.
pub fn stop_after(n: usize) -> u32
    requires { n ≤ 4096 }
    ensures { result ≡ stop_after_of n }
{
    let w = n as u32;
    if 500 * w < 100000 { 100000 } else { 500 * w }
}

// No unit is left, or the stop flag ends it.
pub fn is_over(stop: bool, limit: u32, left: u32, fails: u32) -> bool
    ensures { result ≡ over stop limit left fails }
{
    left == 0 || stop && limit <= fails
}

// 1 where no unit is left, else 0.
pub fn ended_of(left: u32) -> u32
    ensures { result ≡ (when eqb left 0 then 1 else 0) }
{
    if left == 0 { 1 } else { 0 }
}
