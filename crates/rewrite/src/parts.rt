// Stops copied off a round, and written into it with their places.
ghost use Rattle.std.specs.Prelude.{◌≡◌, ℕ, ◌+◌, ◌<◌, ◌≤◌, ◌++◌, length, take, drop};
ghost use Rattle.rules.specs.Ring.{turn};
ghost use Rattle.rules.specs.Rewrite.{len_of as len_of_rule};
ghost use Rattle.rules.specs.SharedWords.{Is};
ghost use Rattle.ring.specs.Around.{around};
ghost use Rattle.ring.specs.Legs.{Stops};
ghost use Rattle.rewrite.specs.Writes.{writes, placings};

use ring::places::next;

// How many places there are from start to end, round the ring.
pub fn len_of(n: usize, start: usize, end: usize) -> usize
    requires n_bound { n ≤ 4096 }
    requires start_lt_n { start < n }
    requires end_lt_n { end < n }
    ensures { Is (n + 1) (len_of_rule n start end) result }
{
    if start <= end {
        end - start + 1
    } else {
        end + n - start + 1
    }
}

// Copies the stops of count places from start on, round the ring, to the front of scratch.
pub fn gather(round: &[u32], scratch: &mut [u32], start: usize, count: usize)
    requires start_in_bounds { start < length round.now }
    requires count_in_bounds { count ≤ length round.now }
    requires count_in_bounds_2 { count ≤ length scratch.old }
    ensures { scratch.new ≡ take count (turn start round.now) ++ drop count scratch.old }
{
    let n = round.len();
    let mut i = start;
    for k in 0..count {
        scratch[k] = round[i];
        i = next(i, n);
    }
}

// Writes the stops of part from place start on, round the ring, and their places. Returns the place after the last.
pub fn put(round: &mut [u32], places: &mut [u32], part: &[u32], start: usize) -> usize
    requires round_len_bound { (length round.old ≤ 4096) × (length places.old ≡ length round.old) }
    requires start_in_bounds { start < length round.old }
    requires part_in_bounds { length part.now ≤ length round.old }
    requires stops { Stops part.now (length round.old) }
    ensures is { Is (length round.old) (around (length round.old) start (length part.now)) result }
    ensures round_after { round.new ≡ writes (length round.old) start part.now round.old }
    ensures places_after { places.new ≡ placings (length round.old) start part.now places.old }
{
    let n = round.len();
    let mut i = start;
    for &v in part {
        round[i] = v;
        places[v as usize] = i as u32;
        i = next(i, n);
    }
    i
}
