// What number 7 asks of lent memory: each check says true exactly where the rule does.

#![tactic(auto)]

ghost use Rattle.std.specs.Prelude.{◌≡◌, ◌&&◌, [], ℕ, ◌+◌, ◌*◌, ◌<◌, ◌≤◌, leb, eqb, length, take};
ghost use Rattle.rules.specs.Lists.{at, same};
ghost use Rattle.rules.specs.Ring.{places_of, is_round as is_round_of, recount};
ghost use Rattle.rules.specs.Queue.{waiting, flags_of};
ghost use Rattle.rules.specs.Journal.{in_range, entry_at, good_journal};
ghost use Rattle.rules.specs.Plan.{leg_in};
ghost use Rattle.rules.specs.Numbers.{agree};
ghost use Rattle.ring.specs.Legs.{Stops};
ghost use Rattle.checks.specs.Marks.{Marked};

use journal::kinds::Kind;
use legs::matrix::Matrix;
use ring::places::next;
use ring::times::cost;

// The round holds each stop once, and the places are its inverse.
pub fn round_good(round: &[u32], places: &[u32]) -> bool
    requires round_len_bound { length round.now ≤ 4096 }
    requires places_len { length places.now ≡ length round.now }
    ensures { result ≡ (is_round_of (length round.now) round.now && same places.now (places_of round.now)) }
{
    let n = round.len();
    for i in 0..n {
        let v = round[i] as usize;
        if n <= v {
            return false;
        }
        if places[v] as usize != i {
            return false;
        }
        let p = places[i] as usize;
        if n <= p {
            return false;
        }
        if round[p] as usize != i {
            return false;
        }
    }
    true
}

// Marks the stops that wait. False where one is n or more, or is marked already.
fn mark_waiting(queue: &[u32], marks: &mut [u8], head: usize, count: usize) -> bool
    requires queue_in_bounds { length queue.now ≤ length marks.old }
    requires marks_value { take (length queue.now) marks.old ≡ flags_of (length queue.now) [] }
    requires head_in_bounds { head < length queue.now }
    requires count_in_bounds { count ≤ length queue.now }
    ensures { Marked (length queue.now) (waiting queue.now head count) result marks.new }
{
    let n = queue.len();
    let mut at = head;
    for _step in 0..count {
        let v = queue[at] as usize;
        if n <= v {
            return false;
        }
        if marks[v] != 0 {
            return false;
        }
        marks[v] = 1;
        at = next(at, n);
    }
    true
}

// The round holds each stop once.
pub fn is_round(round: &[u32]) -> bool
    requires round_nonzero { 0 < length round.now }
    requires round_len_bound { length round.now ≤ 4096 }
    ensures { result ≡ is_round_of (length round.now) round.now }
{
    let mut marks = [0u8; 4096];
    mark_waiting(round, &mut marks, 0, round.len())
}

// The flags are the marks of as many stops.
fn flags_marked(flags: &[u8], marks: &[u8]) -> bool
    requires { length flags.now ≤ length marks.now }
    ensures { result ≡ same flags.now (take (length flags.now) marks.now) }
{
    for i in 0..flags.len() {
        if flags[i] != marks[i] {
            return false;
        }
    }
    true
}

// Queue and flags agree, told by clear marks that are lent.
fn line_good(queue: &[u32], flags: &[u8], marks: &mut [u8], head: usize, count: usize) -> bool
    requires queue_in_bounds { length queue.now ≤ length marks.old }
    requires flags_len { length flags.now ≡ length queue.now }
    requires marks_value { take (length queue.now) marks.old ≡ flags_of (length queue.now) [] }
    ensures { result ≡ agree (length queue.now) queue.now flags.now head count }
{
    if queue.len() <= head {
        return false;
    }
    if queue.len() < count {
        return false;
    }
    mark_waiting(queue, marks, head, count) && flags_marked(flags, marks)
}

// Queue and flags agree: the stops that wait are below n, each once, and the flags are 1 for exactly those.
pub fn queue_good(queue: &[u32], flags: &[u8], head: usize, count: usize) -> bool
    requires queue_len_bound { length queue.now ≤ 4096 }
    requires flags_len { length flags.now ≡ length queue.now }
    ensures { result ≡ agree (length queue.now) queue.now flags.now head count }
{
    let mut marks = [0u8; 4096];
    line_good(queue, flags, &mut marks, head, count)
}

// Entry i of the journal is in range for n stops; lengths are summed in 64 bits.
fn entry_good(n: usize, journal: &[u32], i: usize) -> bool
    requires { 5 * (i + 1) ≤ length journal.now }
    ensures { result ≡ (leb (at journal.now (5 * i)) 2 && in_range n (entry_at journal.now i)) }
{
    let p = 5 * i;
    let word = journal[p];
    let start = journal[p + 1] as usize;
    let a = journal[p + 2] as usize;
    if n <= start {
        return false;
    }
    // A match on Kind::of(word) was tried: a long journal takes half as long again.
    if word == Kind::Reversal as u32 {
        return a <= n;
    }
    if word == Kind::Rotation as u32 {
        let b = journal[p + 3] as usize;
        let c = journal[p + 4] as usize;
        return a + b + c <= n;
    }
    if word == Kind::Swap as u32 {
        return a < n;
    }
    false
}

// The entries held have room and are in range for n stops.
pub fn journal_good(n: usize, journal: &[u32], held: usize) -> bool
    ensures { result ≡ good_journal n journal.now held }
{
    if journal.len() / 5 < held {
        return false;
    }
    for i in 0..held {
        if !entry_good(n, journal, i) {
            return false;
        }
    }
    true
}

// The carried time is the recount.
pub fn time_good(matrix: &Matrix, round: &[u32], time: u32) -> bool
    requires size { matrix.now.n ≡ length round.now }
    requires stops { Stops round.now (length round.now) }
    ensures { result ≡ eqb time (recount (leg_in (length round.now) matrix.now.times.now) round.now) }
{
    time == cost(matrix, round)
}
