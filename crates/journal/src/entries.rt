// One entry: its five words, and how it is taken back.
ghost use Rattle.std.specs.Prelude.{◌≡◌, true, List, [], ◌∷◌, ◌++◌, ℕ, ◌+◌, ◌*◌, ◌<◌, ◌≤◌, length, take};
ghost use Rattle.rules.specs.Journal.{in_range, entry_at, take_back as take_back_of};
ghost use Rattle.rewrite.specs.Rewritten.{Rewritten};
ghost use Rattle.rules.specs.SharedWords.{Tied};
ghost use Rattle.journal.specs.Kinds.{kind_number};

use crate::kinds::Kind;
use rewrite::{reverse_positions, rotate_segments, swap_raw};

// Writes five words behind those of the entries held.
pub fn note(journal: &mut [u32], held: usize, kind: Kind, a: u32, b: u32, c: u32, d: u32)
    requires { 5 * (held + 1) ≤ length journal.old }
    ensures { take (5 * (held + 1)) journal.new ≡ take (5 * held) journal.old ++ (kind_number kind ∷ a ∷ b ∷ c ∷ d ∷ []) }
{
    let p = 5 * held;
    journal[p] = kind.word();
    journal[p + 1] = a;
    journal[p + 2] = b;
    journal[p + 3] = c;
    journal[p + 4] = d;
}

// Takes back entry i of the journal.
pub fn take_back(
    round: &mut [u32],
    places: &mut [u32],
    scratch: &mut [u32],
    journal: &[u32],
    i: usize,
)
    requires tied { Tied round.old places.old }
    requires scratch_fits { length scratch.old ≡ length round.old }
    requires i_low { 5 * (i + 1) ≤ length journal.now }
    requires ranged { in_range (length round.old) (entry_at journal.now i) ≡ true }
    ensures { Rewritten (take_back_of (entry_at journal.now i) round.old) round.new places.new }
{
    let p = 5 * i;
    let start = journal[p + 1] as usize;
    let a = journal[p + 2] as usize;
    match Kind::of(journal[p]) {
        Kind::Reversal => reverse_positions(round, places, start, a),
        Kind::Rotation => {
            let b = journal[p + 3] as usize;
            let c = journal[p + 4] as usize;
            rotate_segments(round, places, scratch, start, c, b, a);
        }
        Kind::Swap => swap_raw(round, places, start, a),
    }
}
